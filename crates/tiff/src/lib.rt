// An Exif block is laid out like a TIFF file: a header, and directories. This crate reads those; which entries are wanted is for `capture`.
#![tactic(auto)]

mod directory;
mod entry;
mod fault;
mod header;
mod read;

pub use directory::Directory;
pub use entry::Entry;
pub use fault::Fault;
pub use header::{Header, read_header};
pub use read::{inside, read_directory};
