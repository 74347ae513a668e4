// Boxes in a slice: refusals, headers, a box at each level, and the fields of a box.
#![tactic(auto)]

mod field;
mod header;
mod level;
mod refusal;
mod span;

ghost use Rattle.std.specs.Prelude.{◌≡◌, ◌-◌, length};

pub use field::{fullbox_header, size048, uint16, uint32, uint64};
pub use header::{Header, Unread};
pub use level::{Child, FTYP, IINF, META, child_box, file_box};
pub use refusal::Refusal;
pub use span::Span;

// How many bytes of `s` are left at a position: none past its end.
// Under a name, since contracts and definitions speak of it; the library's subtraction does it.
pub fn left(s: &[u8], at: usize) -> usize
    ensures { result ≡ length s.now - at }
{
    s.len().saturating_sub(at)
}
