// `BoxSplitter`: the rest of a box's bytes, in a struct that answers and moves on.
#![tactic(auto)]

mod behind;
mod count;
mod splitter;

pub use count::{Counted, children};
pub use splitter::BoxSplitter;
