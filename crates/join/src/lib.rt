// The block of an item, steps 9 and 10: where its extents lie, their total, their bytes, and the room. For 7 and 8, `locations` is asked.
#![tactic(auto)]

mod block;
mod copy;
mod place;
mod total;

pub use block::extract_item;
