// An entry of a directory: its type, how many values it has, and where they stand. What it holds doesn't go by its tag: in the contracts 0 is in
// its place.
ghost use Rattle.std.specs.Prelude.{◌≡◌, length, IfOk};
ghost use Rattle.capture_rules.specs.Doc.Directory.{holds, value_of};
ghost use Rattle.tiff.specs.Told.{entry_of, bytes_of};

use crate::fault::Fault;
use crate::read::inside;

#[derive(Clone, Copy)]
pub struct Entry {
    pub kind: u16,
    pub count: u32,
    pub place: usize,
}

impl Entry {
    // Whether it has just `many` values of the type `wanted`.
    pub fn holds(self, wanted: u16, many: u32) -> bool
        ensures { result ≡ holds wanted many (entry_of 0 self) }
    {
        self.kind == wanted && self.count == many
    }

    // The `n` bytes that it points to.
    #[tactic(auto, unfolding(capture_rules::specs::Doc::Directory::value_of))]
    pub fn value<'a>(self, block: &'a [u8], n: usize) -> Result<&'a [u8], Fault>
        ensures bytes { bytes_of result ≡ value_of block.now n (entry_of 0 self) }
        ensures size { IfOk result (λ v. length v.now ≡ n) }
    {
        if !inside(block, self.place, n) {
            return Err(Fault::Outside);
        }
        Ok(&block[self.place..self.place + n])
    }
}
