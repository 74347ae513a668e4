// A directory of a block, and the first of its entries with a tag.
ghost use Rattle.std.specs.Prelude.{◌≡◌, ◌+◌, ◌*◌, ◌≤◌, length};

use crate::entry::Entry;
use endian::Endian;

// Where the entries begin, and how many there are, with the block that they lie in and the order of its bytes.
#[derive(Clone, Copy)]
pub struct Directory<'a> {
    pub order: Endian,
    pub block: &'a [u8],
    pub from: usize,
    pub count: usize,
    pub ghost inside: { from + 12 * count ≤ length block.now },
}

impl<'a> Directory<'a> {
    ghost use Rattle.capture_rules.specs.Doc.Directory.{find};
    ghost use Rattle.tiff.specs.Told.{by_directory, found_of};

    // An entry has twelve bytes.
    pub(crate) const ENTRY: usize = 12;

    // The first of its entries with a tag.
    #[tactic(auto, using(crate::specs::Entries::find_none, crate::specs::Entries::find_here, crate::specs::Entries::find_later))]
    pub fn find(self, tag: u16) -> Option<Entry>
        ensures { found_of tag result ≡ by_directory find self.entry tag }
    {
        for i in 0..self.count {
            let at = self.from + Self::ENTRY * i;
            if self.order.loadu16(self.block, at) == tag {
                return Some(Entry {
                    kind: self.order.loadu16(self.block, at + 2),
                    count: self.order.loadu32(self.block, at + 4),
                    place: self.order.loadu32(self.block, at + 8) as usize,
                });
            }
        }
        None
    }
}
