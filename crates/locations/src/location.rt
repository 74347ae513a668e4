// Where an item is, as the body of an `iloc` says.
ghost use Rattle.std.specs.Prelude.{◌≡◌, ◌∷◌, ◌+◌, ◌<◌, drop};
ghost use Rattle.rules.specs.Laws.Entries.{Chose};
ghost use Rattle.locations.specs.Parts.{chosen_with};

use crate::entry::Entry;
use crate::extent;
use crate::extent::Extent;
use crate::sizes::Sizes;

// The entry that was chosen, the sizes by which its extents are read again, and the body that they are in. That it was chosen is a fact of the
// type: so whoever has one need show only that there is an extent `k`, to read that.
#[derive(Clone, Copy)]
pub struct Location<'a> {
    pub body: &'a [u8],
    pub sizes: Sizes,
    pub entry: Entry,
    pub ghost chosen: { ∥ Chose body.now (chosen_with sizes entry) ∥₁ },
}

impl<'a> Location<'a> {
    ghost use Rattle.locations.specs.Told.{extent_in, extents_of};

    // Extent `k`, read again. The contract speaks of what is left, as a loop over the extents needs it: what is left at k is this one and what
    // is left at k + 1.
    #[tactic(auto, using(crate::specs::Located::whole))]
    pub fn read_extent(&self, k: u64) -> Extent
        requires k_bound { k < self.now.entry.extent_count }
        ensures { drop k (extents_of self.now) ≡ extent_in result ∷ drop (k + 1) (extents_of self.now) }
    {
        let at = self.entry.extents_at + k as usize * self.sizes.extent_size();
        extent::extent_here(self.body, self.sizes, at)
    }
}
