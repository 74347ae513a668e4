// How wide the numbers of an extent are.
ghost use Rattle.std.specs.Prelude.{◌≡◌, ◌<◌};

// The sizes of an extent's three numbers, each of which is a half-byte.
#[derive(Clone, Copy)]
pub struct Sizes {
    pub index: usize,
    pub offset: usize,
    pub length: usize,
    pub ghost small: { (index < 16) × (offset < 16) × (length < 16) },
}

impl Sizes {
    ghost use Rattle.rules.specs.Doc.Iloc.{extent_width};
    ghost use Rattle.locations.specs.Parts.{sizes_in};

    // The bytes of an extent: its three numbers.
    #[tactic(auto, unfolding(rules::specs::Doc::Iloc::extent_width))]
    pub(crate) fn extent_size(self) -> usize
        ensures { (result ≡ extent_width (sizes_in self)) × (result < 48) }
    {
        self.index + self.offset + self.length
    }
}
