// Why a block is refused, and the numbers.
ghost use Rattle.std.specs.Prelude.{◌≡◌};
ghost use Rattle.tiff.specs.Told.{number};

// One enum for the two crates that read a block, this one and `capture`, so that each number stands once.
#[derive(Clone, Copy)]
pub enum Fault {
    Header = 34,
    Outside = 35,
    NoExifPointer = 36,
    NoDate = 37,
    BiasType = 38,
    ZeroDenominator = 39,
}

impl Fault {
    pub fn number(self) -> u8
        ensures { result ≡ number self }
    {
        self as u8
    }
}
