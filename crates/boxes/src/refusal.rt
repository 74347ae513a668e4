// The refusals of extraction and of the listing, and their numbers: those up to 29 are document 01's, 31 to 33 are added by request three of document 02,
// for JPEG. Those of a block are in crates/tiff. The gap below 28 is a number that is retired, and no number is given anew (docs/NUMBERS.md).
ghost use Rattle.std.specs.Prelude.{◌≡◌};
ghost use Rattle.boxes.specs.Told.{number};

// Why there is no answer.
#[derive(Clone, Copy)]
pub enum Refusal {
    NotFound = 1,
    ImageEnds = 2,
    BoxTooSmall = 3,
    InvalidBoxSize = 4,
    LargeSeek = 5,
    MetaBeforeFtyp = 6,
    NoKnownBrand = 7,
    MetaVersion = 8,
    InfeVersion = 9,
    IlocVersion = 10,
    BaseOffsetSize = 11,
    IndexSize = 12,
    OffsetSize = 13,
    LengthSize = 14,
    ExternalReference = 15,
    NoIloc = 16,
    NoMatchingEntry = 17,
    InvalidOffset = 18,
    InvalidLength = 19,
    OutOfIdat = 20,
    NoIdat = 21,
    ByItemOffset = 22,
    UnknownMethod = 23,
    TooLarge = 24,
    UnderFour = 25,
    HeaderOffset = 26,
    NoRoom = 28,
    ListingTooLong = 29,
    NotJpeg = 31,
    NoMarker = 32,
    SegmentTooSmall = 33,
}

// `Fault` of crates/tiff has a `number` too: a trait for the two would be longer than they are.
impl Refusal {
    pub fn number(self) -> u8
        ensures { result ≡ number self }
    {
        self as u8
    }
}
