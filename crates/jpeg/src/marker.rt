// Markers, under the names that the JPEG standard gives them, and where the next one stands.
ghost use Rattle.std.specs.Prelude.{◌≡◌};
ghost use Rattle.jpeg_rules.specs.Doc.Segments.{ends_search, lacks_length, marker_at};

// Stands before every marker; more of them are fill.
pub(crate) const PREFIX: u8 = 0xff;

// 01, and D0 to D7, which stand inside a scan: those without a length.
const TEM: u8 = 0x01;

const RST0: u8 = 0xd0;

const RST7: u8 = 0xd7;

// D9, the end of the image, and DA, behind which a scan follows.
const EOI: u8 = 0xd9;

const SOS: u8 = 0xda;

// E1, whose segment may hold Exif.
pub(crate) const APP1: u8 = 0xe1;

#[tactic(auto, using(crate::specs::Markers::ends_other, crate::specs::Markers::ends_between))]
pub(crate) fn ends_search(marker: u8) -> bool
    ensures { result ≡ ends_search marker }
{
    matches!(marker, SOS | EOI)
}

// Every other marker has one, 00 too.
#[tactic(auto, using(crate::specs::Markers::lacks_tem, crate::specs::Markers::lacks_below, crate::specs::Markers::lacks_above, crate::specs::Markers::lacks_between))]
pub(crate) fn lacks_length(marker: u8) -> bool
    ensures { result ≡ lacks_length marker }
{
    matches!(marker, TEM | RST0..=RST7)
}

// Where the marker byte stands, behind the FF bytes from `start` on; the end of the image, if nothing else is left. Counted by hand, and no `Option`:
// with the library's `find`, or a `for` that hands out `None`, each segment and each byte of fill takes a quarter more.
pub(crate) fn marker_at(image: &[u8], start: usize) -> usize
    ensures { result ≡ marker_at image.now start }
{
    let mut at = start;
    while at < image.len() {
        if image[at] != PREFIX {
            return at;
        }
        at += 1;
    }
    at
}
