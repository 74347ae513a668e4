// When the picture was taken.
ghost use Rattle.std.specs.Prelude.{◌≡◌};
ghost use Rattle.capture_rules.specs.Doc.Capture.{date_in};
ghost use Rattle.tiff.specs.Told.{by_directory};
ghost use Rattle.capture.specs.Told.{dated_of};

use dates::Time;
use tiff::{Directory, Fault};

const DATE_TIME_ORIGINAL: u16 = 0x9003;

const ASCII: u16 = 2;

// By the Exif directory. The type and the count are asked before the place, and the place before the shape.
#[tactic(auto, unfolding(capture_rules::specs::Doc::Capture::date_in, capture_rules::specs::Doc::Directory::value_of))]
pub(crate) fn date_in(exif: Directory<'_>) -> Result<Time, Fault>
    ensures { dated_of result ≡ by_directory date_in exif.entry }
{
    let entry = exif.find(DATE_TIME_ORIGINAL).ok_or(Fault::NoDate)?;
    if !entry.holds(ASCII, 20) {
        return Err(Fault::NoDate);
    }
    let value = entry.value(exif.block, 20)?;
    dates::parse(value).ok_or(Fault::NoDate)
}
