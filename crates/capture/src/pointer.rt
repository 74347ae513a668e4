// Where the Exif directory is.
ghost use Rattle.std.specs.Prelude.{◌≡◌};
ghost use Rattle.capture_rules.specs.Doc.Capture.{exif_at};
ghost use Rattle.tiff.specs.Told.{by_directory};
ghost use Rattle.capture.specs.Told.{pointer_of};

use tiff::{Directory, Fault};

const EXIF_POINTER: u16 = 0x8769;

const LONG: u16 = 4;

// By the first directory.
#[tactic(auto, unfolding(capture_rules::specs::Doc::Capture::exif_at))]
pub(crate) fn exif_at(first: Directory<'_>) -> Result<usize, Fault>
    ensures { pointer_of result ≡ by_directory exif_at first.entry }
{
    let entry = first.find(EXIF_POINTER).ok_or(Fault::NoExifPointer)?;
    if !entry.holds(LONG, 1) {
        return Err(Fault::NoExifPointer);
    }
    Ok(entry.place)
}
