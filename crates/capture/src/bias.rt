// The exposure bias.
ghost use Rattle.std.specs.Prelude.{◌≡◌, ◌≤◌, length};
ghost use Rattle.capture_rules.specs.Doc.Capture.{fraction_in, entry_bias, bias_in};
ghost use Rattle.capture_rules.specs.Doc.Directory.{exposure_bias_value};
ghost use Rattle.endian.specs.Told.{endian_of};
ghost use Rattle.tiff.specs.Told.{by_directory, entry_of};
ghost use Rattle.capture.specs.Told.{ratio_of, biased_of};

use endian::Endian;
use fraction::Fraction;
use tiff::{Directory, Entry, Fault};

const EXPOSURE_BIAS_VALUE: u16 = 0x9204;

const SRATIONAL: u16 = 10;

// Of the eight bytes of a value.
#[tactic(auto, unfolding(capture_rules::specs::Doc::Capture::fraction_in), using(capture_rules::specs::Laws::Signs::signed32_nonzero))]
fn fraction_in(order: Endian, value: &[u8]) -> Result<Fraction, Fault>
    requires { 8 ≤ length value.now }
    ensures { ratio_of result ≡ fraction_in (endian_of order) value.now }
{
    let den = order.loadu32(value, 4);
    if den == 0 {
        return Err(Fault::ZeroDenominator);
    }
    let num = order.loadu32(value, 0);
    Ok(fraction::lowest(fraction::signed32(num), fraction::signed32(den)))
}

// Of an entry: its type and count are asked before its place.
#[tactic(auto, unfolding(capture_rules::specs::Doc::Capture::entry_bias, capture_rules::specs::Doc::Directory::value_of))]
fn entry_bias(exif: Directory<'_>, entry: Entry) -> Result<Fraction, Fault>
    ensures { ratio_of result ≡ entry_bias (endian_of exif.entry.order) exif.entry.block.now (entry_of exposure_bias_value entry) }
{
    if !entry.holds(SRATIONAL, 1) {
        return Err(Fault::BiasType);
    }
    let value = entry.value(exif.block, 8)?;
    fraction_in(exif.order, value)
}

// By the Exif directory. No entry is no refusal: so a bias can be missing.
#[tactic(auto, unfolding(capture_rules::specs::Doc::Capture::bias_in, capture_rules::specs::Doc::Capture::if_there))]
pub(crate) fn bias_in(exif: Directory<'_>) -> Result<Option<Fraction>, Fault>
    ensures { biased_of result ≡ by_directory bias_in exif.entry }
{
    match exif.find(EXPOSURE_BIAS_VALUE) {
        Some(entry) => Ok(Some(entry_bias(exif, entry)?)),
        None => Ok(None),
    }
}
