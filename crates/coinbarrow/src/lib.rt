// The functions for C and Rust, which include/coinbarrow.h declares.
#![tactic(auto)]

ghost use Rattle.std.specs.Prelude.{◌≡◌, List, [], ℕ, ◌/◌, ◌%◌, ◌^◌, ◌<◌, length};
ghost use Rattle.rules.specs.Doc.Answers.{answer};
ghost use Rattle.rules.specs.Doc.Heif.{is_heif};
ghost use Rattle.rules.specs.Doc.Listing.{listing, printed};
ghost use Rattle.jpeg_rules.specs.Doc.Either.{either_answer};
ghost use Rattle.sheet_rules.specs.Doc.Sheet.{sheet};
ghost use Rattle.output.specs.Told.{told};
ghost use Rattle.coinbarrow.specs.Halves.{unpacked};

use output::Extracted;

// The number in the upper half, the length in the lower.
fn packed(number: u8, length: usize) -> u64
    requires { length < 2 ^ 32 }
    ensures { (result / 2 ^ 32 ≡ number) × (result % 2 ^ 32 ≡ length) }
{
    (u64::from(number) << 32) | length as u64
}

// An answer of extraction as one number; the output after the call is the same.
fn packed_answer(answer: Extracted) -> u64
    requires { (told answer []).length < 2 ^ 32 }
    ensures { (after : List ℕ) → unpacked result after ≡ told answer after }
{
    let (number, length) = output::numbers(answer);
    packed(number, length)
}

// The Exif block of `image` goes to the front of `out`; on any refusal `out` is untouched. The answer is document 01's number times 2^32, plus the
// length.
#[tactic(auto, using(rules::specs::Demands::One::length_limit, crate::specs::Packed::length_fits))]
#[unsafe(no_mangle)]
pub extern "C" fn coinbarrow_exif(image: &[u8], out: &mut [u8]) -> u64
    ensures { unpacked result out.new ≡ answer image.now out.old }
{
    packed_answer(isobmff::get_exif_attr(image, out))
}

// The same of a photograph that may be HEIF or JPEG. The numbers of JPEG are request three's.
#[tactic(auto, using(jpeg_rules::specs::Demands::One::either_length, crate::specs::Packed::length_fits))]
#[unsafe(no_mangle)]
pub extern "C" fn coinbarrow_photo(image: &[u8], out: &mut [u8]) -> u64
    ensures { unpacked result out.new ≡ either_answer image.now out.old }
{
    packed_answer(reader::get_exif_attr(image, out))
}

#[unsafe(no_mangle)]
pub extern "C" fn coinbarrow_is_heif(bytes: &[u8]) -> bool
    ensures { result ≡ is_heif bytes.now }
{
    brands::is_heif(bytes)
}

// The listing of `image` goes to the front of `out`, as much of it as there is room for. The answer is the length of all of it.
#[unsafe(no_mangle)]
pub extern "C" fn coinbarrow_list(image: &[u8], out: &mut [u8]) -> usize
    ensures value { result ≡ length (listing image.now) }
    ensures out_after { out.new ≡ printed (listing image.now) out.old }
{
    listing::list_boxes(image, out)
}

// The morning sheet of `lines` goes to the front of `out`, as much of it as there is room for. The answer is the length of all of it.
#[unsafe(no_mangle)]
pub extern "C" fn coinbarrow_sheet(lines: &[u8], out: &mut [u8]) -> usize
    ensures value { result ≡ length (sheet lines.now) }
    ensures out_after { out.new ≡ printed (sheet lines.now) out.old }
{
    sheet::write_sheet(lines, out)
}
