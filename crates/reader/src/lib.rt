// The Exif block of a photograph, HEIF or JPEG: for callers that have either.
#![tactic(auto)]

ghost use Rattle.std.specs.Prelude.{◌≡◌};
ghost use Rattle.jpeg_rules.specs.Doc.Either.{either_answer};
ghost use Rattle.output.specs.Told.{told};

use output::Extracted;

// The block goes to the front of `out`; on any refusal `out` is untouched. What is neither HEIF nor JPEG gets what the HEIF reader says of it.
#[tactic(auto, using(crate::specs::Taken::as_heif, crate::specs::Taken::as_jpeg, crate::specs::Taken::as_neither))]
pub fn get_exif_attr(image: &[u8], out: &mut [u8]) -> Extracted
    ensures { told result out.new ≡ either_answer image.now out.old }
{
    if !brands::is_heif(image) && jpeg::is_jpeg(image) {
        jpeg::get_exif_attr(image, out)
    } else {
        isobmff::get_exif_attr(image, out)
    }
}
