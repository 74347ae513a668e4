// The Exif block of a JPEG image.
#![tactic(auto)]

ghost use Rattle.std.specs.Prelude.{◌≡◌};
ghost use Rattle.jpeg_rules.specs.Doc.Block.{is_jpeg, jpeg_answer};
ghost use Rattle.output.specs.Told.{told};

mod marker;
mod search;
mod segment;

use boxes::Refusal;
use output::{Extracted, NoBlock};
use search::find;

// FF D8, with which a JPEG image starts.
const JPEG_SIG: [u8; 2] = [0xff, 0xd8];

// By its first two bytes alone: a yes doesn't say that anything follows.
#[tactic(auto, using(crate::specs::Begins::begins_jpeg))]
pub fn is_jpeg(buf: &[u8]) -> bool
    ensures { result ≡ is_jpeg buf.now }
{
    buf.starts_with(&JPEG_SIG)
}

// The Exif block of `image` goes to the front of `out`; on any refusal `out` is untouched.
#[tactic(auto, using(crate::specs::Whole::found_lies, crate::specs::Whole::not_jpeg, crate::specs::Whole::jpeg_refused, crate::specs::Whole::jpeg_found))]
pub fn get_exif_attr(image: &[u8], out: &mut [u8]) -> Extracted
    ensures { told result out.new ≡ jpeg_answer image.now out.old }
{
    if !is_jpeg(image) {
        return Err(NoBlock::Refused(Refusal::NotJpeg));
    }
    let block = find(image)?;
    output::hand_out(&image[block.from..block.to], out)
}
