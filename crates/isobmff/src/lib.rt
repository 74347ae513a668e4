// The Exif block of a HEIF image.
#![tactic(auto)]

ghost use Rattle.std.specs.Prelude.{◌≡◌};
ghost use Rattle.rules.specs.Doc.Answers.{answer};
ghost use Rattle.rules.specs.OverBytes.{answer_of, meta_block};
ghost use Rattle.output.specs.Told.{told};

mod meta;
mod top;

use output::Extracted;

// Steps 2 to 10 from the version of the first `meta` on, with its body.
#[tactic(auto, using(crate::specs::Whole::meta_refused))]
fn from_meta<'a>(image: &'a [u8], body: &'a [u8], out: &mut [u8]) -> Extracted
    ensures { told result out.new ≡ answer_of out.old (meta_block image.now body.now) }
{
    let kept = meta::parse_meta(body)?;
    let iloc = &body[kept.iloc.from..kept.iloc.to];
    let idat = match kept.idat {
        Some(idat) => Some(&body[idat.from..idat.to]),
        None => None,
    };
    join::extract_item(image, idat, iloc, kept.item_id, out)
}

// The Exif block of `image` goes to the front of `out`; on any refusal `out` is untouched. The answer is `join`'s, since the room is asked there.
#[tactic(auto, using(crate::specs::Whole::meta_inside, crate::specs::Whole::image_refused))]
pub fn get_exif_attr(image: &[u8], out: &mut [u8]) -> Extracted
    ensures { told result out.new ≡ answer image.now out.old }
{
    let meta = top::parse(image)?;
    from_meta(image, &image[meta.from..meta.to], out)
}
