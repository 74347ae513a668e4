// The boxes of a file, up to the first `meta`.
ghost use Rattle.std.specs.Prelude.{◌≡◌, ◌≤◌, length};
ghost use Rattle.isobmff.specs.Told.{body_of, next_of, top_of};
ghost use Rattle.isobmff.specs.Top.{whole_to, ftyp_over, meta_over, box_over, opened_body};

use boxes::{FTYP, META, Refusal, Span};

// Where a body of the file ends, if the image holds all of it. Here and in the next two functions the body has to begin inside: a type of its own for
// what that makes of an image and a box would be longer than the three lines.
#[tactic(auto, using(crate::specs::Top::to_cut, crate::specs::Top::to_whole))]
fn read_file_level_box(image: &[u8], from: usize, size: u64) -> Result<usize, Refusal>
    requires { from ≤ length image.now }
    ensures { body_of result ≡ whole_to (length image.now) from size }
{
    if size > (image.len() - from) as u64 {
        return Err(Refusal::ImageEnds);
    }
    Ok(from + size as usize)
}

// What a box leads to: the next position, with whether an `ftyp` has been checked; or the body of the first `meta`.
#[derive(Clone, Copy)]
enum Next {
    On { ftyp_checked: bool, at: usize },
    Meta(Span),
}

// An `ftyp`: its body is tested.
#[tactic(auto, unfolding(crate::specs::Top::ftyp_over), using(crate::specs::Top::to_inside))]
fn read_ftyp(image: &[u8], from: usize, size: u64) -> Result<Next, Refusal>
    requires { from ≤ length image.now }
    ensures { next_of result ≡ ftyp_over image.now from size }
{
    let to = read_file_level_box(image, from, size)?;
    brands::parse_ftyp(&image[from..to])?;
    Ok(Next::On {
        ftyp_checked: true,
        at: to,
    })
}

// The first `meta`: its body is looked at only after an `ftyp`.
#[tactic(auto, unfolding(crate::specs::Top::meta_over))]
fn read_meta(image: &[u8], from: usize, size: u64, ftyp_checked: bool) -> Result<Next, Refusal>
    requires { from ≤ length image.now }
    ensures { next_of result ≡ meta_over (length image.now) from size ftyp_checked }
{
    if !ftyp_checked {
        return Err(Refusal::MetaBeforeFtyp);
    }
    let to = read_file_level_box(image, from, size)?;
    Ok(Next::Meta(Span { from, to }))
}

// One box of the file. A skipped one may lead past the end.
#[tactic(auto, unfolding(crate::specs::Top::box_over), using(crate::specs::Top::over_ftyp, crate::specs::Top::over_meta, crate::specs::Top::over_other, rules::specs::Laws::Headers::file_begins, rules::specs::Laws::Headers::file_small))]
fn file_level_box(image: &[u8], at: usize, ftyp_checked: bool) -> Result<Next, Refusal>
    ensures { next_of result ≡ box_over image.now at ftyp_checked }
{
    let found = boxes::file_box(image, at)?;
    match found.kind {
        FTYP => read_ftyp(image, found.from, found.size),
        META => read_meta(image, found.from, found.size, ftyp_checked),
        _ => Ok(Next::On {
            ftyp_checked,
            at: found.from + found.size as usize,
        }),
    }
}

// Where the body of the first `meta` is.
pub(crate) fn parse(image: &[u8]) -> Result<Span, Refusal>
    ensures { top_of result ≡ opened_body image.now }
{
    let mut at = 0;
    let mut ftyp_checked = false;
    while at < image.len() {
        match file_level_box(image, at, ftyp_checked)? {
            Next::Meta(body) => return Ok(body),
            Next::On {
                ftyp_checked: checked,
                at: next,
            } => {
                ftyp_checked = checked;
                at = next;
            }
        }
    }
    Err(Refusal::NotFound)
}
