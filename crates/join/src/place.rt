// Step 9 for one extent: where it lies, and its bytes.
ghost use Rattle.std.specs.Prelude.{◌≡◌, ◌+◌, ◌^◌, ◌<◌, length};
ghost use Rattle.rules.specs.Doc.Join.{in_image, in_idat, lies};
ghost use Rattle.rules.specs.OverBytes.{part_of};
ghost use Rattle.rules.specs.Laws.Places.{EndsIn};
ghost use Rattle.locations.specs.Told.{extent_in};
ghost use Rattle.join.specs.Told.{place_of, part_by};

use boxes::{Refusal, Span};
use locations::Extent;

// Method 0, in an image of `image_len` bytes. In the image a part may begin past the end; it is empty, with `to` below `from`.
#[tactic(auto, using(rules::specs::Laws::Places::image_open, rules::specs::Laws::Places::image_2, rules::specs::Laws::Places::image_part))]
fn in_image(image_len: usize, base: u64, x: Extent) -> Result<Span, Refusal>
    requires { base + x.offset < 2 ^ 64 }
    ensures { place_of result ≡ in_image image_len base (extent_in x) }
{
    let from = (base + x.offset) as usize;
    let size = x.length as usize;
    if size == 0 {
        return Ok(Span {
            from,
            to: image_len,
        });
    }
    if image_len.saturating_sub(from) < size {
        return Err(Refusal::ImageEnds);
    }
    Ok(Span {
        from,
        to: from + size,
    })
}

// Method 1, in an `idat` body of `idat_len` bytes.
#[tactic(auto, using(rules::specs::Laws::Places::idat_19, rules::specs::Laws::Places::idat_past, rules::specs::Laws::Places::idat_open, rules::specs::Laws::Places::idat_20, rules::specs::Laws::Places::idat_part))]
fn in_idat(idat_len: usize, base: u64, x: Extent) -> Result<Span, Refusal>
    requires { base + x.offset < 2 ^ 64 }
    ensures { place_of result ≡ in_idat idat_len base (extent_in x) }
{
    let offset = base + x.offset;
    let end = offset.checked_add(x.length).ok_or(Refusal::InvalidLength)?;
    let from = offset as usize;
    let to = end as usize;
    if idat_len < from {
        return Err(Refusal::OutOfIdat);
    }
    if x.length == 0 {
        return Ok(Span { from, to: idat_len });
    }
    if idat_len < to {
        return Err(Refusal::OutOfIdat);
    }
    Ok(Span { from, to })
}

// Where an extent lies in the `len` bytes that the method, 0 or 1, names.
#[tactic(auto, using(rules::specs::Laws::Places::place_18, rules::specs::Laws::Places::place_image, rules::specs::Laws::Places::place_idat))]
pub(crate) fn extent_place(method: u64, len: usize, base: u64, x: Extent) -> Result<Span, Refusal>
    ensures { place_of result ≡ lies method len base (extent_in x) }
{
    if u64::MAX - base < x.offset {
        return Err(Refusal::InvalidOffset);
    }
    match method {
        0 => in_image(len, base, x),
        _ => in_idat(len, base, x),
    }
}

// The bytes of a place in `s`. None of a refused one: `total_size` has refused it before, and the arm only spares a `requires`.
#[tactic(auto, unfolding(rules::specs::OverBytes::part_of))]
fn part_at(s: &[u8], place: Result<Span, Refusal>) -> &[u8]
    requires { EndsIn (length s.now) (place_of place) }
    ensures { result.now ≡ part_of s.now (place_of place) }
{
    match place {
        Ok(Span { from, to }) if from <= to => &s[from..to],
        _ => &s[..0],
    }
}

// An extent's bytes: a part of the image or of the `idat` body, as the method says, and never a copy. Nothing of one that is refused.
#[tactic(auto, using(rules::specs::Laws::Places::lies_inside))]
pub(crate) fn extent_part<'a>(
    image: &'a [u8],
    idat: &'a [u8],
    method: u64,
    base: u64,
    x: Extent,
) -> &'a [u8]
    ensures { result.now ≡ part_by method image.now idat.now base (extent_in x) }
{
    match method {
        0 => part_at(image, extent_place(method, image.len(), base, x)),
        _ => part_at(idat, extent_place(method, idat.len(), base, x)),
    }
}
