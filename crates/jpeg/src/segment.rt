// One segment, and what it leads to.
ghost use Rattle.std.specs.Prelude.{◌≡◌, ◌<◌, length};
ghost use Rattle.jpeg.specs.Told.{body_of, next_of};
ghost use Rattle.jpeg.specs.Exif.{exif_body};
ghost use Rattle.jpeg.specs.Bodies.{body_end};
ghost use Rattle.jpeg.specs.Leads.{lead_at};

use crate::marker::{APP1, PREFIX, ends_search, lacks_length, marker_at};
use boxes::{Refusal, Span};

// How long the name is, with its zero bytes: the block stands behind it.
const NAME_SIZE: usize = 6;

const NAME: [u8; NAME_SIZE] = *b"Exif\0\0";

// From the marker byte to the body: that byte, and the two of the length.
const HEAD: usize = 3;

#[tactic(auto, using(crate::specs::Exif::exif_other, crate::specs::Begins::begins_exif))]
fn is_exif(marker: u8, body: &[u8]) -> bool
    ensures { result ≡ exif_body marker body.now }
{
    marker == APP1 && body.starts_with(&NAME)
}

// Where the body ends of the segment whose marker byte stands at `at`, if the image holds all of it. The length counts its own two bytes. The tests
// subtract, so that no sum can overflow.
#[tactic(auto, using(crate::specs::Bodies::end_unread, crate::specs::Bodies::end_small, crate::specs::Bodies::end_cut, crate::specs::Bodies::end_whole))]
fn body_end(image: &[u8], at: usize) -> Result<usize, Refusal>
    requires { at < length image.now }
    ensures { body_of result ≡ body_end image.now at }
{
    if image.len() - at < HEAD {
        return Err(Refusal::ImageEnds);
    }
    let length = usize::from(endian::loadu16(image, at + 1));
    if length < 2 {
        return Err(Refusal::SegmentTooSmall);
    }
    if image.len() - at - 1 < length {
        return Err(Refusal::ImageEnds);
    }
    Ok(at + 1 + length)
}

// What a segment leads to: the next one's position, or where the block is.
#[derive(Clone, Copy)]
pub(crate) enum Next {
    On(usize),
    Found(Span),
}

// The segment at `start`, by its FF bytes, its marker and, for most, its length. A search that ends with no block is refused too.
#[tactic(auto, using(crate::specs::Leads::lead_unmarked, crate::specs::Leads::lead_cut, crate::specs::Leads::lead_ends, crate::specs::Leads::lead_bare, crate::specs::Leads::lead_refused, crate::specs::Leads::lead_block, crate::specs::Leads::lead_on, crate::specs::Bodies::end_lies))]
pub(crate) fn read_segment(image: &[u8], start: usize) -> Result<Next, Refusal>
    requires { start < length image.now }
    ensures { next_of result ≡ lead_at image.now start }
{
    if image[start] != PREFIX {
        return Err(Refusal::NoMarker);
    }
    let at = marker_at(image, start + 1);
    if image.len() <= at {
        return Err(Refusal::ImageEnds);
    }
    let marker = image[at];
    if ends_search(marker) {
        return Err(Refusal::NotFound);
    }
    if lacks_length(marker) {
        return Ok(Next::On(at + 1));
    }
    let from = at + HEAD;
    let to = body_end(image, at)?;
    if !is_exif(marker, &image[from..to]) {
        return Ok(Next::On(to));
    }
    Ok(Next::Found(Span {
        from: from + NAME_SIZE,
        to,
    }))
}
