// The extents of an entry, which share their sizes.
ghost use Rattle.std.specs.Prelude.{◌≡◌, ◌+◌, ◌≤◌, length};
ghost use Rattle.rules.specs.Doc.Bytes.{number_at};
ghost use Rattle.rules.specs.Doc.Iloc.{extent_width, extent_at};
ghost use Rattle.rules.specs.Laws.Extents.{extent_here};
ghost use Rattle.locations.specs.Parts.{Width};
ghost use Rattle.locations.specs.Told.{sizes_in, extent_in, read_of};

use crate::sizes::Sizes;
use boxes::Refusal;

// An extent. Its index is read and judged, but has no further use, so it isn't kept.
#[derive(Clone, Copy)]
pub struct Extent {
    pub offset: u64,
    pub length: u64,
}

#[tactic(auto, unfolding(rules::specs::Doc::Iloc::extent_at), using(rules::specs::Laws::Fields::sized_stands))]
pub(crate) fn parse_extent(body: &[u8], sizes: Sizes, at: usize) -> Result<Extent, Refusal>
    ensures { read_of result ≡ extent_at (sizes_in sizes) body.now at }
{
    boxes::size048(body, at, sizes.index, Refusal::IndexSize)?;
    let offset_at = at + sizes.index;
    let offset = boxes::size048(body, offset_at, sizes.offset, Refusal::OffsetSize)?;
    let length_at = offset_at + sizes.offset;
    let length = boxes::size048(body, length_at, sizes.length, Refusal::LengthSize)?;
    Ok(Extent { offset, length })
}

// A number of 0, 4 or 8 bytes, where it is known to be there: one load, since every extent is read again in a loop.
fn read_again(body: &[u8], at: usize, size: usize) -> u64
    requires { Width size × (at + size ≤ length body.now) }
    ensures { result ≡ number_at body.now at size }
{
    match size {
        0 => 0,
        4 => u64::from(endian::loadu32(body, at)),
        _ => endian::loadu64(body, at),
    }
}

// An extent, where it is known to be whole.
#[tactic(auto, unfolding(rules::specs::Doc::Iloc::extent_width))]
pub(crate) fn extent_here(body: &[u8], sizes: Sizes, at: usize) -> Extent
    requires { Width sizes.offset × Width sizes.length × (at + extent_width (sizes_in sizes) ≤ length body.now) }
    ensures { extent_in result ≡ extent_here (sizes_in sizes) body.now at }
{
    let offset_at = at + sizes.index;
    let length_at = offset_at + sizes.offset;
    Extent {
        offset: read_again(body, offset_at, sizes.offset),
        length: read_again(body, length_at, sizes.length),
    }
}
