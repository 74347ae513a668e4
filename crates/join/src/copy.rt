// The joined bytes, straight from the extents to where they go.
ghost use Rattle.std.specs.Prelude.{◌≡◌, drop};
ghost use Rattle.std.proofs.lemmas.List.Edits.{sets};
ghost use Rattle.rules.specs.Doc.Bytes.{number_at};
ghost use Rattle.join.specs.Told.{joined_of};

use crate::place::extent_part;
use locations::Location;
use output::put;

// Copies the joined bytes from `skip` on to the front of `out`, as many as there is room for.
pub(crate) fn gather<'a>(
    image: &'a [u8],
    idat: &'a [u8],
    location: &Location,
    skip: usize,
    out: &mut [u8],
)
    ensures { out.new
        ≡ sets out.old 0 (drop skip (joined_of image.now idat.now location.now)) }
{
    let method = location.entry.construction_method;
    let base = location.entry.base_offset;
    let mut left = skip;
    let mut at = 0;
    for k in 0..location.entry.extent_count {
        if out.len() <= at {
            return;
        }
        let x = location.read_extent(k);
        let part = extent_part(image, idat, method, base, x);
        at = put(part, left, out, at);
        left = left.saturating_sub(part.len());
    }
}

// The number in the first four joined bytes, which may lie in several extents.
pub(crate) fn first_number<'a>(image: &'a [u8], idat: &'a [u8], location: &Location) -> usize
    ensures { result ≡ number_at (joined_of image.now idat.now location.now) 0 4 }
{
    let mut four = [0u8; 4];
    gather(image, idat, location, 0, &mut four);
    endian::loadu32(&four, 0) as usize
}
