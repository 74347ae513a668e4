// Step 9's pass over all extents: each is checked, and the total with it. Nothing is written.
ghost use Rattle.std.specs.Prelude.{◌≡◌, ◌≤◌};
ghost use Rattle.rules.specs.OverBytes.{added, total_from};
ghost use Rattle.locations.specs.Told.{extents_of};
ghost use Rattle.join.specs.Told.{place_of, total_of, lies_by};

use crate::place::extent_place;
use boxes::{Refusal, Span};
use locations::Location;

const MAX_EXIF_SIZE: usize = 65535;

// The total with one more part.
#[tactic(auto, unfolding(rules::specs::OverBytes::added), using(rules::specs::Laws::Totals::added_over, rules::specs::Laws::Totals::added_more))]
fn with_part(total: usize, place: Result<Span, Refusal>) -> Result<usize, Refusal>
    requires { total ≤ 65535 }
    ensures { total_of result ≡ added total (place_of place) }
{
    let Span { from, to } = place?;
    let size = to.saturating_sub(from);
    if MAX_EXIF_SIZE - total < size {
        return Err(Refusal::TooLarge);
    }
    Ok(total + size)
}

// The total of a location's extents in the `len` bytes that its method names.
pub(crate) fn total_size(location: &Location, len: usize) -> Result<usize, Refusal>
    ensures { total_of result ≡ total_from (lies_by location.now len) 0 (extents_of location.now) }
{
    let method = location.entry.construction_method;
    let base = location.entry.base_offset;
    let mut total = 0;
    for k in 0..location.entry.extent_count {
        let x = location.read_extent(k);
        total = with_part(total, extent_place(method, len, base, x))?;
    }
    Ok(total)
}
