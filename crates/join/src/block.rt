// An item's block, or why there is none: the method, step 10, the room.
ghost use Rattle.std.specs.Prelude.{◌≡◌, length};
ghost use Rattle.rules.specs.OverBytes.{chosen_block, item_block, answer_of};
ghost use Rattle.locations.specs.Told.{location_in};
ghost use Rattle.output.specs.Told.{told};
ghost use Rattle.join.specs.Told.{store, source, block_by};

use crate::copy::{first_number, gather};
use crate::total::total_size;
use boxes::Refusal;
use locations::Location;
use output::{Extracted, NoBlock};

// How many bytes there are in what the method, 0 or 1, names: the image or `idat`.
fn source_len(image: &[u8], idat: &[u8], method: u64) -> usize
    ensures { result ≡ length (source method image.now idat.now) }
{
    match method {
        0 => image.len(),
        _ => idat.len(),
    }
}

// The block of a location with method 0 or 1, from two slices, of which the method names one (document 01). Nothing is written before it is certain that all of it will be.
#[tactic(auto, using(crate::specs::Answers::block_refused))]
fn extract_joined<'a>(
    image: &'a [u8],
    idat: &'a [u8],
    location: &Location,
    out: &mut [u8],
) -> Extracted
    ensures { told result out.new ≡ answer_of out.old (block_by image.now idat.now location.now) }
{
    let len = source_len(image, idat, location.entry.construction_method);
    let total = total_size(location, len)?;
    if total < 4 {
        return Err(NoBlock::Refused(Refusal::UnderFour));
    }
    let offset = first_number(image, idat, location);
    if total - 4 < offset {
        return Err(NoBlock::Refused(Refusal::HeaderOffset));
    }
    let need = total - 4 - offset;
    if out.len() < need {
        return Err(NoBlock::NoRoom(need));
    }
    gather(image, idat, location, 4 + offset, out);
    Ok(need)
}

// Steps 9 and 10 for the entry that was chosen.
#[tactic(auto, using(crate::specs::Methods::method_0, crate::specs::Methods::method_1, crate::specs::Methods::method_21, crate::specs::Methods::method_22, crate::specs::Methods::method_23))]
fn extract_chosen<'a>(
    image: &'a [u8],
    idat: Option<&'a [u8]>,
    location: &Location,
    out: &mut [u8],
) -> Extracted
    ensures { told result out.new ≡ answer_of out.old
        (chosen_block image.now (store idat.entry) location.now.body.now (location_in location.now)) }
{
    match location.entry.construction_method {
        0 => extract_joined(image, &[], location, out),
        1 => {
            let idat = idat.ok_or(Refusal::NoIdat)?;
            extract_joined(image, idat, location, out)
        }
        2 => Err(NoBlock::Refused(Refusal::ByItemOffset)),
        3..=15 => Err(NoBlock::Refused(Refusal::UnknownMethod)),
        // The method is a half-byte, so nothing is left.
        _ => Err(NoBlock::Refused(Refusal::UnknownMethod)),
    }
}

// The block of the item goes to the front of `out`. For steps 7 and 8, `locations` is asked.
#[tactic(auto, using(crate::specs::Methods::item_refused, crate::specs::Methods::item_found))]
pub fn extract_item<'a>(
    image: &'a [u8],
    idat: Option<&'a [u8]>,
    iloc: &[u8],
    item_id: u64,
    out: &mut [u8],
) -> Extracted
    ensures { told result out.new ≡ answer_of out.old (item_block image.now (store idat.entry) iloc.now item_id) }
{
    let location = locations::parse_iloc(iloc, item_id)?;
    extract_chosen(image, idat, &location, out)
}
