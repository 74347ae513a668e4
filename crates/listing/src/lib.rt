// The listing of an image's boxes, as text in a lent buffer: one function lists a run of boxes, the other opens one box, and they call each other.
#![tactic(auto)]

mod found;
mod line;

ghost use Rattle.std.specs.Prelude.{◌≡◌, ◌++◌, ◌+◌, ◌^◌, ◌≤◌, ◌<◌, length, drop};
ghost use Rattle.rules.specs.Doc.Listing.{deepest, open_box, list_run, listing, printed};
ghost use Rattle.rules.specs.Laws.Listing.{lines_text};
ghost use Rattle.listing.specs.Told.{box_in};
ghost use Rattle.listing.specs.Lines.{Lines};

use boxes::Refusal;
use found::Found;
use line::{put_last, put_line};

// The longest image that is listed.
pub const LONGEST: usize = 65536;

// Seven bytes of text for each byte of an image, and the last line: no listing is longer.
pub const LONGEST_TEXT: usize = 7 * LONGEST + 19;

// Boxes at this depth aren't opened.
const DEEPEST: usize = 8;

// How much text was written, past the end of the buffer too, before a box that couldn't be read or opened; where it starts, and why.
#[derive(Clone, Copy)]
struct Fault {
    written: usize,
    at: usize,
    why: Refusal,
}

// The boxes from a position to the end of `s`, with so many levels under them that may be opened. So much text is written already.
// The answer is how much is written then, past the end of the buffer too.
#[cycle(list_run_open_box)]
fn list_run(
    s: &[u8],
    from: usize,
    levels: usize,
    out: &mut [u8],
    written: usize,
) -> Result<usize, Fault>
    requires levels_le_deepest { levels ≤ deepest }
    requires from_bound { written + length (lines_text (list_run levels s.now from)) < 2 ^ 64 }
    ensures { Lines (list_run levels s.now from) written out.old result out.new }
{
    let mut at = from;
    let mut so_far = written;
    // A turn goes over a box, however long: no index is counted.
    while at < s.len() {
        let found = Found::at(s, at).map_err(|why| Fault {
            written: so_far,
            at,
            why,
        })?;
        let after_line = put_line(DEEPEST - levels, found, out, so_far);
        so_far = open_box(found, levels, out, after_line)?;
        at = found.child.to;
    }
    Ok(so_far)
}

// What stands in one box. The bytes around its children end where it does, so that places still count from the start of the image.
#[cycle(list_run_open_box)]
fn open_box(found: Found, levels: usize, out: &mut [u8], written: usize) -> Result<usize, Fault>
    requires levels_le_deepest { levels ≤ deepest }
    requires found_bound { written + length (lines_text (open_box levels found.s.now (box_in found))) < 2 ^ 64 }
    ensures { Lines (open_box levels found.entry.s.now (box_in found.entry)) written out.old result out.new }
{
    if levels == 0 {
        return Ok(written);
    }
    match found.opening() {
        Err(why) => Err(Fault {
            written,
            at: found.start,
            why,
        }),
        Ok(None) => Ok(written),
        Ok(Some(from)) => list_run(&found.s[..found.child.to], from, levels - 1, out, written),
    }
}

// The listing of an image goes to the front of `out`, as much of it as there is room for. The answer is the length of all of it.
#[tactic(auto, using(crate::specs::Whole::room_long, crate::specs::Whole::room_lines))]
pub fn list_boxes(image: &[u8], out: &mut [u8]) -> usize
    ensures value { result ≡ length (listing image.now) }
    ensures out_after { out.new ≡ printed (listing image.now) out.old }
{
    if image.len() > LONGEST {
        return put_last(
            LONGEST,
            usize::from(Refusal::ListingTooLong.number()),
            out,
            0,
        );
    }
    match list_run(image, 0, DEEPEST, out, 0) {
        Ok(written) => put_last(image.len(), 0, out, written),
        Err(Fault { written, at, why }) => put_last(at, usize::from(why.number()), out, written),
    }
}

// The same with a buffer that is long enough for every image: nothing is ever cut.
#[tactic(auto, using(rules::specs::Laws::ListingLength::always_room))]
pub fn list_all(image: &[u8], out: &mut [u8; LONGEST_TEXT]) -> usize
    ensures value { result ≡ length (listing image.now) }
    ensures out_after { out.new ≡ listing image.now ++ drop (length (listing image.now)) out.old }
{
    list_boxes(image, out)
}
