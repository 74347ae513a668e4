// The morning sheet: the sum of the lines that the intake wrote, as text in a lent buffer.
#![tactic(auto)]

mod count;
mod counted;
mod print;

ghost use Rattle.std.specs.Prelude.{◌≡◌, ◌++◌, ◌≤◌, ◌<◌, length, drop};
ghost use Rattle.rules.specs.Doc.Listing.{printed};
ghost use Rattle.sheet_rules.specs.Doc.Sheet.{sheet};
ghost use Rattle.sheet.specs.Fronts.{OfEvery};

use count::count;
use counted::ANSWERS;
use print::{put_sums, put_wrong};

// No sheet is longer (`sheet_length` in sheet_rules, Laws/SheetLength).
pub const LONGEST_SHEET: usize = 2350;

// How much of an input has to be read: 23 bytes for each of 100,000 lines, and one more.
pub const MOST_INPUT: usize = 100000 * 23 + 1;

// Puts the sheet of `lines` at the front of `out`, as much of it as there is room for. The answer is the length of all of it.
pub fn write_sheet(lines: &[u8], out: &mut [u8]) -> usize
    ensures value { result ≡ length (sheet lines.now) }
    ensures out_after { out.new ≡ printed (sheet lines.now) out.old }
{
    let mut counts = [0; ANSWERS];
    match count(lines, &mut counts) {
        Ok(totals) => put_sums(&counts, totals, out),
        Err(line) => put_wrong(line, out),
    }
}

// The same with a buffer that is long enough for every sheet: nothing is ever cut.
pub fn write_whole_sheet(lines: &[u8], out: &mut [u8; LONGEST_SHEET]) -> usize
    ensures value { (result ≡ length (sheet lines.now)) × (result ≤ 2350) }
    ensures out_after { out.new ≡ sheet lines.now ++ drop result out.old }
{
    write_sheet(lines, out)
}

// The sheet of an input of which `front` has the first bytes: n of them, which are all, or as many as it holds. Whatever stands behind them has no say.
pub fn write_front_sheet(front: &[u8; MOST_INPUT], n: usize, out: &mut [u8; LONGEST_SHEET]) -> usize
    ensures every { OfEvery front.now n out.old result out.new }
    ensures inside { result ≤ 2350 }
{
    write_whole_sheet(&front[..n.min(front.len())], out)
}
