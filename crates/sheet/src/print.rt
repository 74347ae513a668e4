// The lines of a sheet, from a position on or from the front of the buffer; where there is no room left, the place behind a text counts on.
ghost use Rattle.std.specs.Prelude.{◌≡◌, ◌+◌, ◌^◌, ◌≤◌, ◌<◌, length};
ghost use Rattle.sheet_rules.specs.Doc.Sheet.{totals_text, wrong_text};
ghost use Rattle.text.specs.Wrote.{Wrote};
ghost use Rattle.sheet.specs.Counting.{totalled};
ghost use Rattle.sheet.specs.Printed.{count_line, counts_text, sums_text};

use crate::counted::{ANSWERS, Totals};
use text::put_named;

// An answer without files has no line.
#[tactic(auto, using(rules::specs::Laws::Text::twenty_digits))]
fn put_count(answer: usize, files: usize, out: &mut [u8], at: usize) -> usize
    requires { at + 55 < 2 ^ 64 }
    ensures { Wrote (count_line answer files) at out.old result out.new × (result ≤ at + 55) }
{
    if files == 0 {
        return at;
    }
    let at = put_named(b"answer=", answer, out, at);
    let at = put_named(b" files=", files, out, at);
    text::put(b"\n", out, at)
}

fn put_counts(counts: &[usize; ANSWERS], out: &mut [u8]) -> usize
    ensures { Wrote (counts_text counts.now 100) 0 out.old result out.new × (result ≤ 5500) }
{
    let mut at = 0;
    for (answer, files) in counts.iter().enumerate() {
        at = put_count(answer, *files, out, at);
    }
    at
}

#[tactic(auto, using(rules::specs::Laws::Text::twenty_digits))]
fn put_totals(totals: Totals, out: &mut [u8], at: usize) -> usize
    requires { at + 100 < 2 ^ 64 }
    ensures { Wrote (totals_text (totalled totals)) at out.old result out.new }
{
    let at = put_named(b"total files=", totals.files, out, at);
    let at = put_named(b" bytes=", totals.bytes, out, at);
    let at = put_named(b" largest=", totals.largest, out, at);
    text::put(b"\n", out, at)
}

// Each answer that occurred, and the totals.
pub(crate) fn put_sums(counts: &[usize; ANSWERS], totals: Totals, out: &mut [u8]) -> usize
    ensures { Wrote (sums_text counts.now totals) 0 out.old result out.new }
{
    let at = put_counts(counts, out);
    put_totals(totals, out, at)
}

// Only the number of a line.
#[tactic(auto, using(rules::specs::Laws::Text::twenty_digits))]
pub(crate) fn put_wrong(line: usize, out: &mut [u8]) -> usize
    ensures { Wrote (wrong_text line) 0 out.old result out.new }
{
    let at = put_named(b"line=", line, out, 0);
    text::put(b"\n", out, at)
}
