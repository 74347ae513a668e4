// The lines, counted.
ghost use Rattle.std.specs.Prelude.{◌≡◌, replicate};
ghost use Rattle.sheet.specs.Counting.{CountedOf};

use crate::counted::{ANSWERS, Totals};
use sheet_line::read_line;

const MOST_LINES: usize = 100000;

// Counts the lines, the files of each answer in `counts`, which starts with zeros; or answers the number of the first one that refuses them all.
// The counts are lent: handed out in the answer, they would be copied twice, by C's `memcpy`.
pub(crate) fn count(lines: &[u8], counts: &mut [usize; ANSWERS]) -> Result<Totals, usize>
    requires { counts.old ≡ replicate 100 0 }
    ensures { CountedOf lines.now counts.new result }
{
    let mut files = 0;
    let mut bytes = 0;
    let mut largest: usize = 0;
    let mut rest = lines;
    while !rest.is_empty() {
        let line = files + 1;
        if MOST_LINES < line {
            return Err(line);
        }
        let entry = read_line(rest).ok_or(line)?;
        counts[entry.answer] += 1;
        files = line;
        bytes += entry.length;
        largest = largest.max(entry.length);
        rest = &rest[entry.end..];
    }
    Ok(Totals {
        files,
        bytes,
        largest,
    })
}
