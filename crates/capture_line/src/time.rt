// A date and a time of day, as it stands in the block.
ghost use Rattle.std.specs.Prelude.{◌+◌, ◌^◌, ◌<◌};
ghost use Rattle.capture_rules.specs.Doc.Line.{two, three, time_text};
ghost use Rattle.dates.specs.Told.{time_of};
ghost use Rattle.text.specs.Wrote.{Wrote};
ghost use Rattle.capture_line.specs.Printable.{Printable};

use dates::Time;

// The two digits of a number below 100.
#[tactic(auto, using(capture_rules::specs::Laws::LineText::two_below))]
fn put_two(n: u8, out: &mut [u8], at: usize) -> usize
    requires { (n < 100) × (at + 2 < 2 ^ 64) }
    ensures { Wrote (two n) at out.old result out.new }
{
    text::put(&[b'0' + n / 10, b'0' + n % 10], out, at)
}

// Three numbers below 100, with a colon between them.
#[tactic(auto, unfolding(capture_rules::specs::Doc::Line::two), using(text::specs::Wrote::wrote_then))]
fn put_three(a: u8, b: u8, c: u8, out: &mut [u8], at: usize) -> usize
    requires { (a < 100) × (b < 100) × (c < 100) × (at + 8 < 2 ^ 64) }
    ensures { Wrote (three (two a) (two b) (two c)) at out.old result out.new }
{
    let at = put_two(a, out, at);
    let at = text::put(b":", out, at);
    let at = put_two(b, out, at);
    let at = text::put(b":", out, at);
    put_two(c, out, at)
}

// The first two digits of the year, and then twice three numbers of two digits: the rest of the date, and the time of day.
#[tactic(auto, unfolding(capture_rules::specs::Doc::Line::two, capture_rules::specs::Doc::Line::time_text), using(text::specs::Wrote::wrote_then))]
pub(crate) fn put_time(time: Time, out: &mut [u8], at: usize) -> usize
    requires { Printable (time_of time) × (at + 19 < 2 ^ 64) }
    ensures { Wrote (time_text (time_of time)) at out.old result out.new }
{
    let at = put_two((time.year / 100) as u8, out, at);
    let at = put_three((time.year % 100) as u8, time.month, time.day, out, at);
    let at = text::put(b" ", out, at);
    put_three(time.hour, time.minute, time.second, out, at)
}
