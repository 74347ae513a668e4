// A line that the intake wrote, read by its words and its digits: exactly `answer=A length=L` and a newline, or another shape.
#![tactic(auto)]

ghost use Rattle.std.specs.Prelude.{◌≡◌, [], ◌≤◌};
ghost use Rattle.sheet_line.specs.Numbers.{Digit, Named};
ghost use Rattle.sheet_line.specs.Shape.{most_length, LineAt};

// A number, and how many bytes it and what stands before it take.
#[derive(Clone, Copy)]
struct Number {
    n: usize,
    end: usize,
}

// What a line says, and how many bytes it has.
#[derive(Clone, Copy)]
pub struct Entry {
    pub answer: usize,
    pub length: usize,
    pub end: usize,
}

// The largest answer that a line can have.
const MOST_ANSWER: usize = 99;

// The largest length.
const MOST_LENGTH: usize = 65535;

// The digit at a position, if one stands there.
#[tactic(auto, using(crate::specs::Numbers::digit_end, crate::specs::Numbers::digit_other, crate::specs::Numbers::digit_there))]
fn digit_at(s: &[u8], i: usize) -> Option<usize>
    ensures { Digit s.now i result }
{
    let c = *s.get(i)?;
    if c.is_ascii_digit() {
        Some(usize::from(c - b'0'))
    } else {
        None
    }
}

// A plain decimal at the front. `end` is counted by hand, since it is half of the answer: how many bytes the number takes.
fn read_decimal(s: &[u8], most: usize) -> Option<Number>
    requires { most ≤ 65535 }
    ensures { Named [] most s.now result }
{
    let mut n = 0;
    let mut end = 0;
    while let Some(digit) = digit_at(s, end) {
        // A digit behind a leading zero.
        if 0 < end && n == 0 {
            return None;
        }
        n = n * 10 + digit;
        if most < n {
            return None;
        }
        end += 1;
    }
    if end == 0 {
        return None;
    }
    Some(Number { n, end })
}

// A name and a plain decimal behind it. Every line has two: a call for each would cost a line a quarter more.
#[inline(always)]
fn read_named(name: &[u8], s: &[u8], most: usize) -> Option<Number>
    requires { most ≤ 65535 }
    ensures { Named name.now most s.now result }
{
    let behind = s.strip_prefix(name)?;
    let number = read_decimal(behind, most)?;
    Some(Number {
        n: number.n,
        end: name.len() + number.end,
    })
}

// Only answer 0 has a length.
#[tactic(auto, unfolding(crate::specs::Shape::most_length))]
fn most_length(answer: usize) -> usize
    ensures { (result ≡ most_length answer) × (result ≤ 65535) }
{
    if answer == 0 { MOST_LENGTH } else { 0 }
}

// The line at the front; or nothing, where another shape stands there.
pub fn read_line(s: &[u8]) -> Option<Entry>
    ensures { LineAt s.now result }
{
    let answer = read_named(b"answer=", s, MOST_ANSWER)?;
    let length = read_named(b" length=", &s[answer.end..], most_length(answer.n))?;
    let last = answer.end + length.end;
    if !s[last..].starts_with(b"\n") {
        return None;
    }
    Some(Entry {
        answer: answer.n,
        length: length.n,
        end: last + 1,
    })
}
