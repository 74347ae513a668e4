// Bytes of a shape, and the numbers in it.
ghost use Rattle.std.specs.Prelude.{◌≡◌, ◌+◌, ◌^◌, ◌≤◌, ◌<◌, length};
ghost use Rattle.capture_rules.specs.Doc.Time.{fits, alike, decimal_at};
ghost use Rattle.capture_rules.specs.Laws.Shape.{Digits};

// A `0` in the pattern stands for any digit, every other byte for itself.
#[tactic(auto, unfolding(capture_rules::specs::Doc::Time::fits))]
fn fits(p: u8, c: u8) -> bool
    ensures { result ≡ fits p c }
{
    if p == b'0' {
        c.is_ascii_digit()
    } else {
        c == p
    }
}

pub(crate) fn alike(pattern: &[u8], value: &[u8]) -> bool
    ensures { result ≡ alike pattern.now value.now }
{
    pattern.len() == value.len() && pattern.iter().zip(value).all(|(&p, &c)| fits(p, c))
}

// The number that `n` digits from `at` make: at most four, so 16 bits hold it.
#[tactic(auto, unfolding(capture_rules::specs::Doc::Time::decimal_at), using(capture_rules::specs::Laws::Shape::decimal_room, capture_rules::specs::Laws::Shape::decimal_below))]
pub(crate) fn decimal(value: &[u8], at: usize, n: usize) -> u16
    requires { (n ≤ 4) × (at + n ≤ length value.now) × Digits value.now at n }
    ensures { (result ≡ decimal_at value.now at n) × (result < 10 ^ n) }
{
    let mut num = 0;
    for c in &value[at..at + n] {
        num = num * 10 + u16::from(c - b'0');
    }
    num
}

// Two digits make a number below 100.
pub(crate) fn two(value: &[u8], at: usize) -> u8
    requires { (at + 2 ≤ length value.now) × Digits value.now at 2 }
    ensures { result ≡ decimal_at value.now at 2 }
{
    decimal(value, at, 2) as u8
}
