// Signed fractions in lowest terms.
#![tactic(auto)]

ghost use Rattle.std.specs.Prelude.{◌≡◌, ◌≤◌, ◌^◌, pos};
ghost use Rattle.capture_rules.specs.Doc.Fraction as doc;
ghost use Rattle.fraction.specs.Told.{fraction_of};

// The sign is the numerator's. 64 bits, since -2^31 over -1 is 2^31.
#[derive(Clone, Copy)]
pub struct Fraction {
    pub num: i64,
    pub den: u64,
}

// The number that four bytes hold which read as `n`: two's complement. The library's cast, by a name that the definition and the edits have.
#[tactic(auto, unfolding(capture_rules::specs::Doc::Fraction::signed32))]
pub fn signed32(n: u32) -> i32
    ensures { result ≡ doc.signed32 n }
{
    n.cast_signed()
}

fn with_sign(negative: bool, size: u64) -> i64
    requires { size ≤ 2 ^ 31 }
    ensures { result ≡ doc.with_sign negative size }
{
    let wide = size as i64;
    if negative { -wide } else { wide }
}

// By Euclid: x and y become y and what is left of x, and their greatest common divisor stays. In 64 bits, as document 01 asks.
#[tactic(auto, using(capture_rules::specs::Laws::Euclid::gcd_turn, capture_rules::specs::Laws::Euclid::gcd_none))]
fn gcd(a: u64, b: u64) -> u64
    ensures { result ≡ doc.gcd a b }
{
    let mut x = a;
    let mut y = b;
    while y != 0 {
        (x, y) = (y, x % y);
    }
    x
}

#[tactic(auto, unfolding(capture_rules::specs::Doc::Fraction::lowest), using(capture_rules::specs::Laws::Lowest::divisor_above))]
pub fn lowest(num: i32, den: i32) -> Fraction
    requires { den ≡ pos 0 → ⊥ }
    ensures { fraction_of result ≡ doc.lowest num den }
{
    let n = u64::from(num.unsigned_abs());
    let d = u64::from(den.unsigned_abs());
    let g = gcd(n, d);
    let negative = (num < 0) != (den < 0);
    Fraction {
        num: with_sign(negative, n / g),
        den: d / g,
    }
}
