// Text into a lent buffer. Each function writes from a position on, as much as there is room for, and answers the place behind its text, past the
// end of a buffer that is too short. So of texts one behind the other, from 0 on, the last place is the length of them all. (A struct of buffer and
// place would have to promise in every contract that it still holds the same buffer.)
#![tactic(auto)]

ghost use Rattle.std.specs.Prelude.{◌≡◌, ◌+◌, ◌^◌, ◌<◌, [], ◌∷◌, ◌++◌, length};
ghost use Rattle.rules.specs.Doc.Text.{digit, hex, decimal};
ghost use Rattle.text.specs.Wrote.{Wrote};

fn put_byte(b: u8, out: &mut [u8], at: usize) -> usize
    requires { at + 1 < 2 ^ 64 }
    ensures { Wrote (b ∷ []) at out.old result out.new }
{
    if at < out.len() {
        out[at] = b;
    }
    at + 1
}

pub fn put(part: &[u8], out: &mut [u8], at: usize) -> usize
    requires { at + length part.now < 2 ^ 64 }
    ensures { Wrote part.now at out.old result out.new }
{
    let mut end = at;
    for b in part {
        end = put_byte(*b, out, end);
    }
    end
}

// The letter of a digit below 16.
#[tactic(auto, unfolding(rules::specs::Doc::Text::digit))]
pub fn digit(d: usize) -> u8
    requires { d < 16 }
    ensures { result ≡ digit d }
{
    b"0123456789abcdef"[d]
}

// A plain decimal number without leading zeros.
#[tactic(auto, using(rules::specs::Laws::Text::decimal_one, rules::specs::Laws::Text::decimal_longer, rules::specs::Laws::Text::one_digit))]
pub fn put_decimal(n: usize, out: &mut [u8], at: usize) -> usize
    requires { at + length (decimal n) < 2 ^ 64 }
    ensures { Wrote (decimal n) at out.old result out.new }
{
    if n < 10 {
        return put_byte(digit(n), out, at);
    }
    let next = put_decimal(n / 10, out, at);
    put_byte(digit(n % 10), out, next)
}

// A name and a number, as `at=20`.
#[tactic(auto, using(crate::specs::Wrote::room_first, crate::specs::Wrote::room_then))]
pub fn put_named(name: &[u8], n: usize, out: &mut [u8], at: usize) -> usize
    requires { at + length (name.now ++ decimal n) < 2 ^ 64 }
    ensures { Wrote (name.now ++ decimal n) at out.old result out.new }
{
    let at = put(name, out, at);
    put_decimal(n, out, at)
}

// The last k digits in base 16. A function of its own beside `put_decimal`, which ends where the number does and not at a count.
#[tactic(auto, using(rules::specs::Laws::Text::hex_none, rules::specs::Laws::Text::hex_longer))]
pub fn put_hex(k: usize, n: usize, out: &mut [u8], at: usize) -> usize
    requires { at + length (hex k n) < 2 ^ 64 }
    ensures { Wrote (hex k n) at out.old result out.new }
{
    if k == 0 {
        return at;
    }
    let next = put_hex(k - 1, n / 16, out, at);
    put_byte(digit(n % 16), out, next)
}
