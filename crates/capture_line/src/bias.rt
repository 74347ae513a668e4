// The exposure bias: a fraction, as `-1/2`, or `none`.
ghost use Rattle.std.specs.Prelude.{◌≡◌, ◌+◌, ◌^◌, ◌<◌, length};
ghost use Rattle.std.proofs.Math.Option.{some};
ghost use Rattle.capture_rules.specs.Doc.Line.{sign_text, bias_text};
ghost use Rattle.text.specs.Wrote.{Wrote};
ghost use Rattle.fraction.specs.Told.{fraction_of};
ghost use Rattle.capture.specs.Told.{bias_of};

use fraction::Fraction;

// Only a number below zero has a sign.
#[tactic(auto, unfolding(capture_rules::specs::Doc::Line::sign_text), using(text::specs::Wrote::wrote_none))]
fn put_sign(num: i64, out: &mut [u8], at: usize) -> usize
    requires { at + length (sign_text num) < 2 ^ 64 }
    ensures { Wrote (sign_text num) at out.old result out.new }
{
    if num < 0 {
        text::put(b"-", out, at)
    } else {
        at
    }
}

#[tactic(auto, unfolding(capture_rules::specs::Doc::Line::bias_text), using(text::specs::Wrote::wrote_then, text::specs::Wrote::room_first, text::specs::Wrote::room_then))]
fn put_fraction(fraction: Fraction, out: &mut [u8], at: usize) -> usize
    requires { at + length (bias_text (some (fraction_of fraction))) < 2 ^ 64 }
    ensures { Wrote (bias_text (some (fraction_of fraction))) at out.old result out.new }
{
    let at = put_sign(fraction.num, out, at);
    let at = text::put_decimal(fraction.num.unsigned_abs() as usize, out, at);
    let at = text::put(b"/", out, at);
    text::put_decimal(fraction.den as usize, out, at)
}

#[tactic(auto, unfolding(capture_rules::specs::Doc::Line::bias_text))]
pub(crate) fn put_bias(bias: Option<Fraction>, out: &mut [u8], at: usize) -> usize
    requires { at + length (bias_text (bias_of bias)) < 2 ^ 64 }
    ensures { Wrote (bias_text (bias_of bias)) at out.old result out.new }
{
    match bias {
        None => text::put(b"none", out, at),
        Some(fraction) => put_fraction(fraction, out, at),
    }
}
