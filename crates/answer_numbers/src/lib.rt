// The two numbers that every line about an answer begins with, `answer=N length=L`, as text at the front of a lent buffer, as far as there is room.
// The place behind the last byte is the answer.
#![tactic(auto)]

ghost use Rattle.std.specs.Prelude.{ℕ, List};
ghost use Rattle.output.specs.Told.{told};
ghost use Rattle.output.specs.Copied.{Copied};
ghost use Rattle.answer_numbers.specs.Numbers.{numbers_text};

use output::Extracted;
use text::put_named;

// The place behind a text that was cut is the end of the buffer.
#[tactic(auto, using(rules::specs::Laws::Text::twenty_digits))]
fn put_numbers(number: usize, length: usize, line: &mut [u8]) -> usize
    ensures { Copied (numbers_text number length) 0 line.old result line.new }
{
    let at = put_named(b"answer=", number, line, 0);
    put_named(b" length=", length, line, at).min(line.len())
}

// Only 0 and 28 carry a length.
pub fn put_answer(answer: Extracted, line: &mut [u8]) -> usize
    ensures { (out : List ℕ) → Copied (numbers_text (told answer out).number (told answer out).length) 0 line.old result line.new }
{
    let (number, length) = output::numbers(answer);
    put_numbers(usize::from(number), length, line)
}
