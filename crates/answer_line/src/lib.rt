// The line that says what extraction answered for a case, as text in a lent buffer. Each function puts its text from a position on, as much as there
// is room for, and answers the place behind the last byte.
#![tactic(auto)]

ghost use Rattle.std.specs.Prelude.{◌≡◌, ◌<◌, [], ◌∷◌, OnOk, length, take};
ghost use Rattle.std.specs.Io.KnownBytes.{Appends};
ghost use Rattle.rules.specs.Doc.Text.{digit, hex};
ghost use Rattle.rules.specs.Doc.Listing.{printed};
ghost use Rattle.output.specs.Told.{told};
ghost use Rattle.output.specs.Copied.{Copied};
ghost use Rattle.answer_line.specs.Line.{out_text, kind_text, answer_text};

use output::{Extracted, put};
use std::io;
use std::io::Write;
use streams::write_all;
use text::digit;

// One digit. Most of a line are digits of the output: a copy of two by `put` would take each byte of it twice as long.
#[tactic(auto, using(output::specs::Copied::copied_full, crate::specs::Parts::copied_byte))]
fn put_digit(d: usize, line: &mut [u8], at: usize) -> usize
    requires { d < 16 }
    ensures { Copied (digit d ∷ []) at line.old result line.new }
{
    if line.len() <= at {
        return at;
    }
    line[at] = digit(d);
    at + 1
}

fn put_pair(b: u8, line: &mut [u8], at: usize) -> usize
    ensures { Copied (hex 2 b) at line.old result line.new }
{
    let at = put_digit(usize::from(b / 16), line, at);
    put_digit(usize::from(b % 16), line, at)
}

// Two digits a byte, and `-` where there is none.
fn put_out(out: &[u8], line: &mut [u8], at: usize) -> usize
    ensures { Copied (out_text out.now) at line.old result line.new }
{
    if out.is_empty() {
        return put(b"-", 0, line, at);
    }
    let mut end = at;
    for b in out {
        end = put_pair(*b, line, end);
    }
    end
}

fn put_kind(word: &[u8], holds: bool, line: &mut [u8], at: usize) -> usize
    ensures { Copied (kind_text word.now holds) at line.old result line.new }
{
    let at = put(word, 0, line, at);
    let said = if holds { b"1 out=" } else { b"0 out=" };
    put(said, 0, line, at)
}

fn of_answer(answer: Extracted, word: &[u8], holds: bool, out: &[u8], line: &mut [u8]) -> usize
    ensures { Copied (answer_text (told answer out.now) word.now holds) 0 line.old result line.new }
{
    let at = answer_numbers::put_answer(answer, line);
    let at = put_kind(word, holds, line, at);
    let at = put_out(out, line, at);
    put(b"\n", 0, line, at)
}

// The line to a writer, made in `line`.
#[tactic(auto, using(crate::specs::Parts::copied_front))]
pub fn print_line<W: Write>(
    answer: Extracted,
    word: &[u8],
    holds: bool,
    out: &[u8],
    line: &mut [u8],
    writer: &mut W,
) -> io::Result<()>
    ensures line_after { line.new ≡ printed (answer_text (told answer out.now) word.now holds) line.old }
    ensures written { OnOk result (Appends (W.contents writer.old) (W.contents writer.new)
        (take (length line.old) (answer_text (told answer out.now) word.now holds))) }
{
    let n = of_answer(answer, word, holds, out, line);
    write_all(&line[..n], writer)
}
