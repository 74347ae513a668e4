// The line that the intake writes for a file, HEIF or JPEG, as text in a lent buffer.
#![tactic(auto)]

ghost use Rattle.std.specs.Prelude.{◌≡◌, List, ◌++◌, ℕ, ◌≤◌, length, drop, OnOk};
ghost use Rattle.std.specs.Io.KnownBytes.{Appends};
ghost use Rattle.jpeg_rules.specs.Doc.Either.{either_answer};
ghost use Rattle.sheet_rules.specs.Doc.Lines.{line_text};
ghost use Rattle.output.specs.Told.{told};
ghost use Rattle.output.specs.Copied.{Copied};
ghost use Rattle.intake_line.specs.Line.{intake_text};
ghost use Rattle.intake_line.specs.Told.{told_entry};

use output::Extracted;
use std::io;
use std::io::Write;
use streams::write_all;

// No block is longer (`either_limit` in jpeg_rules, Demands/One), so extraction always has room.
pub const LONGEST_BLOCK: usize = 65531;

// No line is longer (`line_limit` in sheet_rules, Laws/Shape).
pub const LONGEST_LINE: usize = 23;

fn put_line(answer: Extracted, line: &mut [u8]) -> usize
    ensures { (out : List ℕ) → Copied (line_text (told_entry (told answer out))) 0 line.old result line.new }
{
    let at = answer_numbers::put_answer(answer, line);
    output::put(b"\n", 0, line, at)
}

// Over slices of any length: a block may have no room here, and a line be cut.
fn told_line(image: &[u8], block: &mut [u8], line: &mut [u8]) -> usize
    ensures copied { Copied (line_text (told_entry (either_answer image.now block.old))) 0 line.old result line.new }
    ensures block_after { block.new ≡ (either_answer image.now block.old).output }
{
    put_line(reader::get_exif_attr(image, block), line)
}

// Extracts the block of `image` to the front of `block`, and puts the line at the front of `line`. The answer is the line's length.
pub fn file_line(
    image: &[u8],
    block: &mut [u8; LONGEST_BLOCK],
    line: &mut [u8; LONGEST_LINE],
) -> usize
    ensures value { (result ≡ length (intake_text image.now)) × (result ≤ 23) }
    ensures line_after { line.new ≡ intake_text image.now ++ drop result line.old }
    ensures block_after { block.new ≡ (either_answer image.now block.old).output }
{
    told_line(image, block, line)
}

// The line to a writer.
pub fn print_line<W: Write>(
    image: &[u8],
    block: &mut [u8; LONGEST_BLOCK],
    writer: &mut W,
) -> io::Result<()>
    ensures block_after { block.new ≡ (either_answer image.now block.old).output }
    ensures written { OnOk result (Appends (W.contents writer.old) (W.contents writer.new) (intake_text image.now)) }
{
    let mut line = [0u8; LONGEST_LINE];
    let n = file_line(image, block, &mut line);
    write_all(&line[..n], writer)
}
