// The line that says what was read of a photograph, as text in a lent buffer.
#![tactic(auto)]

mod bias;
mod time;

ghost use Rattle.std.specs.Prelude.{◌≡◌, ◌++◌, ◌≤◌, length, drop, OnOk};
ghost use Rattle.std.specs.Io.KnownBytes.{Appends};
ghost use Rattle.rules.specs.Doc.Outcomes.{fine, refused};
ghost use Rattle.jpeg_rules.specs.Doc.Either.{either_answer};
ghost use Rattle.rules.specs.Doc.Listing.{printed};
ghost use Rattle.capture_rules.specs.Doc.Capture.{photo};
ghost use Rattle.capture_rules.specs.Doc.Line.{line_text};
ghost use Rattle.text.specs.Wrote.{Wrote};
ghost use Rattle.capture.specs.Told.{capture_of, photo_of};
ghost use Rattle.capture_line.specs.Printable.{PrintableLine};

use bias::put_bias;
use capture::{Capture, NotRead};
use std::io;
use std::io::Write;
use streams::write_all;
use time::put_time;

// No line is longer (`line_limit` in capture_rules, Demands/Photo).
pub const LONGEST_LINE: usize = 62;

// From 0 on: every line stands at the front of the buffer.
#[tactic(auto, using(capture_rules::specs::Laws::LineText::time_length))]
fn put_capture(capture: Capture, out: &mut [u8]) -> usize
    requires { PrintableLine (fine (capture_of capture)) }
    ensures { Wrote (line_text (fine (capture_of capture))) 0 out.old result out.new }
{
    let at = text::put(b"answer=0 date=", out, 0);
    let at = put_time(capture.time, out, at);
    let at = text::put(b" bias=", out, at);
    let at = put_bias(capture.bias, out, at);
    text::put(b"\n", out, at)
}

#[tactic(auto, using(rules::specs::Laws::Text::five_digits))]
fn put_refusal(number: u8, out: &mut [u8]) -> usize
    ensures { Wrote (line_text (refused number)) 0 out.old result out.new }
{
    let at = text::put(b"answer=", out, 0);
    let at = text::put_decimal(usize::from(number), out, at);
    text::put(b"\n", out, at)
}

fn put_photo(photo: Result<Capture, NotRead>, out: &mut [u8]) -> usize
    requires { PrintableLine (photo_of photo) }
    ensures { Wrote (line_text (photo_of photo)) 0 out.old result out.new }
{
    match photo {
        Ok(capture) => put_capture(capture, out),
        Err(e) => put_refusal(e.number(), out),
    }
}

// Extracts the block of `image` into `block`, reads it there, and puts the line at the front of `out`, as much of it as there is room for. The answer
// is the length of all of it.
#[tactic(auto, using(crate::specs::Printable::photo_printable))]
pub fn photo_line(image: &[u8], block: &mut [u8], out: &mut [u8]) -> usize
    ensures value { result ≡ length (line_text (photo image.now block.old)) }
    ensures out_after { out.new ≡ printed (line_text (photo image.now block.old)) out.old }
    ensures block_after { block.new ≡ (either_answer image.now block.old).output }
{
    put_photo(capture::from_image(image, block), out)
}

// The same with a buffer that is long enough for every line: nothing is ever cut.
pub fn photo_line_whole(image: &[u8], block: &mut [u8], out: &mut [u8; LONGEST_LINE]) -> usize
    ensures value { (result ≡ length (line_text (photo image.now block.old))) × (result ≤ 62) }
    ensures out_after { out.new ≡ line_text (photo image.now block.old) ++ drop result out.old }
    ensures block_after { block.new ≡ (either_answer image.now block.old).output }
{
    photo_line(image, block, out)
}

// The line to a writer.
pub fn print_line<W: Write>(image: &[u8], block: &mut [u8], writer: &mut W) -> io::Result<()>
    ensures block_after { block.new ≡ (either_answer image.now block.old).output }
    ensures written { OnOk result (Appends (W.contents writer.old) (W.contents writer.new) (line_text (photo image.now block.old))) }
{
    let mut line = [0u8; LONGEST_LINE];
    let n = photo_line_whole(image, block, &mut line);
    write_all(&line[..n], writer)
}
