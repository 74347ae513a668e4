// The lines: one a box, and the last.
#![tactic(auto, unfolding(rules::specs::Doc::Listing::front_text, rules::specs::Doc::Listing::line_of, rules::specs::Doc::Listing::line_text, rules::specs::Doc::Listing::last_text), using(text::specs::Wrote::room_first, text::specs::Wrote::room_then))]

ghost use Rattle.std.specs.Prelude.{◌+◌, ◌^◌, ◌≤◌, ◌<◌, length};
ghost use Rattle.rules.specs.Doc.Listing.{line_of, front_text, line_text, last_text};
ghost use Rattle.text.specs.Wrote.{Wrote};
ghost use Rattle.listing.specs.Told.{box_in};

use crate::found::Found;
use text::put_named;

// Where a box is, and its type: the front of its line.
fn put_front(depth: usize, start: usize, kind: u32, out: &mut [u8], at: usize) -> usize
    requires { at + length (front_text depth start kind) < 2 ^ 64 }
    ensures { Wrote (front_text depth start kind) at out.old result out.new }
{
    let at = put_named(b"depth=", depth, out, at);
    let at = put_named(b" at=", start, out, at);
    let at = text::put(b" type=", out, at);
    text::put_hex(8, kind as usize, out, at)
}

// A box, with so many boxes around it.
pub(crate) fn put_line(depth: usize, found: Found, out: &mut [u8], at: usize) -> usize
    requires { at + length (line_text (line_of depth (box_in found))) < 2 ^ 64 }
    ensures { Wrote (line_text (line_of depth (box_in found.entry))) at out.old result out.new }
{
    let at = put_front(depth, found.start, found.child.kind, out, at);
    let at = put_named(b" header=", found.child.from - found.start, out, at);
    let at = put_named(b" body=", found.child.to - found.child.from, out, at);
    text::put(b"\n", out, at)
}

// How the listing ended.
pub(crate) fn put_last(end: usize, answer: usize, out: &mut [u8], at: usize) -> usize
    requires { at + length (last_text end answer) < 2 ^ 64 }
    ensures { Wrote (last_text end answer) at out.old result out.new }
{
    let at = put_named(b"end=", end, out, at);
    let at = put_named(b" answer=", answer, out, at);
    text::put(b"\n", out, at)
}
