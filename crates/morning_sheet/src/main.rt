// The sum of the intake's lines on standard input: the library's text, as it is.
#![tactic(auto)]

use sheet::{LONGEST_SHEET, MOST_INPUT};
use std::io;
use std::io::{Read, Write};
use streams::read_full;

// The arrays live on the stack of `main`, once. What doesn't fit into `input` is not read: the sheet is that of all of it.
fn run<R: Read, W: Write>(
    input: &mut [u8; MOST_INPUT],
    text: &mut [u8; LONGEST_SHEET],
    reader: &mut R,
    writer: &mut W,
) -> io::Result<()> {
    let n = read_full(reader, input)?;
    let k = sheet::write_front_sheet(input, n, text);
    writer.write_all(&text[..k])
}

fn main(rt: HostRuntime) -> io::Result<()> {
    let mut input = [0u8; MOST_INPUT];
    let mut text = [0u8; LONGEST_SHEET];
    run(&mut input, &mut text, &mut rt.stdin(), &mut rt.stdout())
}
