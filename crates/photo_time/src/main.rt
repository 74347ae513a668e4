// Says when the picture on standard input was taken, and its exposure bias: one line.
#![tactic(auto)]

use std::fmt::InlineText;
use std::io;
use std::io::{Read, Write};
use streams::read_full;

// The longest image that is read.
const LONGEST: usize = 6291456;

// One byte more: so a longer image is seen to be longer, and need not be read on.
const MOST_IMAGE: usize = LONGEST + 1;

// Longer than the only message.
const LONGEST_MESSAGE: usize = 64;

// No block is longer, so extraction always has room.
const MOST_BLOCK: usize = 65531;

// The arrays live on the stack of `main`, once.
fn run<R: Read, W: Write, E: Write>(
    image: &mut [u8; MOST_IMAGE],
    block: &mut [u8; MOST_BLOCK],
    reader: &mut R,
    writer: &mut W,
    errors: &mut E,
) -> io::Result<()> {
    let n = read_full(reader, image)?;
    if LONGEST < n {
        // In one write: so the line of another program that writes there too can't come in between.
        let line = InlineText::<LONGEST_MESSAGE>::of(format_args!(
            "photo_time: the image is longer than {LONGEST} bytes\n"
        ));
        return errors.write_all(line.as_str().as_bytes());
    }
    // What standard output doesn't take is lost.
    let _ = capture_line::print_line(&image[..n], block, writer);
    Ok(())
}

fn main(rt: HostRuntime) -> io::Result<()> {
    let mut image = [0u8; MOST_IMAGE];
    let mut block = [0u8; MOST_BLOCK];
    run(
        &mut image,
        &mut block,
        &mut rt.stdin(),
        &mut rt.stdout(),
        &mut rt.stderr(),
    )
}
