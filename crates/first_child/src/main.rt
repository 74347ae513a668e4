// The first child of an image's bytes and of parts of them, and how many children there are: what the splitter's `children` says, for file H.
#![tactic(auto)]

use boxes::Child;
use splitter::Counted;
use std::io;
use std::io::{Read, Write};
use streams::read_full;

const MOST_IMAGE: usize = 4096;

fn show<W: Write>(name: &str, bytes: &[u8], writer: &mut W) -> io::Result<()> {
    write!(writer, "{name}")?;
    let Counted { first, count } = splitter::children(bytes);
    match first {
        Ok(Child { kind, from, to }) => write!(writer, " type={kind:08x} from={from} to={to}")?,
        Err(e) => write!(writer, " answer={}", e.number())?,
    }
    writeln!(writer, " children={count}")
}

// The bytes from `from` to `to`, where the image has them.
fn show_part<W: Write>(
    name: &str,
    image: &[u8],
    from: usize,
    to: usize,
    writer: &mut W,
) -> io::Result<()> {
    match image.get(from..to) {
        Some(part) => show(name, part, writer),
        None => Ok(()),
    }
}

fn run<R: Read, W: Write>(image: &mut [u8], reader: &mut R, writer: &mut W) -> io::Result<()> {
    let n = read_full(reader, image)?;
    let h = &image[..n];
    show("H:", h, writer)?;
    show_part("in meta:", h, 32, 116, writer)?;
    show_part("in iinf:", h, 46, 67, writer)?;
    show_part("in ftyp:", h, 8, 20, writer)?;
    show_part("H without its last byte:", h, 0, 115, writer)?;
    show_part("no bytes:", h, 0, 0, writer)
}

fn main(rt: HostRuntime) -> io::Result<()> {
    let mut image = [0u8; MOST_IMAGE];
    run(&mut image, &mut rt.stdin(), &mut rt.stdout())
}
