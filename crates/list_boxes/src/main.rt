// Lists the boxes of the image on standard input: the library's text, as it is.
#![tactic(auto)]

use listing::{LONGEST, LONGEST_TEXT};
use std::io;
use std::io::Write;
use streams::read_full;

// One byte more than is listed: so a longer image is seen to be longer, and need not be read on.
const MOST_IMAGE: usize = LONGEST + 1;

fn main(rt: HostRuntime) -> io::Result<()> {
    let mut image = [0u8; MOST_IMAGE];
    let mut text = [0u8; LONGEST_TEXT];
    let n = read_full(&mut rt.stdin(), &mut image)?;
    let k = listing::list_all(&image[..n], &mut text);
    rt.stdout().write_all(&text[..k])
}
