// A run of cases on standard input. A case is a byte that names its kind, the image's length and the output's length, four bytes each, big-endian,
// then the image.
#![tactic(auto)]

ghost use Rattle.std.specs.Prelude.{◌≡◌, None, length, replicate, IfOk, OnErr};
ghost use Rattle.case_reader.specs.Within.{Within};
ghost use Rattle.case_reader.specs.Taken.{Taken};

use std::io;
use std::io::{Read, Write};
use streams::read_full;

// What a case says before its image: the kind and the two lengths.
#[derive(Clone, Copy)]
pub struct Case {
    pub kind: u8,
    pub image_len: usize,
    pub out_len: usize,
}

// Ends the run with a line that says why.
fn stop<W: Write>(case: u64, why: &str, out: &mut W) -> io::Result<Option<Case>>
    ensures { IfOk result (λ next. next ≡ None) }
{
    writeln!(out, "case={case} {why}")?;
    Ok(None)
}

// Reads the case of that number, its image to the front of `image`; there is none where the run is over. Its output may have `most` bytes at most.
// A run that is over too soon, because the input ends inside the case or a length is more than is taken, says so by a line on `out`. Where a read
// or that line fails, the error is answered, and the case is not known.
pub fn next_case<R: Read, W: Write>(
    case: u64,
    image: &mut [u8],
    most: usize,
    reader: &mut R,
    out: &mut W,
) -> io::Result<Option<Case>>
    ensures inside { IfOk result (λ next. Within (length image.new) most next) }
    ensures taken { IfOk result (λ next. Taken (R.remaining reader.old) (R.remaining reader.new) image.new next) }
    ensures err { OnErr result (length image.new ≡ length image.old) }
{
    let mut head = [0u8; 9];
    let got = read_full(reader, &mut head)?;
    if got == 0 {
        return Ok(None);
    }
    if got < 9 {
        return stop(case, "cut", out);
    }
    let kind = head[0];
    let image_len = endian::loadu32(&head, 1) as usize;
    let out_len = endian::loadu32(&head, 5) as usize;
    if image.len() < image_len || most < out_len {
        return stop(case, "too long", out);
    }
    if read_full(reader, &mut image[..image_len])? < image_len {
        return stop(case, "cut", out);
    }
    Ok(Some(Case {
        kind,
        image_len,
        out_len,
    }))
}

// What an output holds before it is lent: one byte everywhere, so that what was written and what was left alone can be told apart. The library's
// `fill`, by a name that says what for.
pub fn fill(byte: u8, out: &mut [u8])
    ensures { out.new ≡ replicate (length out.old) byte }
{
    out.fill(byte);
}
