// Asks the proved functions a run of cases, one behind the other, and prints what each answers: stored runs, comparisons with other readers and
// anyone's own files all go this way. docs/MAP.md, "Runs of cases", has the form of a case, the kinds and their lines.
#![tactic(auto)]

use listing::LONGEST_TEXT;
use output::Extracted;
use std::io;
use std::io::{Read, Write};

const MOST_IMAGE: usize = 1048576;

// 458,773 bytes, which other people's runs ask for: room for the longest listing and two more.
const MOST_OUT: usize = LONGEST_TEXT + 2;

// Two digits for each byte of the output, and the words around them.
const MOST_LINE: usize = 2 * MOST_OUT + 64;

// What an output holds everywhere before the call, so that the line shows what was written and what was left alone; in a listing it is a letter.
const BEFORE: u8 = 0xa5;

const BEFORE_TEXT: u8 = b'.';

// Which block an image holds, if it is of the kind: the line has the kind's word.
fn show_block<E: FnOnce(&[u8], &mut [u8]) -> Extracted, W: Write>(
    extract: E,
    word: &[u8],
    holds: bool,
    image: &[u8],
    out: &mut [u8],
    line: &mut [u8],
    writer: &mut W,
) -> io::Result<()>
    requires { E.IsAlwaysCallable extract }
{
    case_reader::fill(BEFORE, out);
    let answered = extract(image, out);
    answer_line::print_line(answered, word, holds, out, line, writer)
}

fn show_listing<W: Write>(
    case: u64,
    image: &[u8],
    out: &mut [u8],
    writer: &mut W,
) -> io::Result<()> {
    case_reader::fill(BEFORE_TEXT, out);
    let length = listing::list_boxes(image, out);
    writeln!(writer, "case={case} length={length}")?;
    writer.write_all(out)?;
    writeln!(writer)
}

// A match and no table of functions: a listing and a photograph's line ask for other arguments than a block.
fn show<W: Write>(
    case: u64,
    kind: u8,
    image: &[u8],
    out: &mut [u8],
    line: &mut [u8],
    writer: &mut W,
) -> io::Result<()> {
    match kind {
        b'h' => show_block(
            isobmff::get_exif_attr,
            b" heif=",
            brands::is_heif(image),
            image,
            out,
            line,
            writer,
        ),
        b'j' => show_block(
            jpeg::get_exif_attr,
            b" jpeg=",
            jpeg::is_jpeg(image),
            image,
            out,
            line,
            writer,
        ),
        b'l' => show_listing(case, image, out, writer),
        b't' => capture_line::print_line(image, out, writer),
        _ => writeln!(writer, "case={case} unknown"),
    }
}

// Reads one case and shows it, and says whether to go on: the run ends where standard output takes no more.
fn one<R: Read, W: Write>(
    case: u64,
    image: &mut [u8],
    out: &mut [u8],
    line: &mut [u8],
    reader: &mut R,
    writer: &mut W,
) -> io::Result<bool> {
    let Some(next) = case_reader::next_case(case, image, out.len(), reader, writer)? else {
        return Ok(false);
    };
    let shown = show(
        case,
        next.kind,
        &image[..next.image_len],
        &mut out[..next.out_len],
        line,
        writer,
    );
    Ok(shown.is_ok())
}

// A proved loop has to end, and nothing says that standard input does. So the loop counts the cases, up to a number that no run reaches.
fn run<R: Read, W: Write>(
    image: &mut [u8; MOST_IMAGE],
    out: &mut [u8; MOST_OUT],
    line: &mut [u8; MOST_LINE],
    reader: &mut R,
    writer: &mut W,
) -> io::Result<()> {
    for case in 1..u64::MAX {
        if !one(case, image, out, line, reader, writer)? {
            break;
        }
    }
    Ok(())
}

fn main(rt: HostRuntime) -> io::Result<()> {
    let mut image = [0u8; MOST_IMAGE];
    let mut out = [0u8; MOST_OUT];
    let mut line = [0u8; MOST_LINE];
    run(
        &mut image,
        &mut out,
        &mut line,
        &mut rt.stdin(),
        &mut rt.stdout(),
    )
}
