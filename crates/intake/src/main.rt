// Prints a line for each file that its arguments name, HEIF or JPEG: what extraction answers for it, in the shape that the morning sheet reads. Of a
// file that can't be read, or is too long, it says so on standard error, and goes on with the next.
#![tactic(auto)]

ghost use Rattle.std.specs.Prelude.{length};
ghost use Rattle.intake.specs.Within.{Within};

use intake_line::LONGEST_BLOCK;
use std::env::{Env, FillError};
use std::fmt::InlineText;
use std::fs::Files;
use std::io::{Read, Write};
use std::{fs, io, str};
use streams::read_full;

// The longest image that is read.
const LONGEST: usize = 6291456;

// One byte more: so a longer image is seen to be longer, and need not be read on.
const MOST_IMAGE: usize = LONGEST + 1;

// No name of a file is longer, the byte behind it counted.
const PATH_MAX: usize = 4096;

// The system's number for a name that is longer.
const ENAMETOOLONG: i32 = 36;

// Longer than what the system says of any error.
const LONGEST_REASON: usize = 256;

fn say_longer<E: Write>(name: &[u8], errors: &mut E) -> io::Result<()> {
    errors.write_all(name)?;
    writeln!(errors, ": longer than {LONGEST} bytes")
}

// Says why a file was not read, in the system's words alone: `Display` puts their number behind them, ` (os error 2)`.
fn say_failed<E: Write>(name: &[u8], error: io::Error, errors: &mut E) -> io::Result<()> {
    let text = InlineText::<LONGEST_REASON>::of(error);
    let text = text.as_str();
    let reason = match text.split_once(" (") {
        Some((words, _)) => words,
        None => text,
    };
    errors.write_all(name)?;
    writeln!(errors, ": {reason}")
}

// Reads to the end of the file, which has to come before the end of the buffer, and answers how many bytes it has. Why a file is not read is said; what
// standard error doesn't take, here and below, is lost.
fn read_image<F: Read, E: Write>(
    file: &mut F,
    name: &[u8],
    image: &mut [u8],
    errors: &mut E,
) -> Option<usize>
    ensures { Within (length image.new) result }
{
    match read_full(file, image) {
        Ok(n) => {
            if n < image.len() {
                return Some(n);
            }
            let _ = say_longer(name, errors);
        }
        Err(e) => {
            let _ = say_failed(name, e, errors);
        }
    }
    None
}

// A file's name is text in std: one that isn't can't be opened.
fn open_file<S: Files>(name: &[u8], system: &S) -> io::Result<S::File> {
    match str::from_utf8(name) {
        Ok(path) => fs::open(system, path),
        Err(_) => Err(io::Error::new(io::ErrorKind::InvalidFilename, "the name is not UTF-8")),
    }
}

// The answer, here and below, is whether to go on: whether standard output took the line, if there was one.
fn take_file<S: Files, W: Write, E: Write>(
    name: &[u8],
    image: &mut [u8],
    block: &mut [u8; LONGEST_BLOCK],
    system: &S,
    writer: &mut W,
    errors: &mut E,
) -> bool {
    let read = match open_file(name, system) {
        Ok(mut file) => read_image(&mut file, name, image, errors),
        Err(e) => {
            let _ = say_failed(name, e, errors);
            return true;
        }
    };
    let Some(n) = read else {
        return true;
    };
    intake_line::print_line(&image[..n], block, writer).is_ok()
}

// Behind the last argument there is nothing to go on with.
fn take_argument<S: Files + Env, W: Write, E: Write>(
    i: usize,
    name: &mut [u8],
    image: &mut [u8],
    block: &mut [u8; LONGEST_BLOCK],
    system: &S,
    writer: &mut W,
    errors: &mut E,
) -> bool {
    match system.arg(i, name) {
        Ok(n) => take_file(&name[..n], image, block, system, writer, errors),
        Err(FillError::TooLong) => {
            // It is longer than the buffer, which holds the front of it.
            let _ = say_failed(name, io::Error::from_raw_os_error(ENAMETOOLONG), errors);
            true
        }
        Err(FillError::NotPresent) => false,
    }
}

fn run<S: Files + Env, W: Write, E: Write>(
    name: &mut [u8; PATH_MAX],
    image: &mut [u8; MOST_IMAGE],
    block: &mut [u8; LONGEST_BLOCK],
    system: &S,
    writer: &mut W,
    errors: &mut E,
) {
    for i in 1..usize::MAX {
        if !take_argument(i, name, image, block, system, writer, errors) {
            break;
        }
    }
}

fn main(rt: HostRuntime) {
    let mut name = [0u8; PATH_MAX];
    let mut image = [0u8; MOST_IMAGE];
    let mut block = [0u8; LONGEST_BLOCK];
    run(
        &mut name,
        &mut image,
        &mut block,
        &rt,
        &mut rt.stdout(),
        &mut rt.stderr(),
    );
}
