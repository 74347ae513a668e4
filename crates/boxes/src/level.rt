// A box at each of the two levels.
ghost use Rattle.std.specs.Prelude.{◌≡◌, ℕ, length};
ghost use Rattle.rules.specs.Doc.Headers.{whole, standing, file_box_at};
ghost use Rattle.boxes.specs.Told.{announces, child, file_box};

use crate::header::{Header, Unread};
use crate::refusal::Refusal;

// A box inside another: its type and where its body is.
#[derive(Clone, Copy)]
pub struct Child {
    pub kind: u32,
    pub from: usize,
    pub to: usize,
}

// What is said of a header inside a box, whose bytes are `s`: the rest of the Rust's `child_box`.
// With `Header::read` inside it would be too long to be folded into the loops over child boxes, so a loop calls the two.
#[tactic(auto, using(rules::specs::Laws::Decision::child_cut, rules::specs::Laws::Decision::child_whole))]
pub fn child_box(s: &[u8], header: Result<Header, Unread>) -> Result<Child, Refusal>
    ensures { (at : ℕ) → child at result ≡ standing (whole 3 (length s.now)) (announces 3 at header) }
{
    match header {
        Err(Unread::Cut) => Err(Refusal::BoxTooSmall),
        Err(Unread::Invalid) => Err(Refusal::InvalidBoxSize),
        Ok(Header { kind, from, size }) => {
            if s.len() < from || size > (s.len() - from) as u64 {
                return Err(Refusal::BoxTooSmall);
            }
            Ok(Child {
                kind,
                from,
                to: from + size as usize,
            })
        }
    }
}

// The types that are opened at the top level; every other is skipped.
pub const FTYP: u32 = 0x66747970;

pub const META: u32 = 0x6d657461;

// The table of items: extraction reads it as a child of `meta`, the listing opens it wherever it stands.
pub const IINF: u32 = 0x69696e66;

// A body of this size or more is too large to skip.
const LARGE: u64 = 0x8000_0000_0000_0000;

// A box of a file, whose body may run past the end: so its header is all that is said of it.
// `read_box_header` of the Rust, with the test of `skip_file_level_box`.
#[tactic(auto, unfolding(rules::specs::Doc::Headers::file_box_at, rules::specs::Doc::Headers::box_at), using(rules::specs::Laws::Decision::file_opened, rules::specs::Laws::Decision::file_skipped, rules::specs::Laws::Decision::file_large))]
pub fn file_box(s: &[u8], at: usize) -> Result<Header, Refusal>
    ensures { file_box at result ≡ file_box_at s.now at }
{
    match Header::read(s, at) {
        Err(Unread::Cut) => Err(Refusal::ImageEnds),
        Err(Unread::Invalid) => Err(Refusal::InvalidBoxSize),
        Ok(header) => match header.kind {
            FTYP | META => Ok(header),
            _ => {
                if header.size < LARGE {
                    Ok(header)
                } else {
                    Err(Refusal::LargeSeek)
                }
            }
        },
    }
}
