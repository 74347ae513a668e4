// A header, and the one decision over its size.
ghost use Rattle.std.specs.Prelude.{◌≡◌, ℕ, ◌+◌, ◌-◌, ◌^◌, ◌≤◌, ◌<◌};
ghost use Rattle.rules.specs.Doc.Headers.{announced};
ghost use Rattle.boxes.specs.Told.{announces};

use crate::left;

// A header: the type, where the body begins, and its size.
#[derive(Clone, Copy)]
pub struct Header {
    pub kind: u32,
    pub from: usize,
    pub size: u64,
}

// Why a header wasn't read: the bytes end in it, or its size is one that no box has.
#[derive(Clone, Copy)]
pub enum Unread {
    Cut,
    Invalid,
}

impl Header {
    pub const SHORT: usize = 8;

    pub const LONG: usize = 16;

    // The header at `at` of a box of `size` bytes, of which the first `head` are the header.
    fn of(kind: u32, at: usize, head: usize, size: u64) -> Header
        requires head_bound { at + head < 2 ^ 64 }
        requires head_le_size { head ≤ size }
        ensures { result ≡ record { kind = kind; from = at + head; size = size - head } }
    {
        Header {
            kind,
            from: at + head,
            size: size - head as u64,
        }
    }

    // `read_box_header` of the Rust, and the front of its `child_box`: the levels differ in what they say of a cut header.
    // One place makes the answer of a header that was read: so the whole is short enough to be folded into each loop over boxes.
    #[tactic(auto, using(rules::specs::Laws::Decision::cut_short, rules::specs::Laws::Decision::cut_long, rules::specs::Laws::Decision::large_small, rules::specs::Laws::Decision::small))]
    pub fn read(s: &[u8], at: usize) -> Result<Header, Unread>
        ensures { (cut : ℕ) → announces cut at result ≡ announced cut s.now at }
    {
        let left = left(s, at);
        if left < Header::SHORT {
            return Err(Unread::Cut);
        }
        let kind = endian::loadu32(s, at + 4);
        let mut head = Header::SHORT;
        let size = match endian::loadu32(s, at) {
            0 => left as u64,
            1 => {
                if left < Header::LONG {
                    return Err(Unread::Cut);
                }
                let size = endian::loadu64(s, at + Header::SHORT);
                if size < Header::LONG as u64 {
                    return Err(Unread::Invalid);
                }
                head = Header::LONG;
                size
            }
            2..=7 => return Err(Unread::Invalid),
            size => u64::from(size),
        };
        Ok(Header::of(kind, at, head, size))
    }
}
