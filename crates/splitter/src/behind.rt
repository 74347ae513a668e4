// What is gone of a box that is refused.
ghost use Rattle.std.specs.Prelude.{◌≡◌, ◌≤◌, length};
ghost use Rattle.splitter.specs.Behind.{header_read};

use boxes::Header;

// How far the Rust gets with a header before it refuses the box: it reads the size, the type and, where there is one, the eight-byte size.
#[tactic(auto, unfolding(crate::specs::Behind::header_read, crate::specs::Behind::read_of))]
pub(crate) fn header_read(s: &[u8]) -> usize
    ensures value { result ≡ header_read s.now 0 }
    ensures inside { result ≤ length s.now }
{
    match s.len() {
        0..4 => 0,
        4..Header::SHORT => 4,
        Header::LONG.. if endian::loadu32(s, 0) == 1 => Header::LONG,
        _ => Header::SHORT,
    }
}
