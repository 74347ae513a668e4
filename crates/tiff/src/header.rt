// The header of a block: its byte order, 42, and where its first directory is.
ghost use Rattle.std.specs.Prelude.{◌≡◌, ◌≤◌, length};
ghost use Rattle.endian.specs.Told.{endian_of};
ghost use Rattle.capture_rules.specs.Doc.Header.{header};
ghost use Rattle.tiff.specs.Told.{header_of};
ghost use Rattle.tiff.specs.Headers.{header_in};

use crate::fault::Fault;
use endian::Endian;

#[derive(Clone, Copy)]
pub struct Header {
    pub order: Endian,
    pub first: usize,
}

impl Header {
    const SIZE: usize = 8;

    const II: u16 = 0x4949;

    const MM: u16 = 0x4d4d;
}

// The rest of a header, once its order is known.
#[tactic(auto, unfolding(crate::specs::Headers::header_in))]
fn read_in(order: Endian, block: &[u8]) -> Result<Header, Fault>
    requires { 8 ≤ length block.now }
    ensures { header_of result ≡ header_in (endian_of order) block.now }
{
    if order.loadu16(block, 2) != 42 {
        return Err(Fault::Header);
    }
    let first = order.loadu32(block, 4) as usize;
    Ok(Header { order, first })
}

// The two letters are the same, so either byte order reads them alike.
#[tactic(auto, using(crate::specs::Headers::header_short, crate::specs::Headers::header_little, crate::specs::Headers::header_big, crate::specs::Headers::header_other))]
pub fn read_header(block: &[u8]) -> Result<Header, Fault>
    ensures { header_of result ≡ header block.now }
{
    if block.len() < Header::SIZE {
        return Err(Fault::Header);
    }
    match endian::loadu16(block, 0) {
        Header::II => read_in(Endian::Little, block),
        Header::MM => read_in(Endian::Big, block),
        _ => Err(Fault::Header),
    }
}
