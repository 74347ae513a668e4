// The fields of a box, at a position.
ghost use Rattle.std.specs.Prelude.{◌≡◌, ◌≤◌};
ghost use Rattle.rules.specs.Doc.Bytes.{field, sized, version};
ghost use Rattle.boxes.specs.Told.{number, field_of};

use crate::refusal::Refusal;

// A field of `n` bytes: one function for every width.
#[tactic(auto, using(rules::specs::Laws::Numbers::field_in, rules::specs::Laws::Numbers::field_out))]
fn uint(s: &[u8], at: usize, n: usize) -> Result<u64, Refusal>
    requires { n ≤ 8 }
    ensures { field_of result ≡ field s.now at n }
{
    if s.len() < at || s.len() - at < n {
        return Err(Refusal::BoxTooSmall);
    }
    Ok(endian::load_big(s, at, n))
}

pub fn uint16(s: &[u8], at: usize) -> Result<u64, Refusal>
    ensures { field_of result ≡ field s.now at 2 }
{
    uint(s, at, 2)
}

pub fn uint32(s: &[u8], at: usize) -> Result<u64, Refusal>
    ensures { field_of result ≡ field s.now at 4 }
{
    uint(s, at, 4)
}

pub fn uint64(s: &[u8], at: usize) -> Result<u64, Refusal>
    ensures { field_of result ≡ field s.now at 8 }
{
    uint(s, at, 8)
}

// A number of 0, 4 or 8 bytes; another size is refused as the caller says. No bytes make 0, but not past the end.
#[tactic(auto, unfolding(rules::specs::Doc::Bytes::sized), using(rules::specs::Laws::Numbers::sized_out))]
pub fn size048(s: &[u8], at: usize, size: usize, other: Refusal) -> Result<u64, Refusal>
    ensures { field_of result ≡ sized s.now at size (number other) }
{
    match size {
        0 => uint(s, at, 0),
        4 => uint32(s, at),
        8 => uint64(s, at),
        _ => Err(other),
    }
}

// The version, the top byte of four. Nothing in the core reads the flags, the other three.
#[tactic(auto, unfolding(rules::specs::Doc::Bytes::version))]
pub fn fullbox_header(s: &[u8], at: usize) -> Result<u64, Refusal>
    ensures { field_of result ≡ version s.now at }
{
    let head = uint32(s, at)?;
    Ok(head / 0x1000000)
}
