// The head of `iloc`, with the widths that its version and its two size bytes give.
ghost use Rattle.std.specs.Prelude.{◌≡◌, ◌≤◌, ◌<◌};
ghost use Rattle.rules.specs.Doc.Bytes.{field};
ghost use Rattle.rules.specs.Doc.Iloc.{id_size, sizes_of, table_of};
ghost use Rattle.boxes.specs.Told.{field_of};
ghost use Rattle.locations.specs.Told.{head_of};
ghost use Rattle.locations.specs.Reads.{table_from};

use crate::sizes::Sizes;
use boxes::Refusal;

// How the entries are read, how many there are, and where the first one is.
#[derive(Clone, Copy)]
pub(crate) struct Table {
    pub version: u64,
    pub sizes: Sizes,
    pub base_offset_size: usize,
    pub item_count: u64,
    pub items_at: usize,
}

// The bytes of an id, and of the count of entries.
#[tactic(auto, unfolding(rules::specs::Doc::Iloc::id_size))]
pub(crate) fn id_size(version: u64) -> usize
    ensures { (result ≡ id_size version) × (result ≤ 4) }
{
    match version {
        2 => 4,
        _ => 2,
    }
}

// An id, or the count of entries. `boxes` has a function for each width, so the version is asked here too.
#[tactic(auto, unfolding(rules::specs::Doc::Iloc::id_size))]
pub(crate) fn parse_id(body: &[u8], at: usize, version: u64) -> Result<u64, Refusal>
    ensures { field_of result ≡ field body.now at (id_size version) }
{
    match version {
        2 => boxes::uint32(body, at),
        _ => boxes::uint16(body, at),
    }
}

// The last of the four half-bytes; version 0 has no index.
#[tactic(auto, unfolding(rules::specs::Doc::Iloc::sizes_of))]
fn index_size(version: u64, halves: u16) -> usize
    ensures { (result ≡ (sizes_of version halves).index) × (result < 16) }
{
    match version {
        0 => 0,
        _ => usize::from(halves % 16),
    }
}

// The count of entries ends the head.
#[tactic(auto, unfolding(crate::specs::Reads::table_from, rules::specs::Doc::Iloc::base_size_of, rules::specs::Doc::Iloc::sizes_of))]
fn parse_count(body: &[u8], version: u64, halves: u16) -> Result<Table, Refusal>
    ensures { head_of result ≡ table_from body.now version halves }
{
    let item_count = parse_id(body, 6, version)?;
    Ok(Table {
        version,
        sizes: Sizes {
            index: index_size(version, halves),
            offset: usize::from(halves / 4096),
            length: usize::from(halves / 256 % 16),
        },
        base_offset_size: usize::from(halves / 16 % 16),
        item_count,
        items_at: 6 + id_size(version),
    })
}

// The half-bytes are read before the version is judged.
#[tactic(auto, unfolding(rules::specs::Doc::Iloc::table_of, crate::specs::Reads::table_from), using(crate::specs::Reads::halves_fit))]
pub(crate) fn parse_head(body: &[u8]) -> Result<Table, Refusal>
    ensures { head_of result ≡ table_of body.now }
{
    let version = boxes::fullbox_header(body, 0)?;
    let halves = boxes::uint16(body, 4)? as u16;
    match version {
        0..=2 => parse_count(body, version, halves),
        _ => Err(Refusal::IlocVersion),
    }
}
