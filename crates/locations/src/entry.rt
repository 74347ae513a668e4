// An entry of `iloc`.
ghost use Rattle.std.specs.Prelude.{◌≡◌, ◌≤◌, length};
ghost use Rattle.rules.specs.Doc.Bytes.{field};
ghost use Rattle.rules.specs.Doc.Iloc.{method_size, in_file, entry_at, entry_next};
ghost use Rattle.rules.specs.Laws.Entries.{EntryIn};
ghost use Rattle.boxes.specs.Told.{field_of};
ghost use Rattle.locations.specs.Told.{table_in, entry_in, parsed_of, past_of};
ghost use Rattle.locations.specs.Reads.{based, skipped};

use crate::table::Table;
use crate::{extent, table};
use boxes::Refusal;

// An item's entry: its numbers, how many extents it has, and where the first one is.
#[derive(Clone, Copy)]
pub struct Entry {
    pub item_id: u64,
    pub construction_method: u64,
    pub base_offset: u64,
    pub extent_count: u64,
    pub extents_at: usize,
}

// The bytes of the construction method: version 0 has none.
#[tactic(auto, unfolding(rules::specs::Doc::Iloc::method_size))]
fn method_size(version: u64) -> usize
    ensures { (result ≡ method_size version) × (result ≤ 2) }
{
    match version {
        0 => 0,
        _ => 2,
    }
}

// The two bytes whose low half-byte is the construction method. In version 0 nothing is read, so that the place is inside has to be known.
#[tactic(auto, unfolding(rules::specs::Doc::Iloc::method_size, rules::specs::Doc::Bytes::number_at), using(rules::specs::Laws::Numbers::field_in))]
fn parse_method(body: &[u8], at: usize, version: u64) -> Result<u64, Refusal>
    requires { at ≤ length body.now }
    ensures { field_of result ≡ field body.now at (method_size version) }
{
    match version {
        0 => Ok(0),
        _ => boxes::uint16(body, at),
    }
}

// A data reference is judged for method 0 only.
#[tactic(auto, unfolding(rules::specs::Doc::Iloc::in_file))]
fn in_file(construction_method: u64, data_ref_index: u64) -> bool
    ensures { result ≡ in_file construction_method data_ref_index }
{
    match construction_method {
        0 => data_ref_index == 0,
        _ => true,
    }
}

// The base offset and the count of extents end an entry.
#[tactic(auto, unfolding(crate::specs::Reads::based), using(rules::specs::Laws::Fields::field_stands, rules::specs::Laws::Fields::sized_stands))]
fn parse_base(
    body: &[u8],
    size: usize,
    item_id: u64,
    construction_method: u64,
    at: usize,
) -> Result<Entry, Refusal>
    ensures { parsed_of result ≡ based body.now size item_id construction_method at }
{
    let base_offset = boxes::size048(body, at, size, Refusal::BaseOffsetSize)?;
    let count_at = at + size;
    let extent_count = boxes::uint16(body, count_at)?;
    Ok(Entry {
        item_id,
        construction_method,
        base_offset,
        extent_count,
        extents_at: count_at + 2,
    })
}

#[tactic(auto, unfolding(rules::specs::Doc::Iloc::entry_at, crate::specs::Reads::based), using(rules::specs::Laws::Fields::field_stands))]
pub(crate) fn parse_entry(body: &[u8], table: Table, at: usize) -> Result<Entry, Refusal>
    ensures { parsed_of result ≡ entry_at (table_in table) body.now at }
{
    let item_id = table::parse_id(body, at, table.version)?;
    let method_at = at + table::id_size(table.version);
    let method = parse_method(body, method_at, table.version)? % 16;
    let data_ref_at = method_at + method_size(table.version);
    let data_ref_index = boxes::uint16(body, data_ref_at)?;
    if !in_file(method, data_ref_index) {
        return Err(Refusal::ExternalReference);
    }
    parse_base(
        body,
        table.base_offset_size,
        item_id,
        method,
        data_ref_at + 2,
    )
}

// Past an entry's extents, sizes unjudged: they need only fit. An entry doesn't know its body, so that it was read there is asked for.
#[tactic(auto, unfolding(crate::specs::Reads::skipped, rules::specs::Doc::Iloc::entry_end), using(crate::specs::Reads::skip_room))]
fn skip_extents(body: &[u8], table: Table, entry: Entry) -> Result<usize, Refusal>
    requires { EntryIn body.now (entry_in entry) }
    ensures { past_of result ≡ skipped (table_in table) body.now (entry_in entry) }
{
    let size = entry.extent_count as usize * table.sizes.extent_size();
    if body.len() - entry.extents_at < size {
        return Err(Refusal::BoxTooSmall);
    }
    Ok(entry.extents_at + size)
}

// Where an entry's extents end. Those of the wanted item are judged: they share their sizes, so the first one decides, and the others need only fit.
#[tactic(auto, using(crate::specs::Reads::next_other, crate::specs::Reads::next_none, crate::specs::Reads::next_wanted))]
pub(crate) fn past_extents(
    body: &[u8],
    table: Table,
    entry: Entry,
    item_id: u64,
) -> Result<usize, Refusal>
    requires { EntryIn body.now (entry_in entry) }
    ensures { past_of result ≡ entry_next (table_in table) body.now item_id (entry_in entry) }
{
    if entry.item_id != item_id {
        return skip_extents(body, table, entry);
    }
    if entry.extent_count == 0 {
        return Ok(entry.extents_at);
    }
    extent::parse_extent(body, table.sizes, entry.extents_at)?;
    skip_extents(body, table, entry)
}
