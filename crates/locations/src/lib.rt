// The item location box `iloc`: where the bytes of an item are.
#![tactic(auto)]

mod entry;
mod extent;
mod location;
mod sizes;
mod table;

ghost use Rattle.std.specs.Prelude.{◌≡◌, IfOk};
ghost use Rattle.rules.specs.Doc.Iloc.{chosen_in, chosen};
ghost use Rattle.locations.specs.Told.{table_in, chosen_of, iloc_of};

use boxes::Refusal;
pub use entry::Entry;
pub use extent::Extent;
pub use location::Location;
pub use sizes::Sizes;
use table::Table;

// All entries are read, and the last wanted one is chosen.
#[tactic(auto, using(rules::specs::Laws::Entries::entry_refused, rules::specs::Laws::Entries::extents_refused, rules::specs::Laws::Entries::entry_in_is))]
fn parse_entries(body: &[u8], table: Table, item_id: u64) -> Result<Entry, Refusal>
    ensures { chosen_of table.sizes result ≡ chosen_in (table_in table) body.now item_id }
{
    let mut at = table.items_at;
    let mut last = None;
    for _ in 0..table.item_count {
        let entry = entry::parse_entry(body, table, at)?;
        at = entry::past_extents(body, table, entry, item_id)?;
        if entry.item_id == item_id {
            last = Some(entry);
        }
    }
    last.ok_or(Refusal::NoMatchingEntry)
}

// The location of an item in the body of `iloc`.
#[tactic(auto, unfolding(rules::specs::Doc::Iloc::chosen), using(crate::specs::Located::read_chose))]
pub fn parse_iloc<'a>(body: &'a [u8], item_id: u64) -> Result<Location<'a>, Refusal>
    ensures chosen { iloc_of result ≡ chosen body.now item_id }
    ensures of_body { IfOk result (λ l. l.body ≡ body.entry) }
{
    let table = table::parse_head(body)?;
    let entry = parse_entries(body, table, item_id)?;
    Ok(Location {
        body,
        sizes: table.sizes,
        entry,
    })
}
