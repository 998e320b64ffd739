//! A saved table whose entries are found by their keys.

ghost use Rattle.std.specs.Prelude.{◌≡◌, IfOk, T};
ghost use Rattle.std.specs.Option.{option_copied};
ghost use Rattle.std.specs.FinMap.Entries.{is_sorted};
ghost use Rattle.std.specs.Map.{lookup};
ghost use Rattle.osm_base.specs.KeyEq.{eq};
ghost use Rattle.osm_base.specs.Rank.{rank_cmp};
ghost use Rattle.osm_table.specs.Table.{entry_of};
ghost use Rattle.saved_session.specs.Reading.{table_of};

use crate::lines::SavedTable;
use osm_base::Key;
use osm_table::{KeyedEntries, SharedEntry};
use std::alloc::{AllocError, Global};
use std::cell::Cell;

/// A saved table, whose entries stand by rank: they are found by halving, and no key is hashed.
#[derive(Drop)]
pub struct KeyedTable {
    pub next: u64,
    pub entries: KeyedEntries,
}

impl KeyedTable {
    /// The table that was read. It takes the place of the list of its entries.
    ///
    /// # Errors
    /// No memory was left.
    pub fn new(alloc: Global, saved: SavedTable) -> Result<KeyedTable, AllocError>
        requires { T (is_sorted rank_cmp saved.entries.items) }
        ensures next { IfOk result (λ table. table.next ≡ saved.next) }
        ensures entries { IfOk result (λ table. table.entries ≡ saved.entries.items) }
    {
        let SavedTable { next, entries } = saved;
        let entries = KeyedEntries::of_list(alloc, entries)?;
        Ok(KeyedTable { next, entries })
    }

    /// The entry of a key. It is sought first at the place `near`, which then is the one behind it.
    pub fn entry_near(&self, near: &Cell<usize>, key: Key) -> Option<&SharedEntry>
        ensures { option_copied result ≡ entry_of (table_of (record { next = self.now.next; entries = self.now.entries })) key }
    {
        entry_near(&self.entries, near, key)
    }
}

/// The entry of a key, as `KeyedTable::entry_near` says.
fn entry_near<'a>(
    entries: &'a KeyedEntries,
    near: &Cell<usize>,
    key: Key,
) -> Option<&'a SharedEntry>
    ensures { option_copied result ≡ lookup (eq key) entries.now }
{
    let (behind, entry) = entries.get_near(near.get(), key)?;
    near.set(behind);
    Some(entry)
}
