//! The entries of all objects.
ghost use Rattle.std.specs.Prelude.{◌≡◌, OnErr, IfOk, IfErr};
ghost use Rattle.std.specs.Option.{option_copied, option_map};
ghost use Rattle.std.specs.FinMap as map;
ghost use Rattle.osm_table.specs.Table.{entry_of, keys_by_rank};
ghost use Rattle.osm_table.specs.TableKept.{table_of};
ghost use Rattle.osm_table.specs.Told.{table_told};

use crate::ordered::Ordered;
use crate::own_table::OwnTable;
use crate::shared::Shared;
use crate::shared_entry::SharedEntry;
use crate::told_map::ToldMap;
use osm_base::Key;
use std::alloc::{AllocError, Global};
use std::marker::Model;
use std::mem::replace;

/// The entries of all objects, and the number of the next new one: its id is minus that number.
///
/// Where no more is known than what a download tells it shares the told map with the job that brought it. Who changes a
/// table takes it as its own.
#[derive(Drop)]
pub struct Table {
    entries: Entries,
}

/// Where the entries are.
#[derive(Drop)]
enum Entries {
    Own(OwnTable),
    Told { told: Shared<ToldMap>, next: u64 },
}

impl Model for Table {
    ghost use Rattle.osm_table.specs.Table.{TableValue};
    ghost use Rattle.osm_table.specs.TableCode.{table_code};
    ghost use Rattle.osm_table.specs.TableKept.{table_of};

    ghost Value = { TableValue };

    ghost coded = { table_code };

    ghost view = { λ t. table_of t.entries };
}

impl Table {
    /// A table without entries, whose first new object has the number 1.
    pub fn new(alloc: Global) -> Self
        ensures { result ≡ record { entries = map.empty; next = 1 } }
    {
        Table::own(OwnTable::new(alloc))
    }

    /// The same table.
    pub fn own(table: OwnTable) -> Self
        ensures { result ≡ table }
    {
        Table {
            entries: Entries::Own(table),
        }
    }

    /// The table of which no more is known than what is told. It shares the told map, so it costs nothing.
    pub fn told(told: Shared<ToldMap>, next: u64) -> Self
        ensures { result ≡ table_told told.told next }
    {
        Table {
            entries: Entries::Told { told, next },
        }
    }

    /// Takes the table as one that shares its entries with nobody, and leaves one without entries. Where it
    /// has a told map its keys are copied, by `ToldMap::to_table`; else it costs nothing.
    ///
    /// # Errors
    /// Answers want of memory, and then nothing has changed.
    pub fn take(&mut self) -> Result<OwnTable, AllocError>
        ensures ok { IfOk result (λ table. table ≡ self.old) }
        ensures err { OnErr result (self.new ≡ self.old) }
    {
        let nothing = Entries::Own(OwnTable::new(self.alloc()));
        match owned(replace(&mut self.entries, nothing)) {
            Ok(table) => Ok(table),
            Err(entries) => {
                self.entries = entries;
                Err(AllocError)
            }
        }
    }

    /// The number of the next new object.
    pub fn next(&self) -> u64
        ensures { result ≡ self.now.next }
    {
        match &self.entries {
            Entries::Own(table) => table.next(),
            Entries::Told { next, .. } => *next,
        }
    }

    /// The allocator that it takes its memory from.
    pub fn alloc(&self) -> Global {
        match &self.entries {
            Entries::Own(table) => table.alloc(),
            Entries::Told { told, .. } => told.value().alloc(),
        }
    }

    /// The entry of a key: one look-up by hash, or where the keys came by rank about log n comparisons.
    pub fn get(&self, key: Key) -> Option<&SharedEntry>
        ensures { option_copied result ≡ entry_of self.now key }
    {
        match &self.entries {
            Entries::Own(table) => table.get(key),
            Entries::Told { told, .. } => told.value().get(key),
        }
    }

    /// As `get`, with a place to look at first, and with the place behind the one where the key
    /// stands. Who goes over keys in the order in which they were set, each time from the place that
    /// the last gave, pays no search; a key that isn't at the place costs one, as `get` does.
    pub fn get_near(&self, near: usize, key: Key) -> Option<(usize, &SharedEntry)>
        ensures { option_map (λ found. found.1.now) result ≡ entry_of self.now key }
    {
        match &self.entries {
            Entries::Own(table) => table.get_near(near, key),
            Entries::Told { told, .. } => told.value().get_near(near, key),
        }
    }

    /// The number of entries.
    pub fn len(&self) -> usize
        ensures { result ≡ map.len self.now.entries }
    {
        match &self.entries {
            Entries::Own(table) => table.len(),
            Entries::Told { told, .. } => told.value().len(),
        }
    }

    /// Its keys by rank. Where they stand so it lends them, after one pass over them at most; else it sorts
    /// them once, so n keys cost n log n steps.
    ///
    /// # Errors
    /// Answers want of memory.
    pub fn ordered(&self) -> Result<Ordered<'_>, AllocError>
        ensures { IfOk result (λ keys. keys ≡ keys_by_rank self.now) }
    {
        match &self.entries {
            Entries::Own(table) => table.ordered(),
            Entries::Told { told, .. } => told.value().ordered(),
        }
    }
}

/// The entries as a table that shares them with nobody.
///
/// # Errors
/// No memory was left for the entries of a told map.
fn owned(entries: Entries) -> Result<OwnTable, Entries>
    ensures ok { IfOk result (λ table. table ≡ table_of entries) }
    ensures err { IfErr result (λ same. table_of same ≡ table_of entries) }
{
    match entries {
        Entries::Own(table) => Ok(table),
        Entries::Told { told, next } => match told.value().to_table(next) {
            Ok(table) => Ok(table),
            Err(_) => Err(Entries::Told { told, next }),
        },
    }
}
