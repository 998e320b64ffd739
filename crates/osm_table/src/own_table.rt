//! A table that shares its entries with nobody, so that it can be changed.
//!
//! While its keys came by rank none is hashed, and a key is found by about log n comparisons. The first new key that doesn't come
//! so has all of them hashed, once, and so has who takes keys out (`OwnTable::hash`); from then on a key is found by one look-up.
//! That is what a search costs below.
ghost use Rattle.std.specs.Prelude.{◌≡◌, OnOk, OnErr, None, IfOk, IsSome, IsOk};
ghost use Rattle.std.specs.Option.{option_copied, option_map};
ghost use Rattle.std.specs.FinMap as map;
ghost use Rattle.osm_table.specs.Table.{entry_of, with_entry, without_entry, keys_by_rank};

use crate::keyed_entries::KeyedEntries;
use crate::ordered::Ordered;
use crate::shared_entry::SharedEntry;
use osm_base::Key;
use std::alloc::{AllocError, Global};
use std::marker::Model;

/// A table that shares its entries with nobody. It is what a `Table` is taken as to be changed.
#[derive(Drop)]
pub struct OwnTable {
    entries: KeyedEntries,
    next: u64,
}

impl Model for OwnTable {
    ghost use Rattle.std.specs.FinMap as map;
    ghost use Rattle.osm_table.specs.Table.{TableValue};
    ghost use Rattle.osm_table.specs.TableCode.{table_code};

    ghost Value = { TableValue };

    ghost coded = { table_code };

    ghost view = { λ t. record { entries = map.from_entries t.entries; next = t.next } };
}

impl OwnTable {
    /// A table without entries, whose first new object has the number 1.
    pub fn new(alloc: Global) -> Self
        ensures { result ≡ record { entries = map.empty; next = 1 } }
    {
        OwnTable {
            entries: KeyedEntries::new(alloc),
            next: 1,
        }
    }

    /// A table of entries that are there.
    pub(crate) fn with_entries(entries: KeyedEntries, next: u64) -> Self
        ensures { result ≡ record { entries = map.from_entries entries; next = next } }
    {
        OwnTable { entries, next }
    }

    /// The number of the next new object.
    pub fn next(&self) -> u64
        ensures { result ≡ self.now.next }
    {
        self.next
    }

    /// Sets the number of the next new object.
    pub fn set_next(&mut self, next: u64)
        ensures { self.new ≡ record self.old { next = next } }
    {
        self.next = next;
    }

    /// The allocator that it takes its memory from.
    pub fn alloc(&self) -> Global {
        self.entries.alloc()
    }

    /// The entry of a key: one search.
    pub fn get(&self, key: Key) -> Option<&SharedEntry>
        ensures { option_copied result ≡ entry_of self.now key }
    {
        self.entries.get(key)
    }

    /// As `get`, with a place to look at first, and with the place behind the one where the key
    /// stands. Who goes over keys in the order in which they were set, each time from the place that
    /// the last gave, pays no search; a key that isn't at the place costs one.
    pub fn get_near(&self, near: usize, key: Key) -> Option<(usize, &SharedEntry)>
        ensures { option_map (λ found. found.1.now) result ≡ entry_of self.now key }
    {
        self.entries.get_near(near, key)
    }

    /// Makes room for so many keys that aren't there yet. Where there is none it makes room for as
    /// many as there are at least, as `set` does, so that many calls cost no more than the keys.
    ///
    /// # Errors
    /// Answers want of memory.
    pub fn reserve(&mut self, keys: usize) -> Result<(), AllocError>
        ensures { self.new ≡ self.old }
    {
        self.entries.reserve(keys)
    }

    /// Hashes the keys where they aren't yet, so that each goes by two look-ups. Who takes keys out does it first.
    ///
    /// # Errors
    /// Answers want of memory.
    pub fn hash(&mut self) -> Result<(), AllocError>
        ensures { self.new ≡ self.old }
    {
        self.entries.hash()
    }

    /// Sets the entry of a key, and drops the one that it had. One search; none for a key behind all others while keys come by
    /// rank.
    ///
    /// # Errors
    /// Answers want of memory, and then nothing has changed. It takes none where the key is there.
    pub fn set(&mut self, key: Key, entry: SharedEntry) -> Result<(), AllocError>
        ensures ok { OnOk result (self.new ≡ with_entry self.old key entry) }
        ensures err { OnErr result (self.new ≡ self.old) }
        ensures present { IsSome (entry_of self.old key) → IsOk result }
    {
        self.entries.insert(key, entry)?;
        Ok(())
    }

    /// Takes out the entry of a key: two look-ups where the keys are hashed, and else a search and one move of the keys behind it.
    pub fn remove(&mut self, key: Key) -> Option<SharedEntry>
        ensures value { result ≡ entry_of self.old key }
        ensures removed { self.new ≡ without_entry self.old key }
    {
        self.entries.remove(key)
    }

    /// The number of entries.
    pub fn len(&self) -> usize
        ensures { result ≡ map.len self.now.entries }
    {
        self.entries.len()
    }

    /// Its keys by rank. Where they stand so it lends them, after one pass over them at most; else it sorts them
    /// once, so n keys cost n log n steps.
    ///
    /// # Errors
    /// Answers want of memory.
    pub fn ordered(&self) -> Result<Ordered<'_>, AllocError>
        ensures { IfOk result (λ keys. keys ≡ keys_by_rank self.now) }
    {
        self.entries.ordered()
    }
}
