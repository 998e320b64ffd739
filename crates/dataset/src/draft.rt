//! What a tool says that it changes.
ghost use Rattle.std.specs.Prelude.{◌≡◌, OnOk, OnErr, IfOk};
ghost use Rattle.std.specs.Option.{option_copied};
ghost use Rattle.std.specs.FinMap as map;
ghost use Rattle.std.specs.Map.{keys_of};
ghost use Rattle.std.specs.List.{IsDistinct};
ghost use Rattle.osm_base.specs.KeyEq.{eq};
ghost use Rattle.osm_table.specs.Table.{entry_of};
ghost use Rattle.dataset.specs.Draft.{drafted};

use crate::dataset::DataSet;
use osm_base::Key;
use osm_table::{Entry, SharedEntry};
use std::alloc::{AllocError, Global};
use std::collections::HashMap;
use std::marker::Model;

/// New entries by key, where none takes the key away, and the number of the next new object.
#[derive(Drop)]
pub struct Draft {
    alloc: Global,
    puts: HashMap<Key, Option<SharedEntry>>,
    next: u64,
}

impl Model for Draft {
    ghost use Rattle.std.specs.FinMap as map;
    ghost use Rattle.dataset.specs.Draft.{DraftValue, draft_code};

    ghost Value = { DraftValue };

    ghost coded = { draft_code };

    ghost view = { λ d. record { puts = map.from_entries d.puts.entries; next = d.next } };
}

impl Draft {
    /// A draft that changes nothing. It takes no memory.
    pub fn new(ds: &DataSet) -> Draft
        ensures { result ≡ record { puts = map.empty; next = ds.now.next } }
    {
        let alloc = ds.alloc();
        Draft {
            alloc,
            puts: HashMap::new(alloc),
            next: ds.next(),
        }
    }

    /// A draft that changes nothing, with room for so many keys.
    ///
    /// # Errors
    ///
    /// Where no memory is found.
    pub fn with_capacity(ds: &DataSet, keys: usize) -> Result<Draft, AllocError>
        ensures { IfOk result (λ draft. draft ≡ record { puts = map.empty; next = ds.now.next }) }
    {
        let alloc = ds.alloc();
        Ok(Draft {
            alloc,
            puts: HashMap::with_capacity(alloc, keys)?,
            next: ds.next(),
        })
    }

    /// Says the new entry of a key, or that the key goes. A later word on a key takes the place of
    /// an earlier one.
    ///
    /// # Errors
    ///
    /// Where no memory is found; then nothing changes.
    pub fn put(&mut self, key: Key, after: Option<Entry>) -> Result<(), AllocError>
        ensures ok { OnOk result (self.new ≡ record { puts = map.insert self.old.puts key after; next = self.old.next }) }
        ensures err { OnErr result (self.new ≡ self.old) }
    {
        let after = share(self.alloc, after)?;
        self.put_shared(key, after)
    }

    /// As `put`, of an entry that stands elsewhere already.
    ///
    /// # Errors
    ///
    /// Where no memory is found; then nothing changes.
    pub fn put_shared(&mut self, key: Key, after: Option<SharedEntry>) -> Result<(), AllocError>
        ensures ok { OnOk result (self.new ≡ record { puts = map.insert self.old.puts key after; next = self.old.next }) }
        ensures err { OnErr result (self.new ≡ self.old) }
    {
        drop(self.puts.insert(key, after)?);
        Ok(())
    }

    /// Says the number of the next new object.
    pub fn set_next(&mut self, next: u64)
        ensures { self.new ≡ record self.old { next = next } }
    {
        self.next = next;
    }

    /// The number of the next new object.
    pub fn next(&self) -> u64
        ensures { result ≡ self.now.next }
    {
        self.next
    }

    /// How many keys it speaks of.
    pub fn len(&self) -> usize
        ensures { result ≡ map.len self.now.puts }
    {
        self.puts.len()
    }

    /// What it says of a key: nothing, or a new entry, or that the key goes.
    pub fn get(&self, key: Key) -> Option<&Option<SharedEntry>>
        ensures { option_copied result ≡ map.get self.now.puts key }
    {
        self.puts.get(&key)
    }

    /// The entry that a key has in the draft's table.
    pub fn entry<'a>(&'a self, ds: &'a DataSet, key: Key) -> Option<&'a SharedEntry>
        ensures { option_copied result ≡ entry_of (drafted self.now ds.now) key }
    {
        match self.get(key) {
            Some(after) => after.as_ref(),
            None => ds.entry(key),
        }
    }

    /// Its keys by rank. Sorts them once.
    ///
    /// # Errors
    ///
    /// Where no memory is found.
    pub fn ordered(&self) -> Result<Vec<Key>, AllocError>
        ensures { IfOk result (λ keys. keys.items ≡ map.keys self.now.puts) }
    {
        let mut keys = keys(self.alloc, &self.puts)?;
        keys.sort().and(Ok(keys))
    }
}

fn share(alloc: Global, entry: Option<Entry>) -> Result<Option<SharedEntry>, AllocError>
    ensures { IfOk result (λ shared. shared ≡ entry) }
{
    match entry {
        None => Ok(None),
        Some(entry) => Ok(Some(SharedEntry::new(alloc, entry)?)),
    }
}

fn keys(alloc: Global, puts: &HashMap<Key, Option<SharedEntry>>) -> Result<Vec<Key>, AllocError>
    ensures listed { IfOk result (λ keys. keys.items ≡ keys_of puts.now.entries) }
    ensures unique { IfOk result (λ _. IsDistinct eq (keys_of puts.now.entries)) }
{
    puts.keys().copied().collect(alloc)
}
