//! What a download tells of the objects.
ghost use Rattle.std.specs.Prelude.{◌≡◌, ◌<◌, true, [], Some, None, IfOk, OnOk, OnErr, IfSome, IfNone, length, slice_get, is_some};
ghost use Rattle.std.specs.Option.{option_copied, option_map};
ghost use Rattle.std.specs.List.{list_any, IsDistinct};
ghost use Rattle.std.specs.FinMap as map;
ghost use Rattle.osm_base.specs.KeyEq.{eq};
ghost use Rattle.osm_base.specs.Rank.{is_key};
ghost use Rattle.osm_table.specs.Table.{IsPositive};
ghost use Rattle.osm_table.specs.Told.{entry_told, told_of, told_at, with_told, with_mention, is_told_there, table_told, IsClosed, IsTold, IsToldMap};

use crate::entry::Base;
use crate::keyed_entries::KeyedEntries;
use crate::ordered::Ordered;
use crate::own_table::OwnTable;
use crate::shared_entry::{EntryParts, SharedEntry};
use crate::told::Told;
use osm_base::Key;
use std::alloc::{AllocError, Global};
use std::marker::Model;

/// What a download tells of the objects: a map from keys of a server to what it tells of them. The
/// keys keep the order in which they were first put.
///
/// While keys come by rank, as in a file of osmium, a key is found by about log n comparisons and
/// none is hashed; the first new one that doesn't come so has all of them hashed, once, and from
/// then on a key is found by one look-up. That is what a search costs below.
///
/// What is told of an object is kept as the entry of which no more is known, in the block that the
/// table and its patches share later. All that are mentioned share one.
#[derive(Drop)]
pub struct ToldMap {
    entries: KeyedEntries,
    mentioned: SharedEntry,
    /// Nothing is told of as deleted. While that is so a mention needs no look at an entry.
    all_there: bool,
    /// Each reference of an object that is told of as living is known to be told of as there.
    closed: bool,
    /// The place behind the key that was mentioned last.
    near: usize,
}

impl Model for ToldMap {
    ghost use Rattle.std.specs.Prelude.{◌≡◌, true};
    ghost use Rattle.std.specs.Map.{keys_of};
    ghost use Rattle.std.specs.List.{IsDistinct};
    ghost use Rattle.osm_base.specs.KeyEq.{eq};
    ghost use Rattle.osm_table.specs.declared.entry.Entry.TheVariants.{Incomplete};
    ghost use Rattle.osm_table.specs.Told.{ToldValue, IsClosed, IsToldMap};
    ghost use Rattle.osm_table.specs.ToldCode.{told_code, told_kept, AreTold, AreThere};

    ghost Value = { ToldValue };

    ghost coded = { told_code };

    ghost view = { λ m. record { told = told_kept m.entries; order = keys_of m.entries } };

    ghost invariant = { λ m. IsToldMap (told_kept m.entries) × AreTold m.entries × IsDistinct eq (keys_of m.entries) × (m.mentioned ≡ Incomplete) × (m.all_there ≡ true → AreThere (told_kept m.entries)) × (m.closed ≡ true → IsClosed (told_kept m.entries)) };
}

impl ToldMap {
    /// A map that tells nothing, with room for so many keys.
    ///
    /// # Errors
    /// Answers want of memory.
    pub fn with_capacity(alloc: Global, keys: usize) -> Result<Self, AllocError>
        ensures { IfOk result (λ told. told ≡ record { told = map.empty; order = [] }) }
    {
        Ok(ToldMap {
            mentioned: SharedEntry::told(alloc, Told::Mentioned)?,
            entries: KeyedEntries::with_capacity(alloc, keys)?,
            all_there: true,
            closed: false,
            near: 0,
        })
    }

    /// Sets what is told of a key. Where keys come by rank, one behind all others costs one comparison;
    /// another costs a search.
    ///
    /// # Errors
    /// Answers want of memory, and then nothing has changed.
    pub fn put(&mut self, key: Key, told: Told) -> Result<(), AllocError>
        requires { IsTold key told }
        ensures ok { OnOk result (self.new ≡ with_told self.old key told) }
        ensures err { OnErr result (self.new ≡ self.old) }
    {
        let entry = SharedEntry::told(self.entries.alloc(), told)?;
        self.set(key, entry)
    }

    /// Mentions a key, where nothing is told of it yet, and answers whether it is told of as there.
    /// One search, and one more for a new key; none for a key that stands behind the one that was
    /// mentioned before, as a way's next node often does.
    ///
    /// # Errors
    /// Answers want of memory, and then nothing has changed.
    pub fn mention(&mut self, key: Key) -> Result<bool, AllocError>
        requires { IsPositive key.id }
        ensures ok { OnOk result (self.new ≡ with_mention self.old key) }
        ensures there { IfOk result (λ there. there ≡ is_told_there (told_at self.new key)) }
        ensures err { OnErr result (self.new ≡ self.old) }
    {
        match self.get_near(self.near, key) {
            Some((behind, entry)) => {
                let there = self.all_there || is_there(entry);
                self.near = behind;
                Ok(there)
            }
            None => {
                let entry = self.mentioned.copy()?;
                self.set(key, entry)?;
                Ok(true)
            }
        }
    }

    fn set(&mut self, key: Key, entry: SharedEntry) -> Result<(), AllocError>
        requires told { IsTold key (told_of entry) }
        requires entry { entry_told (told_of entry) ≡ entry }
        ensures ok { OnOk result (self.new ≡ with_told self.old key (told_of entry)) }
        ensures err { OnErr result (self.new ≡ self.old) }
    {
        let all_there = self.all_there && is_there(&entry);
        self.entries.insert(key, entry)?;
        self.all_there = all_there;
        self.closed = false;
        Ok(())
    }

    /// Notes that each reference of an object that is told of as living is told of as there. What
    /// is told later takes the note away. Costs nothing.
    pub fn close(&mut self)
        requires { IsClosed self.old.told }
        ensures { self.new ≡ self.old }
    {
        self.closed = true;
    }

    /// Whether it is known that each reference of an object that is told of as living is told of as
    /// there. Costs nothing.
    pub fn is_closed(&self) -> bool
        ensures { result ≡ true → IsClosed self.now.told }
    {
        self.closed
    }

    /// The entry of an object of which no more is known than what is told of this key. It costs one
    /// search.
    pub fn get(&self, key: Key) -> Option<&SharedEntry>
        ensures value { option_copied result ≡ option_map entry_told (told_at self.now key) }
        ensures told_map { IsToldMap self.now.told }
    {
        self.entries.get(key)
    }

    /// As `get`, with a place to look at first, and with the place behind the one where the key
    /// stands. Who goes over keys in the order in which they were put, each time from the place that
    /// the last gave, pays no search; a key that isn't at the place costs one.
    pub fn get_near(&self, near: usize, key: Key) -> Option<(usize, &SharedEntry)>
        ensures { option_map (λ found. found.1.now) result ≡ option_map entry_told (told_at self.now key) }
    {
        self.entries.get_near(near, key)
    }

    /// The place of a key among those that were put, counted from 0. The place `near` is looked at
    /// first; else it costs one search.
    pub fn place_near(&self, near: usize, key: Key) -> Option<usize>
        ensures some { IfSome result (λ place. slice_get self.now.order place ≡ Some key) }
        ensures none { IfNone result (told_at self.now key ≡ None) }
    {
        self.entries.place_near(near, key)
    }

    /// The number of its keys.
    pub fn len(&self) -> usize
        ensures value { result ≡ map.len self.now.told }
        ensures order { result ≡ length self.now.order }
    {
        self.entries.len()
    }

    /// The `i`th key that was put: each key of the map stands at one place.
    pub fn key_at(&self, i: usize) -> Key
        requires { i < length self.now.order }
        ensures key { slice_get self.now.order i ≡ Some result }
        ensures each { (key : Key) → list_any (is_key key) self.now.order ≡ is_some (told_at self.now key) }
        ensures once { IsDistinct eq self.now.order }
    {
        self.entries.key_at(i)
    }

    /// The `i`th key that was put, and the entry of which no more is known than what is told of it.
    /// It costs no search.
    pub fn entry_at(&self, i: usize) -> (Key, &SharedEntry)
        requires { i < length self.now.order }
        ensures key { slice_get self.now.order i ≡ Some result.0 }
        ensures told { told_at self.now result.0 ≡ Some (told_of result.1.now) }
        ensures entry { entry_told (told_of result.1.now) ≡ result.1.now }
    {
        self.entries.entry_at(i)
    }

    /// Its keys by rank. Where they came so it lends them, which costs nothing. Hashed ones are compared
    /// with their neighbours once, and sorted where they don't stand by rank.
    ///
    /// # Errors
    /// Answers want of memory.
    pub fn ordered(&self) -> Result<Ordered<'_>, AllocError>
        ensures { IfOk result (λ keys. keys ≡ map.keys self.now.told) }
    {
        self.entries.ordered()
    }

    /// The table of which no more is known than what is told, which shares its entries. The keys are copied, and hashed
    /// where they are hashed here.
    ///
    /// # Errors
    /// Answers want of memory.
    pub fn to_table(&self, next: u64) -> Result<OwnTable, AllocError>
        ensures { IfOk result (λ table. table ≡ table_told self.now.told next) }
    {
        Ok(OwnTable::with_entries(self.entries.copy()?, next))
    }

    /// The allocator that it takes its memory from.
    pub fn alloc(&self) -> Global {
        self.entries.alloc()
    }

    /// What every told map keeps. Costs nothing.
    pub fn sound(&self)
        ensures told_map { IsToldMap self.now.told }
        ensures each { (key : Key) → list_any (is_key key) self.now.order ≡ is_some (told_at self.now key) }
        ensures once { IsDistinct eq self.now.order }
    {
        let _ = &self.entries;
    }
}

/// Whether an object is told of as there by an entry of which no more is known.
fn is_there(entry: &SharedEntry) -> bool
    ensures { result ≡ is_told_there (Some (told_of entry.now)) }
{
    match entry.parts() {
        EntryParts::Incomplete => true,
        EntryParts::Known { base, .. } => match base {
            Base::Gone { .. } => false,
            _ => true,
        },
    }
}
