//! Entries by key in the order in which they were put.
ghost use Rattle.std.specs.Prelude.{◌≡◌, ◌<◌, ◌++◌, ◌∷◌, if◌then◌else◌, Some, None, [], T, IfOk, OnOk, OnErr, IfSome, IfNone, length, slice_get};
ghost use Rattle.std.specs.Option.{option_copied, option_map};
ghost use Rattle.std.specs.FinMap as map;
ghost use Rattle.std.specs.List.{IsDistinct, zip};
ghost use Rattle.std.specs.List.Sorted.{IsPermutation, IsSorted};
ghost use Rattle.std.specs.Map.{lookup, keys_of};
ghost use Rattle.osm_base.specs.KeyEq.{eq};
ghost use Rattle.osm_base.specs.Rank.{rank_cmp};
ghost use Rattle.osm_base.specs.RisingKeys.{rises};
ghost use Rattle.osm_table.specs.InOrder.{insert_entry, insert_all, AreInPlace};

use crate::ordered::Ordered;
use crate::places::{Places, take_hashed};
use crate::rising;
use crate::shared_entry::SharedEntry;
use osm_base::{Key, Keys};
use std::alloc::{AllocError, Global};
use std::marker::Model;

/// Entries by key in the order in which they were put. While keys come by rank, a place is found by
/// halving and no hash is kept; the first one that doesn't has all of them hashed, once. Clauses see
/// the list of the keys with their entries.
#[derive(Drop)]
pub struct KeyedEntries {
    keys: Vec<Key>,
    /// The entry of each key, at its place.
    entries: Vec<SharedEntry>,
    places: Places,
}

impl Model for KeyedEntries {
    ghost use Rattle.std.specs.Prelude.{◌≡◌, List, length};
    ghost use Rattle.std.specs.List.{zip};
    ghost use Rattle.osm_base.specs.declared.key.Key.{Key};
    ghost use Rattle.osm_table.specs.declared.entry.Entry.{Entry};
    ghost use Rattle.osm_table.specs.InOrder.{AreInPlace};

    ghost Value = { List (Key × Entry) };

    ghost view = { λ e. zip e.keys.items e.entries.items };

    ghost invariant = { λ e. AreInPlace e.keys.items e.places × (length e.keys.items ≡ length e.entries.items) };
}

impl KeyedEntries {
    /// No entries. It takes no memory.
    pub fn new(alloc: Global) -> Self
        ensures { result ≡ [] }
    {
        KeyedEntries {
            keys: Vec::new(alloc),
            entries: Vec::new(alloc),
            places: Places::Rising {
                posts: Vec::new(alloc),
            },
        }
    }

    /// No entries, with room for so many.
    ///
    /// # Errors
    /// No memory was left.
    pub fn with_capacity(alloc: Global, entries: usize) -> Result<Self, AllocError>
        ensures { IfOk result (λ none. none ≡ []) }
    {
        Ok(KeyedEntries {
            keys: Vec::with_capacity(alloc, entries)?,
            entries: Vec::with_capacity(alloc, entries)?,
            places: Places::Rising {
                posts: rising::room_for_posts(alloc, entries)?,
            },
        })
    }

    /// The entries of a list that stands by rank, which they take the place of. Each costs one comparison, and no key is hashed.
    ///
    /// # Errors
    /// No memory was left.
    pub fn of_list(alloc: Global, list: Vec<(Key, SharedEntry)>) -> Result<Self, AllocError>
        requires { T (rises (keys_of list.items)) }
        ensures { IfOk result (λ entries. entries ≡ list.items) }
    {
        let mut entries = KeyedEntries::with_capacity(alloc, list.len())?;
        put_all(&mut entries, list).and(Ok(entries))
    }

    /// Sets the entry of a key, and drops the one that it had. A new key comes last. One that comes
    /// behind all others costs one comparison; another one that is there costs a search, and the
    /// first new one that doesn't come by rank has all of them hashed.
    ///
    /// # Errors
    /// No memory was left, and nothing has changed.
    pub fn insert(&mut self, key: Key, entry: SharedEntry) -> Result<(), AllocError>
        ensures ok { OnOk result (self.new ≡ insert_entry eq self.old key entry) }
        ensures unique { OnOk result (IsDistinct eq (keys_of self.new)) }
        ensures err { OnErr result (self.new ≡ self.old) }
        ensures absent { OnErr result (lookup (eq key) self.old ≡ None) }
    {
        insert_in(
            &mut self.keys,
            &mut self.entries,
            &mut self.places,
            key,
            entry,
        )
    }

    /// Takes out the entry of a key. Where it is hashed it costs two look-ups, of this key and of the last, which
    /// comes into its place; where keys rise it costs a search, and one move of those behind it. It takes no memory.
    pub fn remove(&mut self, key: Key) -> Option<SharedEntry>
        ensures value { result ≡ lookup (eq key) self.old }
        ensures removed { (q : Key) → lookup (eq q) self.new ≡ (if eq key q then None else lookup (eq q) self.old) }
    {
        take_out(&mut self.keys, &mut self.entries, &mut self.places, key)
    }

    /// Makes room for so many keys that aren't there yet: at least for as many as there are, where there is none.
    ///
    /// # Errors
    /// No memory was left.
    pub fn reserve(&mut self, more: usize) -> Result<(), AllocError>
        ensures { self.new ≡ self.old }
    {
        self.keys.reserve(more)?;
        self.entries.reserve(more)?;
        self.places.reserve(more)
    }

    /// Hashes the keys, where they aren't yet, so that none is searched for, nor moves those behind it when it is taken out.
    ///
    /// # Errors
    /// No memory was left.
    pub fn hash(&mut self) -> Result<(), AllocError>
        ensures { self.new ≡ self.old }
    {
        self.places.hash(&self.keys)
    }

    /// The entry of a key. It costs one search: about log n comparisons where the keys came by rank,
    /// and else a look-up by hash.
    pub fn get(&self, key: Key) -> Option<&SharedEntry>
        ensures { option_copied result ≡ lookup (eq key) self.now }
    {
        let place = self.places.place_of(&self.keys, key)?;
        Some(&self.entries[place])
    }

    /// As `get`, with a place to look at first, and with the place behind the one where the key stands.
    pub fn get_near(&self, near: usize, key: Key) -> Option<(usize, &SharedEntry)>
        ensures { option_map (λ found. found.1.now) result ≡ lookup (eq key) self.now }
    {
        let place = self.places.place_near(&self.keys, near, key)?;
        Some((place.saturating_add(1), &self.entries[place]))
    }

    /// The place of a key. The place `near` is looked at first; else it costs one search.
    pub fn place_near(&self, near: usize, key: Key) -> Option<usize>
        ensures some { IfSome result (λ place. slice_get (keys_of self.now) place ≡ Some key) }
        ensures none { IfNone result (lookup (eq key) self.now ≡ None) }
    {
        self.places.place_near(&self.keys, near, key)
    }

    /// How many entries there are.
    pub fn len(&self) -> usize
        ensures len { result ≡ length self.now }
        ensures unique { IsDistinct eq (keys_of self.now) }
    {
        self.keys.len()
    }

    /// The `i`th key. It costs no search.
    pub fn key_at(&self, i: usize) -> Key
        requires { i < length self.now }
        ensures { slice_get (keys_of self.now) i ≡ Some result }
    {
        self.keys[i]
    }

    /// The `i`th key and its entry. It costs no search.
    pub fn entry_at(&self, i: usize) -> (Key, &SharedEntry)
        requires { i < length self.now }
        ensures key { slice_get (keys_of self.now) i ≡ Some result.0 }
        ensures entry { lookup (eq result.0) self.now ≡ Some result.1.now }
        ensures pair { slice_get self.now i ≡ Some (result.0, result.1.now) }
    {
        (self.keys[i], &self.entries[i])
    }

    /// The keys by rank. Where they came so they are lent, at no cost; hashed ones are looked over once,
    /// and sorted where they don't stand so.
    ///
    /// # Errors
    /// No memory was left.
    pub fn ordered(&self) -> Result<Ordered<'_>, AllocError>
        ensures { IfOk result (λ ks. ks ≡ map.keys (map.from_entries {R = rank_cmp} self.now)) }
    {
        if self.places.rise(&self.keys) {
            return Ok(Ordered::standing(&self.keys));
        }
        Ok(Ordered::sorted(listed_by_rank(self.alloc(), &self.keys)?))
    }

    /// The same entries under the same keys. It shares the entries, and hashes nothing.
    ///
    /// # Errors
    /// No memory was left.
    pub fn copy(&self) -> Result<KeyedEntries, AllocError>
        ensures { IfOk result (λ copy. copy ≡ self.now) }
    {
        Ok(KeyedEntries {
            keys: self.keys.clone()?,
            entries: self.entries.clone()?,
            places: self.places.copy()?,
        })
    }

    /// The allocator that it takes its memory from.
    pub fn alloc(&self) -> Global {
        *self.keys.allocator()
    }
}

/// The keys of a list by rank.
fn listed_by_rank(alloc: Global, keys: &[Key]) -> Result<Keys, AllocError>
    ensures permutation { IfOk result (λ ks. IsPermutation keys.now ks) }
    ensures sorted { IfOk result (λ ks. IsSorted rank_cmp ks) }
{
    let mut keys = Vec::from_slice(alloc, keys)?;
    keys.sort()?;
    Ok(Keys::from_vec(keys))
}

/// Sets the entries of a list, one after the other.
fn put_all(entries: &mut KeyedEntries, list: Vec<(Key, SharedEntry)>) -> Result<(), AllocError>
    ensures { OnOk result (entries.new ≡ insert_all eq entries.old list.items) }
{
    for item in list {
        let (key, entry) = item;
        entries.insert(key, entry)?;
    }
    Ok(())
}

/// Sets the entry of a key, as `KeyedEntries::insert` says.
fn insert_in(
    keys: &mut Vec<Key>,
    entries: &mut Vec<SharedEntry>,
    places: &mut Places,
    key: Key,
    entry: SharedEntry,
) -> Result<(), AllocError>
    requires places { AreInPlace keys.old.items places.old }
    requires len { length keys.old.items ≡ length entries.old.items }
    ensures ok { OnOk result (zip keys.new.items entries.new.items ≡ insert_entry eq (zip keys.old.items entries.old.items) key entry) }
    ensures err { OnErr result (zip keys.new.items entries.new.items ≡ zip keys.old.items entries.old.items) }
    ensures absent { OnErr result (lookup (eq key) (zip keys.old.items entries.old.items) ≡ None) }
    ensures places { AreInPlace keys.new.items places.new }
    ensures len { length keys.new.items ≡ length entries.new.items }
{
    match places.put(keys, keys.capacity(), key)? {
        Some(place) => entries[place] = entry,
        None => {
            if let Err(refused) = push(keys, entries, key, entry) {
                places.take_back(key);
                return Err(refused);
            }
        }
    }
    Ok(())
}

/// Adds a key and its entry behind the others, both or none.
fn push(
    keys: &mut Vec<Key>,
    entries: &mut Vec<SharedEntry>,
    key: Key,
    entry: SharedEntry,
) -> Result<(), AllocError>
    ensures keys_ok { OnOk result (keys.new.items ≡ keys.old.items ++ key ∷ []) }
    ensures entries_ok { OnOk result (entries.new.items ≡ entries.old.items ++ entry ∷ []) }
    ensures keys_err { OnErr result (keys.new.items ≡ keys.old.items) }
    ensures entries_err { OnErr result (entries.new.items ≡ entries.old.items) }
{
    entries.reserve(1)?;
    keys.push(key)?;
    entries.push(entry)?;
    Ok(())
}

/// Takes out the entry of a key, as `KeyedEntries::remove` says.
fn take_out(
    keys: &mut Vec<Key>,
    entries: &mut Vec<SharedEntry>,
    places: &mut Places,
    key: Key,
) -> Option<SharedEntry>
    requires places { AreInPlace keys.old.items places.old }
    requires len { length keys.old.items ≡ length entries.old.items }
    ensures value { result ≡ lookup (eq key) (zip keys.old.items entries.old.items) }
    ensures removed { (q : Key) → lookup (eq q) (zip keys.new.items entries.new.items) ≡ (if eq key q then None else lookup (eq q) (zip keys.old.items entries.old.items)) }
    ensures places { AreInPlace keys.new.items places.new }
    ensures len { length keys.new.items ≡ length entries.new.items }
{
    match places {
        Places::Rising { posts } => {
            let place = rising::place_of(keys, posts, key)?;
            keys.remove(place);
            Some(entries.remove(place))
        }
        Places::Hashed(places) => {
            let place = take_hashed(places, keys, key)?;
            Some(entries.swap_remove(place))
        }
    }
}
