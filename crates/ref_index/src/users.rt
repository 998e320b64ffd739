//! The users of one key: distinct keys that rise by rank.
//!
//! A place is found by halving, so a list of u keys costs about log u comparisons for each key put
//! in or taken out, and one move of the keys behind it. Most keys have one user, who takes no block,
//! and most others have two, who share one. Three or more stand in a list, which takes two blocks and
//! begins with room for four.
ghost use Rattle.std.specs.Prelude.{◌≡◌, ◌≤◌, ◌<◌, [], ◌∷◌, length, not, IfOk, OnOk, OnErr, T};
ghost use Rattle.std.specs.List.{insert, remove};
ghost use Rattle.osm_base.specs.RisingKeys.{rises, is_in, with_key, without_key};
ghost use Rattle.ref_index.specs.Listed.{listed};

use osm_base::{Key, place_among, stands_at};
use std::alloc::{AllocError, Global};
use std::marker::Model;
use std::slice;

/// The users of one key: keys that rise by rank, each once.
#[derive(Drop)]
pub struct Users {
    alloc: Global,
    items: Items,
}

/// No key or one, without a block, or two in a block, or a list. That these are behind a pointer
/// keeps this at 24 bytes. A list that loses keys stays one, since to take a key needs no memory.
#[derive(Drop)]
enum Items {
    Nobody,
    One(Key),
    Two(Box<[Key; 2]>),
    List(Box<Vec<Key>>),
}

impl Model for Users {
    ghost use Rattle.std.specs.Prelude.{List, T};
    ghost use Rattle.osm_base.specs.declared.key.Key.{Key};
    ghost use Rattle.osm_base.specs.RisingKeys.{rises};
    ghost use Rattle.ref_index.specs.Listed.{listed};

    ghost Value = { List Key };

    ghost view = { λ u. listed u.items };

    ghost invariant = { λ u. T (rises (listed u.items)) };
}

impl Users {
    /// No users. It takes no block.
    pub fn new(alloc: Global) -> Self
        ensures { result ≡ [] }
    {
        Users {
            alloc,
            items: Items::Nobody,
        }
    }

    /// The keys, by rank. Costs nothing.
    pub fn as_slice(&self) -> &[Key]
        ensures value { result.now ≡ self.now }
        ensures rises { T (rises self.now) }
    {
        listed(&self.items)
    }

    /// Puts the key into its place, and answers whether it is new. Where it stands already nothing
    /// changes. With u keys it costs about log u comparisons, and one move of the keys behind a new
    /// one.
    ///
    /// # Errors
    ///
    /// Where no memory is found; then nothing changes.
    pub fn put(&mut self, key: Key) -> Result<bool, AllocError>
        ensures first { IfOk result (λ first. first ≡ not (is_in key self.old)) }
        ensures ok { OnOk result (self.new ≡ with_key key self.old) }
        ensures err { OnErr result (self.new ≡ self.old) }
    {
        let first = put_item(self.alloc, &mut self.items, key)?;
        Ok(first)
    }

    /// Takes the key out. Where it doesn't stand nothing changes. It costs what `put` does, and takes
    /// no memory.
    pub fn take(&mut self, key: Key)
        ensures { self.new ≡ without_key key self.old }
    {
        take_item(&mut self.items, key);
    }
}

fn listed(items: &Items) -> &[Key]
    ensures { result.now ≡ listed items.now }
{
    match items {
        Items::Nobody => &[],
        Items::One(key) => slice::from_ref(key),
        Items::Two(keys) => keys.as_slice(),
        Items::List(keys) => keys.as_slice(),
    }
}

fn put_item(alloc: Global, items: &mut Items, key: Key) -> Result<bool, AllocError>
    requires { T (rises (listed items.old)) }
    ensures first { IfOk result (λ first. first ≡ not (is_in key (listed items.old))) }
    ensures ok { OnOk result (listed items.new ≡ with_key key (listed items.old)) }
    ensures err { OnErr result (listed items.new ≡ listed items.old) }
{
    let at = place_among(listed(items), key);
    if stands_at(listed(items), at, key) {
        return Ok(false);
    }
    insert_at(alloc, items, at, key)?;
    Ok(true)
}

fn insert_at(alloc: Global, items: &mut Items, at: usize, key: Key) -> Result<(), AllocError>
    requires { at ≤ length (listed items.old) }
    ensures ok { OnOk result (listed items.new ≡ insert (listed items.old) at key) }
    ensures err { OnErr result (listed items.new ≡ listed items.old) }
{
    match items {
        Items::Nobody => *items = Items::One(key),
        Items::One(first) => {
            let keys = two_keys(*first, at, key);
            *items = Items::Two(Box::new(alloc, keys)?);
        }
        Items::Two(two) => {
            let mut keys = Vec::with_capacity(alloc, 4)?;
            keys.extend_from_slice(two.as_slice())?;
            keys.insert(at, key)?;
            *items = Items::List(Box::new(alloc, keys)?);
        }
        Items::List(keys) => keys.insert(at, key)?,
    }
    Ok(())
}

/// A key with another at its place.
fn two_keys(first: Key, at: usize, key: Key) -> [Key; 2]
    requires { at ≤ 1 }
    ensures { result ≡ insert (first ∷ []) at key }
{
    if at == 0 { [key, first] } else { [first, key] }
}

fn take_item(items: &mut Items, key: Key)
    requires { T (rises (listed items.old)) }
    ensures { listed items.new ≡ without_key key (listed items.old) }
{
    let at = place_among(listed(items), key);
    if stands_at(listed(items), at, key) {
        remove_at(items, at);
    }
}

fn remove_at(items: &mut Items, at: usize)
    requires { at < length (listed items.old) }
    ensures { listed items.new ≡ remove (listed items.old) at }
{
    match items {
        Items::Nobody => {}
        Items::One(_) => *items = Items::Nobody,
        Items::Two(keys) => *items = Items::One(other_key(keys, at)),
        Items::List(keys) => {
            keys.remove(at);
        }
    }
}

/// Which of two keys stays where the one at the index goes.
fn other_key(keys: &[Key; 2], at: usize) -> Key
    requires { at < length keys.now }
    ensures { remove keys.now at ≡ result ∷ [] }
{
    if at == 0 { keys[1] } else { keys[0] }
}
