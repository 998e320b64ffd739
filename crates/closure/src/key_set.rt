//! Lists of keys in which a key is found without a walk.
ghost use Rattle.std.specs.Prelude.{◌≡◌, ◌==◌, [], not, length, fold, IfOk, OnOk, OnErr};
ghost use Rattle.std.specs.HashSet.{IsFromIterResult};
ghost use Rattle.osm_base.specs.KeyEq.{eq};
ghost use Rattle.osm_base.specs.Rank.{is_key};
ghost use Rattle.closure.specs.Closure.{has, with_key};

use osm_base::Key;
use std::alloc::{AllocError, Global};
use std::collections::HashSet;
use std::marker::Model;
use std::ops::Index;

/// A list of keys that knows at once whether a key is one of them.
///
/// Clauses see it as the list.
#[derive(Drop)]
pub struct KeySet {
    keys: Vec<Key>,
    index: HashSet<Key>,
}

impl Model for KeySet {
    ghost use Rattle.std.specs.Prelude.{◌≡◌, List};
    ghost use Rattle.std.specs.HashSet.{contains};
    ghost use Rattle.osm_base.specs.KeyEq.{eq};
    ghost use Rattle.osm_base.specs.Rank.{is_key};
    ghost use Rattle.osm_base.specs.declared.key.Key.{Key};
    ghost use Rattle.closure.specs.Closure.{has};

    ghost Value = { List Key };

    ghost view = { λ s. s.keys.items };

    ghost invariant = { λ s. (key : Key) → contains eq s.index key ≡ has is_key s.keys.items key };
}

impl KeySet {
    /// No keys. It takes no memory.
    pub fn new(alloc: Global) -> KeySet
        ensures { result ≡ [] }
    {
        KeySet {
            keys: Vec::new(alloc),
            index: HashSet::new(alloc),
        }
    }

    /// These keys. The vector is kept as it is, and each key hashed once.
    ///
    /// # Errors
    /// No memory was left.
    pub fn from_vec(keys: Vec<Key>) -> Result<KeySet, AllocError>
        ensures { IfOk result (λ set. set ≡ keys.items) }
    {
        let index = index_of(*keys.allocator(), &keys)?;
        Ok(KeySet { keys, index })
    }

    /// A copy of these keys. Each is hashed once.
    ///
    /// # Errors
    /// No memory was left.
    pub fn from_slice(alloc: Global, keys: &[Key]) -> Result<KeySet, AllocError>
        ensures { IfOk result (λ set. set ≡ keys.now) }
    {
        KeySet::from_vec(Vec::from_slice(alloc, keys)?)
    }

    /// The allocator that it takes its memory from.
    pub fn alloc(&self) -> Global {
        *self.keys.allocator()
    }

    /// How many keys there are.
    pub fn len(&self) -> usize
        ensures { result ≡ length self.now }
    {
        self.keys.len()
    }

    /// Whether there are no keys.
    pub fn is_empty(&self) -> bool
        ensures { result ≡ (length self.now == 0) }
    {
        self.keys.is_empty()
    }

    /// Whether the key is one of those. One look-up.
    #[tactic(auto, using(crate::proofs::Indexed::found))]
    pub fn contains(&self, key: Key) -> bool
        ensures { result ≡ has is_key self.now key }
    {
        self.index.contains(&key)
    }

    /// Puts a key at the end, unless it is one of those already, and tells whether it did. One look-up.
    ///
    /// # Errors
    /// No memory was left, and nothing has changed.
    pub fn put(&mut self, key: Key) -> Result<bool, AllocError>
        ensures new { IfOk result (λ new. new ≡ not (has is_key self.old key)) }
        ensures ok { OnOk result (self.new ≡ with_key is_key self.old key) }
        ensures err { OnErr result (self.new ≡ self.old) }
    {
        self.keys.reserve(1)?;
        if !self.index.insert(key)? {
            return Ok(false);
        }
        match self.keys.push(key) {
            Ok(()) => Ok(true),
            Err(_) => unreachable!(),
        }
    }

    /// Puts each of these keys so, one after the other.
    ///
    /// # Errors
    /// No memory was left; some of the keys may have been put.
    pub fn put_all(&mut self, keys: &[Key]) -> Result<(), AllocError>
        ensures { OnOk result (self.new ≡ fold (with_key is_key) self.old keys.now) }
    {
        for key in keys {
            self.put(*key)?;
        }
        Ok(())
    }

    /// The keys, in order.
    pub fn as_slice(&self) -> &[Key]
        ensures { result.now ≡ self.now }
    {
        self.keys.as_slice()
    }

    /// The keys, in order.
    pub fn into_vec(self) -> Vec<Key>
        ensures { result.items ≡ self }
    {
        self.keys
    }
}

fn index_of(alloc: Global, keys: &[Key]) -> Result<HashSet<Key>, AllocError>
    ensures { IfOk result (IsFromIterResult eq keys.now) }
{
    keys.iter().copied().collect(alloc)
}

impl Index<usize> for KeySet {
    ghost use Rattle.std.specs.Prelude.{◌≡◌, ◌<◌, length, slice_get, Some};

    type Output = Key;

    ghost can_index = { λ s i. i < length s };

    ghost index_gives = { λ s i key. slice_get s i ≡ Some key };

    fn index(&self, index: usize) -> &Key {
        &self.keys[index]
    }
}
