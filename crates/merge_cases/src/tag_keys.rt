//! Lists of keys of tags.
ghost use Rattle.std.specs.Prelude.{◌≡◌, ◌==◌, ◌<◌, ◌++◌, ◌∷◌, [], false, length, Some, OnOk, OnErr, slice_get};
ghost use Rattle.merge_cases.specs.Keys.{is_listed};

use crate::tag_key::TagKey;
use osm_base::Text;
use std::alloc::{AllocError, Global};
use std::collections::HashSet;
use std::marker::Model;

/// Keys of tags, in the order in which they were given: none is empty, and none stands twice. A key is found among them
/// by one look-up.
#[derive(Drop)]
pub struct TagKeys {
    keys: Vec<TagKey>,
    index: HashSet<Vec<u8>>,
}

impl Model for TagKeys {
    ghost use Rattle.std.specs.Prelude.{◌≡◌, List, ℕ, T};
    ghost use Rattle.std.specs.List.{list_any};
    ghost use Rattle.osm_base.specs.Same.{same_text};
    ghost use Rattle.merge_cases.specs.Keys.{is_listed, are_tag_keys};

    ghost Value = { List (List ℕ) };

    ghost view = { λ k. k.keys.items };

    ghost invariant = { λ k. T (are_tag_keys k.keys.items) × ((key : List ℕ) → list_any (λ listed. same_text key listed.items) k.index.keys ≡ is_listed k.keys.items key) };
}

impl TagKeys {
    /// No keys. It takes no memory.
    pub fn new(alloc: Global) -> TagKeys
        ensures { result ≡ [] }
    {
        TagKeys {
            keys: Vec::new(alloc),
            index: HashSet::new(alloc),
        }
    }

    /// How many keys there are.
    pub fn len(&self) -> usize
        ensures { result ≡ length self.now }
    {
        self.as_slice().len()
    }

    /// Whether there are no keys.
    pub fn is_empty(&self) -> bool
        ensures { result ≡ (length self.now == 0) }
    {
        self.as_slice().is_empty()
    }

    /// The key at a place.
    pub fn key_at(&self, i: usize) -> &[u8]
        requires { i < length self.now }
        ensures { slice_get self.now i ≡ Some result.now }
    {
        self.as_slice()[i].as_bytes()
    }

    /// The keys, in order.
    pub fn as_slice(&self) -> &[TagKey]
        ensures { result.now ≡ self.now }
    {
        self.keys.as_slice()
    }

    /// Whether the key is listed. One look-up.
    pub fn has(&self, key: &[u8]) -> bool
        ensures { result ≡ is_listed self.now key.now }
    {
        self.index.contains(key)
    }

    /// Adds a key at the end. It must not be empty, and not be there. One look-up.
    ///
    /// # Errors
    /// No memory was left, and nothing has changed.
    pub fn push(&mut self, key: Text) -> Result<(), AllocError>
        requires named { 0 < length key }
        requires new { is_listed self.now key ≡ false }
        ensures ok { OnOk result (self.new ≡ self.old ++ key ∷ []) }
        ensures err { OnErr result (self.new ≡ self.old) }
    {
        self.keys.reserve(1)?;
        self.index
            .insert(Vec::from_slice(*self.keys.allocator(), key.as_bytes())?)?;
        match self.keys.push(TagKey::new(key)) {
            Ok(()) => Ok(()),
            Err(_) => unreachable!(),
        }
    }
}
