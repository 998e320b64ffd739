//! Sets of keys by rank.
ghost use Rattle.std.specs.Prelude.{◌≡◌, [], OnOk, if◌then◌else◌};
ghost use Rattle.osm_base.specs.RisingKeys.{is_in, with_key, without_key};
ghost use Rattle.upload_order.specs.First.{first, rest};

use osm_base::Key;
use std::alloc::{AllocError, Global};
use std::collections::BTreeSet;
use std::marker::Model;

/// Keys by rank, each once.
#[derive(Drop)]
pub struct RankSet {
    keys: BTreeSet<Key>,
}

impl Model for RankSet {
    ghost use Rattle.std.specs.Prelude.{List, T};
    ghost use Rattle.osm_base.specs.declared.key.Key.{Key};
    ghost use Rattle.osm_base.specs.RisingKeys.{rises};

    ghost Value = { List Key };

    ghost view = { λ s. s.keys.keys };

    ghost invariant = { λ s. T (rises s.keys.keys) };
}

impl RankSet {
    /// No keys. It takes no memory.
    pub fn new(alloc: Global) -> RankSet
        ensures { result ≡ [] }
    {
        RankSet {
            keys: BTreeSet::new(alloc),
        }
    }

    /// Adds a key.
    ///
    /// # Errors
    /// No memory was left.
    pub fn put(&mut self, key: Key) -> Result<(), AllocError>
        ensures { OnOk result (self.new ≡ with_key key self.old) }
    {
        self.keys.insert(key)?;
        Ok(())
    }

    /// Adds a key, if a test says so.
    ///
    /// # Errors
    /// No memory was left.
    pub fn put_if(&mut self, key: Key, test: bool) -> Result<(), AllocError>
        ensures { OnOk result (self.new ≡ (if test then with_key key self.old else self.old)) }
    {
        if test { self.put(key) } else { Ok(()) }
    }

    /// Whether a key is one of them.
    pub fn contains(&self, key: Key) -> bool
        ensures { result ≡ is_in key self.now }
    {
        self.keys.contains(&key)
    }

    /// Takes a key out, and says whether it was there.
    pub fn remove(&mut self, key: Key) -> bool
        ensures was { result ≡ is_in key self.old }
        ensures without { self.new ≡ without_key key self.old }
    {
        self.keys.remove(&key)
    }

    /// Takes the least out.
    pub fn pop(&mut self) -> Option<Key>
        ensures first { result ≡ first self.old }
        ensures rest { self.new ≡ rest self.old }
    {
        self.keys.pop_first()
    }
}
