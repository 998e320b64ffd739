//! Sets of keys.
ghost use Rattle.std.specs.Prelude.{◌≡◌, [], OnOk, OnErr};
ghost use Rattle.download.specs.Filter.{among};
ghost use Rattle.download.specs.FilterCode.{with_key};

use indexmap::IndexSet;
use osm_base::Key;
use std::alloc::{AllocError, Global};
use std::marker::Model;

/// A set of keys. Clauses see the list of its keys, in the order in which they came.
#[derive(Drop)]
pub struct KeySet {
    keys: IndexSet<Key>,
}

impl Model for KeySet {
    ghost use Rattle.std.specs.Prelude.{List};
    ghost use Rattle.osm_base.specs.declared.key.Key.{Key};

    ghost Value = { List Key };

    ghost view = { λ s. s.keys.keys };
}

impl KeySet {
    /// No key. It takes no memory.
    pub fn new(alloc: Global) -> KeySet
        ensures { result ≡ [] }
    {
        KeySet {
            keys: IndexSet::new(alloc),
        }
    }

    /// Puts a key in, where it isn't in yet.
    ///
    /// # Errors
    /// No memory was left, and nothing has changed.
    pub fn put(&mut self, key: Key) -> Result<(), AllocError>
        ensures ok { OnOk result (self.new ≡ with_key self.old key) }
        ensures err { OnErr result (self.new ≡ self.old) }
    {
        self.keys.insert(key)?;
        Ok(())
    }

    /// Whether a key is in it. One look-up.
    #[tactic(auto, using(crate::proofs::Sets::any_same))]
    pub fn contains(&self, key: Key) -> bool
        ensures { result ≡ among self.now key }
    {
        self.keys.contains(&key)
    }
}
