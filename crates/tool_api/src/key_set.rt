//! Lists of keys in which a key is found without a walk.
ghost use Rattle.std.specs.Prelude.{◌≡◌, ◌++◌, ◌∷◌, [], if◌then◌else◌, IfOk, OnOk, OnErr};
ghost use Rattle.tool_api.specs.Checks.{is_named};

use osm_base::Key;
use std::alloc::{AllocError, Global};
use std::marker::Model;

/// A list of keys that knows at once whether a key is one of them: the set of `closure`, in the words of jobs.
///
/// Clauses see it as the list.
#[derive(Drop)]
pub struct KeySet {
    keys: closure::KeySet,
}

impl Model for KeySet {
    ghost use Rattle.std.specs.Prelude.{List};
    ghost use Rattle.osm_base.specs.declared.key.Key.{Key};

    ghost Value = { List Key };

    ghost view = { λ s. s.keys };
}

impl KeySet {
    /// No keys. It takes no memory.
    pub fn new(alloc: Global) -> KeySet
        ensures { result ≡ [] }
    {
        KeySet {
            keys: closure::KeySet::new(alloc),
        }
    }

    /// These keys. The vector is kept as it is, and each key hashed once.
    ///
    /// # Errors
    /// No memory was left.
    pub fn from_vec(keys: Vec<Key>) -> Result<KeySet, AllocError>
        ensures { IfOk result (λ set. set ≡ keys.items) }
    {
        let keys = closure::KeySet::from_vec(keys)?;
        Ok(KeySet { keys })
    }

    /// A copy of these keys. Each is hashed once.
    ///
    /// # Errors
    /// No memory was left.
    pub fn from_slice(alloc: Global, keys: &[Key]) -> Result<KeySet, AllocError>
        ensures { IfOk result (λ set. set ≡ keys.now) }
    {
        let keys = closure::KeySet::from_slice(alloc, keys)?;
        Ok(KeySet { keys })
    }

    /// The allocator that it takes its memory from.
    pub fn alloc(&self) -> Global {
        self.keys.alloc()
    }

    /// Whether the key is one of those. One look-up.
    pub fn contains(&self, key: Key) -> bool
        ensures { result ≡ is_named self.now key }
    {
        self.keys.contains(key)
    }

    /// Puts a key at the end, unless it is one of those already. One look-up.
    ///
    /// # Errors
    /// No memory was left, and nothing has changed.
    pub fn put(&mut self, key: Key) -> Result<(), AllocError>
        ensures ok { OnOk result (self.new ≡ (if is_named self.old key then self.old else self.old ++ key ∷ [])) }
        ensures err { OnErr result (self.new ≡ self.old) }
    {
        self.keys.put(key)?;
        Ok(())
    }

    /// The keys, in order.
    pub fn as_slice(&self) -> &[Key]
        ensures { result.now ≡ self.now }
    {
        self.keys.as_slice()
    }
}
