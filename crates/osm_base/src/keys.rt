//! Lists of keys.
ghost use Rattle.std.specs.Prelude.{◌≡◌, ◌++◌, ◌∷◌, [], length, OnOk, OnErr, IfOk};

use crate::key::Key;
use std::alloc::{AllocError, Global};
use std::marker::Model;

/// A list of keys.
#[derive(Drop)]
pub struct Keys {
    items: Vec<Key>,
}

impl Model for Keys {
    ghost use Rattle.std.specs.Prelude.{List};
    ghost use Rattle.osm_base.specs.declared.key.Key.{Key};

    ghost Value = { List Key };

    ghost view = { λ k. k.items.items };
}

impl Keys {
    /// The list without keys. It takes no memory.
    pub fn new(alloc: Global) -> Self
        ensures { result ≡ [] }
    {
        Keys {
            items: Vec::new(alloc),
        }
    }

    /// These keys. The vector is kept as it is, so nothing is copied.
    pub fn from_vec(items: Vec<Key>) -> Self
        ensures { result ≡ items.items }
    {
        Keys { items }
    }

    /// How many keys there are.
    pub fn len(&self) -> usize
        ensures { result ≡ length self.now }
    {
        self.items.len()
    }

    /// The keys, in order.
    pub fn as_slice(&self) -> &[Key]
        ensures { result.now ≡ self.now }
    {
        self.items.as_slice()
    }

    /// Adds a key at the end.
    ///
    /// # Errors
    /// No memory was left, and nothing has changed.
    pub fn push(&mut self, key: Key) -> Result<(), AllocError>
        ensures ok { OnOk result (self.new ≡ self.old ++ key ∷ []) }
        ensures err { OnErr result (self.new ≡ self.old) }
    {
        self.items.push(key)?;
        Ok(())
    }

    /// An equal list, in one block of its own.
    ///
    /// # Errors
    /// No memory was left.
    pub fn copy(&self) -> Result<Keys, AllocError>
        ensures { IfOk result (λ keys. keys ≡ self.now) }
    {
        Ok(Keys {
            items: Vec::from_slice(*self.items.allocator(), &self.items)?,
        })
    }
}
