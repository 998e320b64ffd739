//! What an upload sends.
ghost use Rattle.std.specs.Prelude.{◌≡◌, ◌<◌, ◌++◌, ◌∷◌, [], length, slice_get, Some, OnOk, OnErr};

use osm_base::{Content, Key};
use std::alloc::{AllocError, Global};
use std::marker::Model;

/// One change of an object at a server (API 0.6). A server takes a modify or a delete only where it names the version that
/// the object has there.
#[derive(Drop)]
pub enum Change {
    /// The object is made. The server picks its id and gives it the version 1; the key is a placeholder.
    Create {
        key: Key,
        content: Content,
    },
    /// The object gets a content, and the next version.
    Modify {
        key: Key,
        version: u32,
        content: Content,
    },
    /// The object goes.
    Delete {
        key: Key,
        version: u32,
    },
}

/// Changes, in the order in which they are sent.
#[derive(Drop)]
pub struct Changes {
    items: Vec<Change>,
}

impl Model for Changes {
    ghost use Rattle.std.specs.Prelude.{List};
    ghost use Rattle.upload_order.specs.declared.change.Change.{Change};

    ghost Value = { List Change };

    ghost view = { λ c. c.items.items };
}

impl Changes {
    /// No changes. It takes no memory.
    pub fn new(alloc: Global) -> Changes
        ensures { result ≡ [] }
    {
        Changes {
            items: Vec::new(alloc),
        }
    }

    /// Adds a change at the end.
    ///
    /// # Errors
    /// No memory was left, and nothing has changed.
    pub fn push(&mut self, change: Change) -> Result<(), AllocError>
        ensures ok { OnOk result (self.new ≡ self.old ++ change ∷ []) }
        ensures err { OnErr result (self.new ≡ self.old) }
    {
        self.items.push(change)?;
        Ok(())
    }

    /// How many changes there are.
    pub fn len(&self) -> usize
        ensures { result ≡ length self.now }
    {
        self.items.len()
    }

    /// The changes, in order.
    pub fn as_slice(&self) -> &[Change]
        ensures { result.now ≡ self.now }
    {
        self.items.as_slice()
    }

    /// The change at a place, counted from 0.
    pub fn change_at(&self, at: usize) -> &Change
        requires { at < length self.now }
        ensures { slice_get self.now at ≡ Some result.now }
    {
        &self.items[at]
    }

    /// The allocator that it takes its memory from.
    pub fn alloc(&self) -> Global {
        *self.items.allocator()
    }
}
