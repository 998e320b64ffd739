//! Values that stand in several places at once.
ghost use Rattle.std.specs.Prelude.{◌≡◌, IfOk};

use std::alloc::{AllocError, Global};
use std::marker::Model;
use std::rc::Rc;

/// A value in a block of its own. It is never changed, so all copies share the block. Clauses see it as the value.
#[derive(Drop)]
pub struct Shared<T> {
    shared: Rc<T>,
}

impl<T> Model for Shared<T> {
    ghost Value = { T };

    ghost view = { λ s. s.shared.value };
}

impl<T: Drop> Shared<T> {
    /// A value to share. It takes one block.
    ///
    /// # Errors
    /// No memory was left.
    pub fn new(alloc: Global, value: T) -> Result<Shared<T>, AllocError>
        ensures { IfOk result (λ shared. shared ≡ value) }
    {
        Ok(Shared {
            shared: Rc::new(alloc, value)?,
        })
    }

    /// The value.
    pub fn value(&self) -> &T
        ensures { result.now ≡ self.now }
    {
        self.shared.as_ref()
    }

    /// The same value. No block is made.
    ///
    /// # Errors
    /// The count of those who share the value is full.
    pub fn copy(&self) -> Result<Shared<T>, AllocError>
        ensures { IfOk result (λ copy. copy ≡ self.now) }
    {
        Ok(Shared {
            shared: self.shared.clone()?,
        })
    }
}
