//! The nodes of a way.
ghost use Rattle.std.specs.Prelude.{◌≡◌, ◌++◌, ◌∷◌, [], OnOk, OnErr, IfOk, IsTrue, ◌↔◌};
ghost use Rattle.osm_base.specs.Same.{same_refs};

use std::alloc::{AllocError, Global};
use std::marker::Model;
use std::rc::Rc;

/// The ids of a way's nodes, in order.
///
/// Copies share one list until one of them is changed. An empty list has a block too, so that there
/// is no option here and a list takes 8 bytes where it is kept.
#[derive(Drop)]
pub struct Refs {
    shared: Rc<Vec<i64>>,
}

impl Model for Refs {
    ghost use Rattle.std.specs.Prelude.{List, ℤ};

    ghost Value = { List ℤ };

    ghost view = { λ r. r.shared.value.items };
}

impl Refs {
    /// The list without nodes. It takes a block.
    ///
    /// # Errors
    /// No memory was left.
    pub fn new(alloc: Global) -> Result<Self, AllocError>
        ensures { IfOk result (λ refs. refs ≡ []) }
    {
        Refs::from_vec(Vec::new(alloc))
    }

    /// The list without nodes, with room for so many.
    ///
    /// # Errors
    /// No memory was left.
    pub fn with_capacity(alloc: Global, capacity: usize) -> Result<Self, AllocError>
        ensures { IfOk result (λ refs. refs ≡ []) }
    {
        Refs::from_vec(Vec::with_capacity(alloc, capacity)?)
    }

    /// The nodes with these ids. The vector is kept as it is, so nothing is copied.
    ///
    /// # Errors
    /// No memory was left.
    pub fn from_vec(ids: Vec<i64>) -> Result<Self, AllocError>
        ensures { IfOk result (λ refs. refs ≡ ids.items) }
    {
        Ok(Refs {
            shared: Rc::new(*ids.allocator(), ids)?,
        })
    }

    /// Adds a node at the end. A list that others share is copied first.
    ///
    /// # Errors
    /// No memory was left, and nothing has changed.
    #[tactic(auto, using(crate::proofs::Cloned::kept_or_cloned))]
    pub fn push(&mut self, id: i64) -> Result<(), AllocError>
        ensures ok { OnOk result (self.new ≡ self.old ++ id ∷ []) }
        ensures err { OnErr result (self.new ≡ self.old) }
    {
        Rc::make_mut(&mut self.shared)?.push(id)?;
        Ok(())
    }

    /// The ids, in order.
    pub fn as_slice(&self) -> &[i64]
        ensures { result.now ≡ self.now }
    {
        self.shared.as_slice()
    }

    /// An equal list. It shares the ids, so no block is made.
    ///
    /// # Errors
    /// The count of those who share the list is full.
    pub fn copy(&self) -> Result<Refs, AllocError>
        ensures { IfOk result (λ refs. refs ≡ self.now) }
    {
        Ok(Refs {
            shared: self.shared.clone()?,
        })
    }

    /// Whether the lists are equal. It walks them up to the first difference.
    pub fn same(&self, other: &Refs) -> bool
        ensures value { result ≡ same_refs self.now other.now }
        ensures decides { IsTrue result ↔ (self.now ≡ other.now) }
    {
        self.as_slice() == other.as_slice()
    }
}
