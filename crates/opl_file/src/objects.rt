//! The objects of a file.
//!
//! They lie in batches, one behind the other, so that who uses them up gives their memory back batch by batch, and what is
//! made of the first serves itself from it: a list in one block would stay whole until its last object is used.
ghost use Rattle.std.specs.Prelude.{◌≡◌, ◌∷◌, ◌++◌, [], false, MatchOption, OnOk, OnErr};

use opl_line::OplObject;
use std::alloc::{AllocError, Global};
use std::marker::Model;

/// How many objects a batch has at most. An object takes 88 bytes, so that a full batch stays below the 128 KiB from which
/// on glibc maps a block by itself: what a batch gives back serves the next blocks that are asked for.
const BATCH_LENGTH: usize = 1024;

/// Objects of distinct keys, in the order of their lines.
#[derive(Drop)]
pub struct Objects {
    batches: Vec<Vec<OplObject>>,
}

impl Model for Objects {
    ghost use Rattle.std.specs.Prelude.{◌<◌, length, List};
    ghost use Rattle.std.specs.List.{AllByRecursion};
    ghost use Rattle.opl_line.specs.declared.object.OplObject.{OplObject};
    ghost use Rattle.opl_file.specs.Objects.{objects_in};

    ghost Value = { List OplObject };

    ghost view = { λ objects. objects_in objects.batches.items };

    // No batch is empty.
    ghost invariant = { λ objects. AllByRecursion (λ batch. 0 < length batch.items) objects.batches.items };
}

impl Objects {
    ghost use Rattle.std.specs.Prelude.{List};
    ghost use Rattle.opl_line.specs.declared.object.OplObject.{OplObject};
    ghost use Rattle.opl_file.specs.Objects.{has_key, objects_in};

    /// No object.
    pub fn new(alloc: Global) -> Objects
        ensures { result ≡ [] }
    {
        Objects {
            batches: Vec::new(alloc),
        }
    }

    /// Adds an object at the end.
    ///
    /// # Errors
    ///
    /// Want of memory; the list is then as it was.
    pub fn push(&mut self, object: OplObject) -> Result<(), AllocError>
        requires { has_key self.old object.key ≡ false }
        ensures ok { OnOk result (self.new ≡ self.old ++ object ∷ []) }
        ensures err { OnErr result (self.new ≡ self.old) }
    {
        match self.batches.last_mut() {
            Some(batch) if batch.len() < BATCH_LENGTH => {
                batch.push(object)?;
                Ok(())
            }
            _ => self.begin(object),
        }
    }

    // Begins a batch with an object. The first batch grows as it fills, so that few objects take little; each later one gets
    // all its room at once.
    fn begin(&mut self, object: OplObject) -> Result<(), AllocError>
        ensures ok { OnOk result (self.new ≡ self.old ++ object ∷ []) }
        ensures err { OnErr result (self.new ≡ self.old) }
    {
        let alloc = *self.batches.allocator();
        let mut batch = Vec::new(alloc);
        if !self.batches.is_empty() {
            batch.reserve_exact(BATCH_LENGTH)?;
        }
        batch.push(object)?;
        self.batches.push(batch)?;
        Ok(())
    }

    /// The last object.
    pub fn last(&self) -> Option<&OplObject>
        ensures { MatchOption result (self.now ≡ []) (λ last. (front : List OplObject) × (self.now ≡ front ++ last.now ∷ [])) }
    {
        self.batches.last()?.last()
    }

    /// The objects in order, batch behind batch.
    pub fn batches(&self) -> &[Vec<OplObject>]
        ensures { objects_in result.now ≡ self.now }
    {
        &self.batches
    }

    /// The objects in order, batch behind batch. Who goes over the batches by value frees each as it was used up.
    pub fn into_batches(self) -> Vec<Vec<OplObject>>
        ensures { objects_in result.items ≡ self }
    {
        self.batches
    }
}
