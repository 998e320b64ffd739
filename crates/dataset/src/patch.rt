//! The difference of two tables.
ghost use Rattle.std.specs.Prelude.{◌≡◌, IfOk};
ghost use Rattle.dataset.specs.Patch.{IsPatch};
ghost use Rattle.dataset.specs.PatchKept.{edits_kept, edits_told};

use crate::difference::told_edits;
use crate::edit::Edit;
use osm_table::{Shared, ToldMap};
use std::alloc::AllocError;
use std::marker::Model;

/// Edits by rank, each of another key and of an entry that changes, and the numbers of the next new
/// object before and after.
///
/// Where nothing was known and all that a download tells comes, it keeps what is told in place of a
/// list, shared with the job and the table, and takes no memory of its own.
#[derive(Drop)]
pub struct Patch {
    edits: Edits,
    next_before: u64,
    next_after: u64,
}

/// The edits of a patch as they are kept.
#[derive(Drop)]
pub(crate) enum Edits {
    Listed(Vec<Edit>),
    /// The key of all that is told comes.
    Told { told: Shared<ToldMap> },
}

impl Model for Patch {
    ghost use Rattle.dataset.specs.Patch.{PatchValue, IsPatch};
    ghost use Rattle.dataset.specs.PatchKept.{edits_kept};

    ghost Value = { PatchValue };

    ghost view = { λ p. record { edits = edits_kept p.edits; next_before = p.next_before; next_after = p.next_after } };

    ghost invariant = { λ p. IsPatch (record { edits = edits_kept p.edits; next_before = p.next_before; next_after = p.next_after }) };
}

impl Patch {
    /// Edits that were listed.
    pub(crate) fn listed(edits: Vec<Edit>, next_before: u64, next_after: u64) -> Patch
        requires { IsPatch (record { edits = edits.items; next_before = next_before; next_after = next_after }) }
        ensures { result ≡ record { edits = edits.items; next_before = next_before; next_after = next_after } }
    {
        Patch {
            edits: Edits::Listed(edits),
            next_before,
            next_after,
        }
    }

    /// All that is told comes, and no new object.
    pub(crate) fn told(told: Shared<ToldMap>, next: u64) -> Patch
        ensures { result ≡ record { edits = edits_told told.told; next_before = next; next_after = next } }
    {
        Patch {
            edits: Edits::Told { told },
            next_before: next,
            next_after: next,
        }
    }

    /// The edits by rank. It makes a list of them that shares their entries: one pass, or where all
    /// that is told comes one sort of its keys.
    ///
    /// # Errors
    ///
    /// Where no memory is found.
    pub fn edits(&self) -> Result<Vec<Edit>, AllocError>
        ensures { IfOk result (λ edits. edits.items ≡ self.now.edits) }
    {
        match &self.edits {
            Edits::Listed(edits) => edits.clone(),
            Edits::Told { told } => told_edits(told.value()),
        }
    }

    /// The number of the next new object before the patch.
    pub fn next_before(&self) -> u64
        ensures { result ≡ self.now.next_before }
    {
        self.next_before
    }

    /// The number of the next new object after the patch.
    pub fn next_after(&self) -> u64
        ensures { result ≡ self.now.next_after }
    {
        self.next_after
    }

    /// The edits as they are kept.
    pub(crate) fn kept(&self) -> &Edits
        ensures value { edits_kept result.now ≡ self.now.edits }
        ensures patch { IsPatch self.now }
    {
        &self.edits
    }
}
