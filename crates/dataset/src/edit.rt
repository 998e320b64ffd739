//! The change of one entry.
ghost use Rattle.std.specs.Prelude.{◌≡◌, Some, None, IfOk};
ghost use Rattle.std.specs.Option.{option_copied};
ghost use Rattle.dataset.specs.Sides.{side};

use osm_base::{Key, Kind};
use osm_table::{Shared, SharedEntry};
use std::alloc::{AllocError, Global};
use std::marker::Model;

/// The change of one entry: what its key had, and what it gets. None is a key that isn't in the table.
///
/// Most edits of a large job bring a new object, and such a one takes 24 bytes.
#[derive(Drop)]
pub struct Edit {
    kept: Kept,
}

/// An edit as it is kept. The key stands in its two parts, since then its kind lies beside the tag.
#[derive(Drop)]
enum Kept {
    Comes {
        kind: Kind,
        id: i64,
        after: SharedEntry,
    },
    Goes {
        kind: Kind,
        id: i64,
        before: SharedEntry,
    },
    Changes {
        kind: Kind,
        id: i64,
        entries: Shared<Entries>,
    },
}

/// The two entries of an edit whose key stays.
#[derive(Drop)]
struct Entries {
    before: SharedEntry,
    after: SharedEntry,
}

impl Model for Edit {
    ghost use Rattle.dataset.specs.Edit.{Edit, edit_kept};

    ghost Value = { Edit };

    ghost view = { λ e. edit_kept e.kept };
}

impl Clone for Edit {
    ghost is_clone = { λ edit copy. copy ≡ edit };

    fn clone(&self) -> Result<Edit, AllocError> {
        self.copy()
    }
}

impl Edit {
    /// The same edit. It shares the entries, so no block is made.
    ///
    /// # Errors
    ///
    /// The count of those who share an entry is full.
    pub fn copy(&self) -> Result<Edit, AllocError>
        ensures { IfOk result (λ copy. copy ≡ self.now) }
    {
        let kept = match &self.kept {
            Kept::Comes { kind, id, after } => Kept::Comes {
                kind: *kind,
                id: *id,
                after: after.copy()?,
            },
            Kept::Goes { kind, id, before } => Kept::Goes {
                kind: *kind,
                id: *id,
                before: before.copy()?,
            },
            Kept::Changes { kind, id, entries } => Kept::Changes {
                kind: *kind,
                id: *id,
                entries: entries.copy()?,
            },
        };
        Ok(Edit { kept })
    }

    /// A key comes.
    pub(crate) fn comes(key: Key, after: SharedEntry) -> Edit
        ensures { result ≡ record { key = key; before = None; after = Some after } }
    {
        Edit {
            kept: Kept::Comes {
                kind: key.kind,
                id: key.id,
                after,
            },
        }
    }

    /// A key goes.
    pub(crate) fn goes(key: Key, before: SharedEntry) -> Edit
        ensures { result ≡ record { key = key; before = Some before; after = None } }
    {
        Edit {
            kept: Kept::Goes {
                kind: key.kind,
                id: key.id,
                before,
            },
        }
    }

    /// A key gets another entry. It takes a block.
    ///
    /// # Errors
    ///
    /// Where no memory is found.
    pub(crate) fn changes(
        alloc: Global,
        key: Key,
        before: SharedEntry,
        after: SharedEntry,
    ) -> Result<Edit, AllocError>
        ensures { IfOk result (λ edit. edit ≡ record { key = key; before = Some before; after = Some after }) }
    {
        Ok(Edit {
            kept: Kept::Changes {
                kind: key.kind,
                id: key.id,
                entries: Shared::new(alloc, Entries { before, after })?,
            },
        })
    }

    /// The key.
    pub fn key(&self) -> Key
        ensures { result ≡ self.now.key }
    {
        match &self.kept {
            Kept::Comes { kind, id, .. } => Key {
                kind: *kind,
                id: *id,
            },
            Kept::Goes { kind, id, .. } => Key {
                kind: *kind,
                id: *id,
            },
            Kept::Changes { kind, id, .. } => Key {
                kind: *kind,
                id: *id,
            },
        }
    }

    /// What the key had.
    pub fn before(&self) -> Option<&SharedEntry>
        ensures { option_copied result ≡ self.now.before }
    {
        match &self.kept {
            Kept::Comes { .. } => None,
            Kept::Goes { before, .. } => Some(before),
            Kept::Changes { entries, .. } => Some(&entries.value().before),
        }
    }

    /// What the key gets.
    pub fn after(&self) -> Option<&SharedEntry>
        ensures { option_copied result ≡ self.now.after }
    {
        match &self.kept {
            Kept::Comes { after, .. } => Some(after),
            Kept::Goes { .. } => None,
            Kept::Changes { entries, .. } => Some(&entries.value().after),
        }
    }

    /// One side of it: what comes with `forth`, else what was.
    pub(crate) fn side(&self, forth: bool) -> Option<&SharedEntry>
        ensures { option_copied result ≡ side forth self.now }
    {
        if forth { self.after() } else { self.before() }
    }
}
