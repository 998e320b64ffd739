//! Entries as tables keep them.
//!
//! Most objects are as a server has them, so that mine is what the base holds. Such an entry keeps one content, and reads
//! as if it had two. All others keep their parts in a second block. Clauses see an entry in any case.
ghost use Rattle.std.specs.Prelude.{◌≡◌, None, IfOk, IsTrue, ◌↔◌};
ghost use Rattle.std.specs.Option.{option_copied};
ghost use Rattle.osm_table.specs.Kept.{entry_kept};
ghost use Rattle.osm_table.specs.Parts.{entry_lent};
ghost use Rattle.osm_table.specs.Same.{same_conflicts, same_mine, same_entry};
ghost use Rattle.osm_table.specs.Table.{base_of, conflict_of, is_incomplete, mine_of, is_living, is_changed, known_side, held_by};
ghost use Rattle.osm_table.specs.declared.entry.Entry.TheVariants.{Known};
ghost use Rattle.osm_table.specs.Told.{entry_told};

use crate::entry::{Base, Conflict, Entry};
use crate::shared::Shared;
use crate::told::Told;
use osm_base::{Content, same};
use std::alloc::{AllocError, Global};
use std::marker::Model;
use std::rc::Rc;

/// An entry in a block of its own. It is never changed, so all copies share the block: those in a told map, a draft, the
/// table and the patches that led there.
#[derive(Drop)]
pub struct SharedEntry {
    shared: Rc<Kept>,
}

/// How an entry is kept.
#[derive(Drop)]
enum Kept {
    Incomplete,
    /// Mine is what the base holds, and there is no conflict.
    Unchanged { base: Base },
    Other { parts: Box<Parts> },
}

#[derive(Drop)]
struct Parts {
    base: Base,
    mine: Option<Content>,
    conflict: Option<Shared<Conflict>>,
}

/// The parts of an entry, lent.
#[derive(Clone, Copy)]
pub enum EntryParts<'a> {
    /// It is at the server, since another object refers to it. No more is known.
    Incomplete,
    /// The state that the edits began from, the content that the user has now, and the conflict that isn't resolved yet.
    Known {
        base: &'a Base,
        mine: Option<&'a Content>,
        conflict: Option<&'a Conflict>,
    },
}

impl Model for SharedEntry {
    ghost use Rattle.osm_table.specs.Kept.{entry_kept};
    ghost use Rattle.osm_table.specs.declared.entry.Entry.{Entry};

    ghost Value = { Entry };

    ghost view = { λ e. entry_kept e.shared.value };
}

impl Clone for SharedEntry {
    ghost is_clone = { λ entry copy. copy ≡ entry };

    fn clone(&self) -> Result<SharedEntry, AllocError> {
        self.copy()
    }
}

impl SharedEntry {
    /// An entry to share. It takes one block, and a second one where the object is changed or in conflict.
    ///
    /// # Errors
    /// No memory was left.
    pub fn new(alloc: Global, entry: Entry) -> Result<SharedEntry, AllocError>
        ensures { IfOk result (λ shared. shared ≡ entry) }
    {
        match entry {
            Entry::Incomplete => shared(alloc, Kept::Incomplete),
            Entry::Known {
                base,
                mine,
                conflict,
            } => known(
                alloc,
                Parts {
                    base,
                    mine,
                    conflict,
                },
            ),
        }
    }

    /// The entry of an object of which no more is known than what is told.
    ///
    /// # Errors
    /// No memory was left.
    pub fn told(alloc: Global, told: Told) -> Result<SharedEntry, AllocError>
        ensures { IfOk result (λ shared. shared ≡ entry_told told) }
    {
        match told {
            Told::Mentioned => shared(alloc, Kept::Incomplete),
            Told::Live {
                version,
                content,
                meta,
            } => shared(
                alloc,
                Kept::Unchanged {
                    base: Base::Live {
                        version,
                        content,
                        meta,
                    },
                },
            ),
            Told::Gone { version, meta } => shared(
                alloc,
                Kept::Unchanged {
                    base: Base::Gone { version, meta },
                },
            ),
        }
    }

    /// The entry of an object whose mine is what the base holds, without a conflict. It takes one block, and copies and compares
    /// nothing.
    ///
    /// # Errors
    /// No memory was left.
    pub fn unchanged(alloc: Global, base: Base) -> Result<SharedEntry, AllocError>
        ensures { IfOk result (λ shared. shared ≡ Known base (held_by base) None) }
    {
        shared(alloc, Kept::Unchanged { base })
    }

    /// The same entry. No block is made.
    ///
    /// # Errors
    /// The count of those who share the entry is full.
    pub fn copy(&self) -> Result<SharedEntry, AllocError>
        ensures { IfOk result (λ copy. copy ≡ self.now) }
    {
        Ok(SharedEntry {
            shared: self.shared.clone()?,
        })
    }

    /// Its parts, to be told apart.
    pub fn parts(&self) -> EntryParts<'_>
        ensures { entry_lent result ≡ self.now }
    {
        match self.shared.as_ref() {
            Kept::Incomplete => EntryParts::Incomplete,
            Kept::Unchanged { base } => EntryParts::Known {
                base,
                mine: base.content(),
                conflict: None,
            },
            Kept::Other { parts } => EntryParts::Known {
                base: &parts.base,
                mine: parts.mine.as_ref(),
                conflict: lent(&parts.conflict),
            },
        }
    }

    /// An equal entry that isn't shared. Texts, lists and the conflict are, so it costs a step for each tag.
    ///
    /// # Errors
    /// No memory was left.
    pub fn to_entry(&self) -> Result<Entry, AllocError>
        ensures { IfOk result (λ entry. entry ≡ self.now) }
    {
        match self.shared.as_ref() {
            Kept::Incomplete => Ok(Entry::Incomplete),
            Kept::Unchanged { base } => known_of(base, base.content(), None),
            Kept::Other { parts } => known_of(
                &parts.base,
                parts.mine.as_ref(),
                parts.conflict.as_ref(),
            ),
        }
    }

    /// Whether no more is known than that it is at the server.
    pub fn is_incomplete(&self) -> bool
        ensures { result ≡ is_incomplete self.now }
    {
        match self.parts() {
            EntryParts::Incomplete => true,
            EntryParts::Known { .. } => false,
        }
    }

    /// The state that the edits began from: none where it is `Incomplete`.
    pub fn base(&self) -> Option<&Base>
        ensures { option_copied result ≡ base_of self.now }
    {
        match self.parts() {
            EntryParts::Incomplete => None,
            EntryParts::Known { base, .. } => Some(base),
        }
    }

    /// The conflict that isn't resolved yet.
    pub fn conflict(&self) -> Option<&Conflict>
        ensures { option_copied result ≡ conflict_of self.now }
    {
        match self.parts() {
            EntryParts::Incomplete => None,
            EntryParts::Known { conflict, .. } => conflict,
        }
    }

    /// The content that the user has now: none where the object is deleted, or `Incomplete`.
    pub fn mine(&self) -> Option<&Content>
        ensures { option_copied result ≡ mine_of self.now }
    {
        match self.parts() {
            EntryParts::Incomplete => None,
            EntryParts::Known { mine, .. } => mine,
        }
    }

    /// Whether the user has the object now.
    pub fn is_living(&self) -> bool
        ensures { result ≡ is_living self.now }
    {
        self.mine().is_some()
    }

    /// The newest state of the server that is known: the conflict's, else the base.
    pub fn known_side(&self) -> Option<&Base>
        ensures { option_copied result ≡ known_side self.now }
    {
        match self.parts() {
            EntryParts::Incomplete => None,
            EntryParts::Known { base, conflict, .. } => Some(match conflict {
                None => base,
                Some(conflict) => &conflict.theirs,
            }),
        }
    }

    /// Whether an upload has something to say of it: no server knows it, or mine differs from
    /// what the base holds.
    pub fn is_changed(&self) -> bool
        ensures { result ≡ is_changed self.now }
    {
        match self.parts() {
            EntryParts::Incomplete => false,
            EntryParts::Known { base, mine, .. } => {
                base.is_new() || !same_mine(mine, base.content())
            }
        }
    }

    /// Equality.
    pub fn same(&self, other: &SharedEntry) -> bool
        ensures value { result ≡ same_entry self.now other.now }
        ensures decides { IsTrue result ↔ (self.now ≡ other.now) }
    {
        match (self.parts(), other.parts()) {
            (EntryParts::Incomplete, EntryParts::Incomplete) => true,
            (
                EntryParts::Known {
                    base,
                    mine,
                    conflict,
                },
                EntryParts::Known {
                    base: other_base,
                    mine: other_mine,
                    conflict: other_conflict,
                },
            ) => base.same(other_base)
                && same_mine(mine, other_mine)
                && same_conflicts(conflict, other_conflict),
            _ => false,
        }
    }
}

fn shared(alloc: Global, kept: Kept) -> Result<SharedEntry, AllocError>
    ensures { IfOk result (λ shared. shared ≡ entry_kept kept) }
{
    Ok(SharedEntry {
        shared: Rc::new(alloc, kept)?,
    })
}

fn known(alloc: Global, parts: Parts) -> Result<SharedEntry, AllocError>
    ensures { IfOk result (λ shared. shared ≡ Known parts.base parts.mine parts.conflict) }
{
    if is_unchanged(&parts) {
        let Parts { base, mine, .. } = parts;
        // Let go by a call: else the code of all that it owns would be written out.
        drop(mine);
        return shared(alloc, Kept::Unchanged { base });
    }
    let parts = Box::new(alloc, parts)?;
    shared(alloc, Kept::Other { parts })
}

/// Whether mine is what the base holds, and there is no conflict.
fn is_unchanged(parts: &Parts) -> bool
    ensures { IsTrue result → (Known parts.now.base parts.now.mine parts.now.conflict ≡ Known parts.now.base (held_by parts.now.base) None) }
{
    parts.conflict.is_none() && same_mine(parts.mine.as_ref(), parts.base.content())
}

fn lent(conflict: &Option<Shared<Conflict>>) -> Option<&Conflict>
    ensures { option_copied result ≡ conflict.now }
{
    match conflict {
        None => None,
        Some(conflict) => Some(conflict.value()),
    }
}

/// An entry with copies of a base, a mine and a conflict.
fn known_of(
    base: &Base,
    mine: Option<&Content>,
    conflict: Option<&Shared<Conflict>>,
) -> Result<Entry, AllocError>
    ensures { IfOk result (λ entry. entry ≡ Known base.now (option_copied mine.entry) (option_copied conflict.entry)) }
{
    let conflict = copy_conflict(conflict)?;
    let mine = copy_mine(mine)?;
    match base.copy() {
        Ok(base) => Ok(Entry::Known {
            base,
            mine,
            conflict,
        }),
        Err(refused) => {
            // Let go by calls: else the code of all that they own would be written out.
            drop(mine);
            drop(conflict);
            Err(refused)
        }
    }
}

fn copy_mine(mine: Option<&Content>) -> Result<Option<Content>, AllocError>
    ensures { IfOk result (λ copy. copy ≡ option_copied mine.entry) }
{
    match mine {
        None => Ok(None),
        Some(content) => Ok(Some(content.copy()?)),
    }
}

fn copy_conflict(
    conflict: Option<&Shared<Conflict>>,
) -> Result<Option<Shared<Conflict>>, AllocError>
    ensures { IfOk result (λ copy. copy ≡ option_copied conflict.entry) }
{
    match conflict {
        None => Ok(None),
        Some(conflict) => Ok(Some(conflict.copy()?)),
    }
}

/// Whether both or neither are living, with the same content.
pub fn same_mine(a: Option<&Content>, b: Option<&Content>) -> bool
    ensures value { result ≡ same_mine (option_copied a.entry) (option_copied b.entry) }
    ensures decides { IsTrue result ↔ (option_copied a.entry ≡ option_copied b.entry) }
{
    match (a, b) {
        (None, None) => true,
        (Some(a), Some(b)) => same(a, b),
        _ => false,
    }
}

fn same_conflicts(a: Option<&Conflict>, b: Option<&Conflict>) -> bool
    ensures value { result ≡ same_conflicts (option_copied a.entry) (option_copied b.entry) }
    ensures decides { IsTrue result ↔ (option_copied a.entry ≡ option_copied b.entry) }
{
    match (a, b) {
        (None, None) => true,
        (Some(a), Some(b)) => a.same(b),
        _ => false,
    }
}
