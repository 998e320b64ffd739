//! Which line may stand where.

use crate::words::Words;
use osm_base::{Content, Key};
use osm_table::{Base, SharedEntry, Why};

/// What is awaited of the next line.
#[derive(Drop)]
pub enum Place {
    /// An entry whose key is behind this one, or the end.
    Head {
        last: Option<Key>,
    },
    /// The line of a base.
    Base {
        key: Key,
        words: Words,
    },
    /// The line of mine.
    Mine {
        key: Key,
        base: Base,
        why: Option<Why>,
    },
    /// The line of theirs.
    Theirs {
        key: Key,
        base: Base,
        mine: Option<Content>,
        why: Why,
    },
    /// Nothing: the session has ended.
    Behind,
}

/// A key with what is known of it, as tables keep it.
pub type SavedEntry = (Key, SharedEntry);

/// What a line makes: where the next one stands, and an entry if it ended one.
#[derive(Drop)]
pub struct Step {
    pub place: Place,
    pub entry: Option<SavedEntry>,
}
