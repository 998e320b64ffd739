//! What an upload does with an object, told by its entry.
ghost use Rattle.std.specs.Prelude.{◌≡◌, false, not, is_some};
ghost use Rattle.std.specs.Option.{option_copied};
ghost use Rattle.osm_table.specs.Table.{is_incomplete, mine_of};
ghost use Rattle.upload_order.specs.Kinds.{at_key, held_at, is_rising, is_update, is_falling, is_sent};

use dataset::DataSet;
use osm_base::{Content, Key, same};
use osm_table::{Base, EntryParts, SharedEntry};

/// Whether an object is made: it is new, or the server deleted it and it lives.
pub fn is_rising(entry: &SharedEntry) -> bool
    ensures { result ≡ is_rising entry.now }
{
    match entry.parts() {
        EntryParts::Incomplete => false,
        EntryParts::Known { base, mine, .. } => match base {
            Base::New => true,
            Base::Live { .. } => false,
            Base::Gone { .. } => mine.is_some(),
        },
    }
}

/// Whether an object is changed: the server has it, and it lives with another content.
pub fn is_update(entry: &SharedEntry) -> bool
    ensures { result ≡ is_update entry.now }
{
    match entry.parts() {
        EntryParts::Incomplete => false,
        EntryParts::Known { base, mine, .. } => match base {
            Base::New => false,
            Base::Live { content, .. } => match mine {
                None => false,
                Some(mine) => !same(mine, content),
            },
            Base::Gone { .. } => false,
        },
    }
}

/// Whether an object is deleted: the server has it, and it doesn't live.
pub fn is_falling(entry: &SharedEntry) -> bool
    ensures { result ≡ is_falling entry.now }
{
    match entry.parts() {
        EntryParts::Incomplete => false,
        EntryParts::Known { base, mine, .. } => match base {
            Base::New => false,
            Base::Live { .. } => mine.is_none(),
            Base::Gone { .. } => false,
        },
    }
}

/// Whether a content of the object is sent.
pub fn is_sent(entry: &SharedEntry) -> bool
    ensures { result ≡ is_sent entry.now }
{
    is_rising(entry) || is_update(entry)
}

/// What the base of an entry holds.
pub fn held_at(entry: Option<&SharedEntry>) -> Option<&Content>
    ensures { option_copied result ≡ held_at (option_copied entry.entry) }
{
    let Some(entry) = entry else {
        return None;
    };
    match entry.parts() {
        EntryParts::Incomplete => None,
        EntryParts::Known { base, .. } => base.content(),
    }
}

/// Whether no more is known of a key than that it is at the server.
pub fn is_incomplete(ds: &DataSet, key: Key) -> bool
    ensures { result ≡ at_key ds.now is_incomplete key }
{
    match ds.entry(key) {
        None => false,
        Some(entry) => entry.is_incomplete(),
    }
}
