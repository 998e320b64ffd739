//! Contents and entries whose references were renamed.
ghost use Rattle.std.specs.Prelude.{◌≡◌};
ghost use Rattle.std.specs.Option.{option_map};
ghost use Rattle.renamed_content.specs.Renamed.{renamed};
ghost use Rattle.placeholder.specs.Confirmed.{moved};
ghost use Rattle.placeholder.specs.Drafting.{Gives, with_mine};

use osm_base::{Content, Key, same_key};
use osm_table::{Entry, SharedEntry};
use renamed_content::Renaming;
use std::alloc::{AllocError, Global};

/// The object of a placeholder got an id, by which it is called from now on.
#[derive(Drop)]
struct GivenId {
    placeholder: Key,
    id: i64,
}

fn moved_id(key: Key, placeholder: Key, id: i64) -> i64
    ensures { result ≡ (moved placeholder id key).id }
{
    if key.id <= 0 && same_key(key, placeholder) {
        id
    } else {
        key.id
    }
}

impl Renaming for GivenId {
    ghost key_named = { λ given. moved given.placeholder given.id };

    fn key(&self, key: Key) -> Key {
        Key {
            kind: key.kind,
            id: moved_id(key, self.placeholder, self.id),
        }
    }
}

/// The content with its references renamed. Costs its references.
///
/// # Errors
/// No memory was left.
pub fn renamed(
    alloc: Global,
    content: &Content,
    placeholder: Key,
    id: i64,
) -> Result<Content, AllocError>
    ensures { Gives result (renamed (moved placeholder id) content.now) }
{
    renamed_content::renamed(alloc, content, &GivenId { placeholder, id })
}

/// The entry with the references of its content renamed.
///
/// # Errors
/// No memory was left.
pub fn with_mine(
    alloc: Global,
    entry: &SharedEntry,
    placeholder: Key,
    id: i64,
) -> Result<Entry, AllocError>
    ensures { Gives result (with_mine (moved placeholder id) entry.now) }
{
    match entry.to_entry()? {
        Entry::Incomplete => Ok(Entry::Incomplete),
        Entry::Known {
            base,
            mine,
            conflict,
        } => Ok(Entry::Known {
            base,
            mine: renamed_mine(alloc, mine, placeholder, id)?,
            conflict,
        }),
    }
}

fn renamed_mine(
    alloc: Global,
    mine: Option<Content>,
    placeholder: Key,
    id: i64,
) -> Result<Option<Content>, AllocError>
    ensures { Gives result (option_map (renamed (moved placeholder id)) mine) }
{
    match mine {
        None => Ok(None),
        Some(content) => Ok(Some(renamed(alloc, &content, placeholder, id)?)),
    }
}
