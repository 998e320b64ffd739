//! A draft that takes answers.
ghost use Rattle.std.specs.Prelude.{◌≡◌, Some};
ghost use Rattle.osm_table.specs.Table.{with_entry, without_entry};
ghost use Rattle.dataset.specs.Draft.{drafted};
ghost use Rattle.placeholder.specs.Confirmed.{based_on, made_entry, moved};
ghost use Rattle.placeholder.specs.Drafting.{DraftsTable, Gives, all_moved, answered_by, changed, deleted, drafted_entry, drafted_mine, made, mine_moved, sent_content};

use crate::answer::Answer;
use crate::renaming::{renamed, with_mine};
use dataset::{DataSet, Draft};
use osm_base::{Content, Key, Members, Meta, Tags};
use osm_table::{Base, Entry, SharedEntry};
use std::alloc::{AllocError, Global};

/// With one entry set.
fn with_entry(mut draft: Draft, ds: &DataSet, key: Key, entry: Entry) -> Result<Draft, AllocError>
    ensures { DraftsTable ds.now result (with_entry (drafted draft ds.now) key entry) }
{
    draft.put(key, Some(entry))?;
    Ok(draft)
}

fn without_entry(mut draft: Draft, ds: &DataSet, key: Key) -> Result<Draft, AllocError>
    ensures { DraftsTable ds.now result (without_entry (drafted draft ds.now) key) }
{
    draft.put(key, None)?;
    Ok(draft)
}

fn moved_at(
    draft: Draft,
    ds: &DataSet,
    user: Key,
    placeholder: Key,
    id: i64,
) -> Result<Draft, AllocError>
    ensures { DraftsTable ds.now result (mine_moved (moved placeholder id) (drafted draft ds.now) user) }
{
    let Some(entry) = draft.entry(ds, user) else {
        return Ok(draft);
    };
    let entry = with_mine(ds.alloc(), entry, placeholder, id)?;
    with_entry(draft, ds, user, entry)
}

fn all_moved(
    draft: Draft,
    ds: &DataSet,
    users: &[Key],
    placeholder: Key,
    id: i64,
) -> Result<Draft, AllocError>
    ensures { DraftsTable ds.now result (all_moved (moved placeholder id) (drafted draft ds.now) users.now) }
{
    let mut moved = draft;
    for user in users {
        moved = moved_at(moved, ds, *user, placeholder, id)?;
    }
    Ok(moved)
}

fn mine_at(draft: &Draft, ds: &DataSet, key: Key) -> Result<Option<Content>, AllocError>
    ensures { Gives result (drafted_mine draft.now ds.now key) }
{
    let Some(entry) = draft.entry(ds, key) else {
        return Ok(None);
    };
    match entry.mine() {
        None => Ok(None),
        Some(content) => Ok(Some(content.copy()?)),
    }
}

/// The draft after the object of a placeholder got its id.
fn made(draft: Draft, ds: &DataSet, placeholder: Key, id: i64) -> Result<Draft, AllocError>
    ensures { DraftsTable ds.now result (made ds.now (drafted draft ds.now) placeholder id) }
{
    match mine_at(&draft, ds, placeholder)? {
        None => Ok(draft),
        Some(content) => made_of(draft, ds, &content, placeholder, id),
    }
}

/// As `made`, of what the placeholder's object holds.
fn made_of(
    draft: Draft,
    ds: &DataSet,
    content: &Content,
    placeholder: Key,
    id: i64,
) -> Result<Draft, AllocError>
    requires { drafted_mine draft ds.now placeholder ≡ Some content.now }
    ensures { DraftsTable ds.now result (made ds.now (drafted draft ds.now) placeholder id) }
{
    let alloc = ds.alloc();
    let draft = all_moved(draft, ds, ds.users(placeholder), placeholder, id)?;
    let draft = without_entry(draft, ds, placeholder)?;
    let key = Key {
        kind: placeholder.kind,
        id,
    };
    let entry = made_entry(alloc, renamed(alloc, content, placeholder, id)?)?;
    with_entry(draft, ds, key, entry)
}

/// The entry of a key on another base.
fn based_on(draft: &Draft, ds: &DataSet, key: Key, base: Base) -> Result<Entry, AllocError>
    ensures { Gives result (based_on base (drafted_entry draft.now ds.now key)) }
{
    let Some(entry) = draft.entry(ds, key) else {
        return Ok(Entry::Incomplete);
    };
    match entry.to_entry()? {
        Entry::Incomplete => Ok(Entry::Incomplete),
        Entry::Known { mine, conflict, .. } => Ok(Entry::Known {
            base,
            mine,
            conflict,
        }),
    }
}

fn sent_content(draft: &Draft, ds: &DataSet, key: Key) -> Result<Content, AllocError>
    ensures { Gives result (sent_content (drafted_mine draft.now ds.now key)) }
{
    let alloc = ds.alloc();
    match mine_at(draft, ds, key)? {
        Some(content) => Ok(content),
        None => Ok(Content::Relation {
            tags: Tags::new(alloc),
            members: Members::new(alloc)?,
        }),
    }
}

fn changed(draft: Draft, ds: &DataSet, key: Key, version: u32) -> Result<Draft, AllocError>
    ensures { DraftsTable ds.now result (changed (drafted draft ds.now) key version) }
{
    let base = Base::Live {
        version,
        content: sent_content(&draft, ds, key)?,
        meta: Meta::empty(ds.alloc())?,
    };
    let entry = based_on(&draft, ds, key, base)?;
    with_entry(draft, ds, key, entry)
}

fn deleted(draft: Draft, ds: &DataSet, key: Key, version: u32) -> Result<Draft, AllocError>
    ensures { DraftsTable ds.now result (deleted (drafted draft ds.now) key version) }
{
    let base = Base::Gone {
        version,
        meta: Meta::empty(ds.alloc())?,
    };
    let entry = based_on(&draft, ds, key, base)?;
    with_entry(draft, ds, key, entry)
}

/// The draft after one more answer. Costs the users of an object that was made, with their references.
///
/// # Errors
/// No memory was left.
pub fn answered_by(draft: Draft, ds: &DataSet, answer: Answer) -> Result<Draft, AllocError>
    ensures { DraftsTable ds.now result (answered_by ds.now (drafted draft ds.now) answer) }
{
    match answer {
        Answer::Create { placeholder, id } => made(draft, ds, placeholder, id),
        Answer::Modify { key, version } => changed(draft, ds, key, version),
        Answer::Delete { key, version } => deleted(draft, ds, key, version),
    }
}

fn made_entry(alloc: Global, content: Content) -> Result<Entry, AllocError>
    ensures { Gives result (made_entry content) }
{
    let mine = content.copy()?;
    let base = Base::Live {
        version: 1,
        content,
        meta: Meta::empty(alloc)?,
    };
    Ok(Entry::Known {
        base,
        mine: Some(mine),
        conflict: None,
    })
}
