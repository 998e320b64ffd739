//! Whether a table that was read is sound, entry by entry.

ghost use Rattle.std.specs.Prelude.{◌≡◌, IfOk, OnOk};
ghost use Rattle.std.specs.List.{list_all};
ghost use Rattle.std.specs.Map.{keys_of};
ghost use Rattle.std.specs.Option.{option_copied};
ghost use Rattle.osm_base.specs.Content.{refs_of};
ghost use Rattle.osm_table.specs.Table.{entry_of};
ghost use Rattle.saved_session.specs.Reading.{table_of};
ghost use Rattle.saved_session.specs.SoundTest.{is_positive, is_given, is_version, has_version, is_live, is_gone, of_kind, from_server, told_fits, id_fits, why_fits, conflict_fits, limits_fit, is_sound_entry, is_there, refs_there, is_sound_at, first_unsound};

use crate::keyed::KeyedTable;
use osm_base::{Content, Key, fits, push_references, same_key};
use osm_table::{Base, Conflict, EntryParts, SharedEntry, Why, same_mine};
use std::alloc::AllocError;
use std::cell::Cell;

const MOST_ID: i64 = 1_000_000_000_000_000_000;

fn is_positive(id: i64) -> bool
    ensures { result ≡ is_positive id }
{
    1 <= id && id <= MOST_ID
}

fn is_given(next: u64, id: i64) -> bool
    ensures { result ≡ is_given next id }
{
    id < 0 && id.unsigned_abs() < next
}

fn is_version(version: u32) -> bool
    ensures { result ≡ is_version version }
{
    1 <= version && version <= 2_000_000_000
}

fn has_version(base: &Base) -> bool
    ensures { result ≡ has_version base.now }
{
    match base {
        Base::New => true,
        Base::Live { version, .. } | Base::Gone { version, .. } => is_version(*version),
    }
}

fn is_live(base: &Base) -> bool
    ensures { result ≡ is_live base.now }
{
    match base {
        Base::Live { .. } => true,
        _ => false,
    }
}

fn is_gone(base: &Base) -> bool
    ensures { result ≡ is_gone base.now }
{
    match base {
        Base::Gone { .. } => true,
        _ => false,
    }
}

fn why_fits(why: Why, theirs: &Base, base: &Base, mine: Option<&Content>) -> bool
    ensures { result ≡ why_fits why theirs.now base.now (option_copied mine.entry) }
{
    match why {
        Why::Changed => base.version() < theirs.version()
            && !same_mine(mine, base.content())
            && !same_mine(mine, theirs.content()),
        Why::Held => is_live(base)
            && same_mine(mine, base.content())
            && is_gone(theirs)
            && base.version() < theirs.version(),
        Why::Withdrawn => is_live(base) && same_mine(mine, base.content()) && theirs.same(base),
    }
}

fn id_fits(
    next: u64,
    key: Key,
    base: &Base,
    mine: Option<&Content>,
    conflict: Option<&Conflict>,
) -> bool
    ensures { result ≡ id_fits next key base.now (option_copied mine.entry) (option_copied conflict.entry) }
{
    match base {
        Base::New => is_given(next, key.id) && mine.is_some() && conflict.is_none(),
        Base::Live { .. } | Base::Gone { .. } => is_positive(key.id),
    }
}

fn limits_fit(changed: bool, mine: Option<&Content>) -> bool
    ensures { result ≡ limits_fit changed (option_copied mine.entry) }
{
    match mine {
        None => true,
        Some(content) => !changed || fits(content),
    }
}

fn is_there(entry: Option<&SharedEntry>) -> bool
    ensures { result ≡ is_there (option_copied entry.entry) }
{
    match entry {
        None => false,
        Some(entry) => match entry.parts() {
            EntryParts::Incomplete => true,
            EntryParts::Known { mine, .. } => mine.is_some(),
        },
    }
}

fn of_kind(key: Key, content: Option<&Content>) -> bool
    ensures { result ≡ of_kind key (option_copied content.entry) }
{
    match content {
        None => true,
        Some(content) => same_key(
            Key {
                kind: content.kind(),
                id: key.id,
            },
            key,
        ),
    }
}

fn all_positive(refs: &[Key]) -> bool
    ensures { result ≡ list_all (λ r. is_positive r.id) refs.now }
{
    refs.iter().all(|r| is_positive(r.id))
}

/// The references of a content, in the room for them.
fn list_refs(refs: &mut Vec<Key>, content: &Content) -> Result<(), AllocError>
    ensures { OnOk result (refs.new.items ≡ refs_of content.now) }
{
    refs.clear();
    push_references(content, refs)
}

fn from_server(refs: &mut Vec<Key>, content: Option<&Content>) -> Result<bool, AllocError>
    ensures { IfOk result (λ fits. fits ≡ from_server (option_copied content.entry)) }
{
    match content {
        None => Ok(true),
        Some(content) => {
            list_refs(refs, content)?;
            Ok(all_positive(refs.as_slice()))
        }
    }
}

fn told_fits(refs: &mut Vec<Key>, key: Key, base: &Base) -> Result<bool, AllocError>
    ensures { IfOk result (λ fits. fits ≡ told_fits key base.now) }
{
    let positive = from_server(refs, base.content())?;
    Ok(of_kind(key, base.content()) && positive && has_version(base))
}

fn conflict_fits(
    refs: &mut Vec<Key>,
    key: Key,
    base: &Base,
    mine: Option<&Content>,
    conflict: Option<&Conflict>,
) -> Result<bool, AllocError>
    ensures { IfOk result (λ fits. fits ≡ conflict_fits key base.now (option_copied mine.entry) (option_copied conflict.entry)) }
{
    match conflict {
        None => Ok(true),
        Some(conflict) => {
            let told = told_fits(refs, key, &conflict.theirs)?;
            Ok(told && why_fits(conflict.why, &conflict.theirs, base, mine))
        }
    }
}

fn is_sound_entry(
    refs: &mut Vec<Key>,
    next: u64,
    key: Key,
    entry: &SharedEntry,
) -> Result<bool, AllocError>
    ensures { IfOk result (λ sound. sound ≡ is_sound_entry next key entry.now) }
{
    match entry.parts() {
        EntryParts::Incomplete => Ok(is_positive(key.id)),
        EntryParts::Known {
            base,
            mine,
            conflict,
        } => {
            let told = told_fits(refs, key, base)?;
            let fitting = conflict_fits(refs, key, base, mine, conflict)?;
            Ok(
                id_fits(next, key, base, mine, conflict)
                    && told
                    && of_kind(key, mine)
                    && fitting
                    && limits_fit(entry.is_changed(), mine),
            )
        }
    }
}

/// Whether the keys are there. Each is sought first behind the one before it.
fn all_there(saved: &KeyedTable, near: &Cell<usize>, refs: &[Key]) -> bool
    ensures { result ≡ list_all (λ r. is_there (entry_of (table_of (record { next = saved.now.next; entries = saved.now.entries })) r)) refs.now }
{
    refs.iter().all(|r| is_there(saved.entry_near(near, *r)))
}

fn refs_there(
    refs: &mut Vec<Key>,
    saved: &KeyedTable,
    near: &Cell<usize>,
    mine: Option<&Content>,
) -> Result<bool, AllocError>
    ensures { IfOk result (λ there. there ≡ refs_there (table_of (record { next = saved.now.next; entries = saved.now.entries })) (option_copied mine.entry)) }
{
    match mine {
        None => Ok(true),
        Some(content) => {
            list_refs(refs, content)?;
            Ok(all_there(saved, near, refs.as_slice()))
        }
    }
}

fn is_sound_at(
    refs: &mut Vec<Key>,
    saved: &KeyedTable,
    near: &Cell<usize>,
    key: Key,
    entry: &SharedEntry,
) -> Result<bool, AllocError>
    ensures { IfOk result (λ sound. sound ≡ is_sound_at (table_of (record { next = saved.now.next; entries = saved.now.entries })) key entry.now) }
{
    let alone = is_sound_entry(refs, saved.next, key, entry)?;
    let together = refs_there(refs, saved, near, entry.mine())?;
    Ok(alone && together)
}

/// The first of the keys whose entry breaks a condition of a sound table. Costs a step for each entry and a search for each of
/// its references, and none for one that stands behind the one before it.
///
/// # Errors
/// No memory was left.
pub fn first_unsound(saved: &KeyedTable) -> Result<Option<Key>, AllocError>
    ensures { IfOk result (λ key. key ≡ first_unsound (table_of (record { next = saved.now.next; entries = saved.now.entries })) (keys_of saved.now.entries)) }
{
    let mut refs = Vec::new(saved.entries.alloc());
    let near = Cell::new(0);
    for i in 0..saved.entries.len() {
        let (key, entry) = saved.entries.entry_at(i);
        if !is_sound_at(&mut refs, saved, &near, key, entry)? {
            return Ok(Some(key));
        }
    }
    Ok(None)
}
