//! The tests of a settled entry, and the draft in which its object has it.
ghost use Rattle.std.specs.Prelude.{◌≡◌, None, Some, IfOk, OnOk, if◌then◌else◌};
ghost use Rattle.std.specs.Option.{option_copied};
ghost use Rattle.osm_base.specs.Rank.{is_key};
ghost use Rattle.osm_base.specs.declared.key.Key.{Key};
ghost use Rattle.osm_table.specs.Table.{entry_of, mine_of};
ghost use Rattle.dataset.specs.Draft.{drafted};
ghost use Rattle.dataset.specs.Sound.{IsSound};
ghost use Rattle.tool_api.specs.Checks.{first_of, is_named};
ghost use Rattle.tool_api.specs.Planned.{Plans};
ghost use Rattle.tool_api.specs.Resolve.{unused_test, gone_test, references_gone_test, settled_fit_test, settled_table, settle};
ghost use Rattle.tool_api.specs.Staged.{refs_by};
ghost use Rattle.conflict.specs.Settled.{settled_tests, entered};

use dataset::{DataSet, Draft};
use osm_base::{Content, Key, Keys, same_key};
use osm_table::{Entry, EntryParts, SharedEntry};
use std::alloc::AllocError;
use tool_api::{
    KeySet, Plan, Refusal, first_refusal, makes_unfit, push_refs_by, room_test, use_test,
};

/// Of an object that goes: InUse with the least user besides itself.
fn unused_test(
    ds: &DataSet,
    key: Key,
    mine: Option<&Content>,
) -> Result<Option<Refusal>, AllocError>
    ensures { IfOk result (λ r. r ≡ unused_test ds.now key (option_copied mine.entry)) }
{
    if mine.is_some() {
        return Ok(None);
    }
    let itself = KeySet::from_slice(ds.alloc(), &[key])?;
    Ok(use_test(ds, &itself, key))
}

fn gone_test(key: Key, found: Option<&SharedEntry>) -> Option<Refusal>
    ensures { result ≡ gone_test key (option_copied found.entry) }
{
    match found?.parts() {
        EntryParts::Known { mine: None, .. } => Some(Refusal::DeletedObject(key)),
        _ => None,
    }
}

fn reference_gone_test(ds: &DataSet, key: Key, of: Key) -> Option<Refusal>
    ensures { result ≡ (if is_key key of then None else gone_test of (entry_of ds.now of)) }
{
    if same_key(key, of) {
        return None;
    }
    gone_test(of, ds.entry(of))
}

/// DeletedObject with the first reference, to another object, that is deleted. A look-up each.
fn references_gone_test(ds: &DataSet, key: Key, refs: &[Key]) -> Option<Refusal>
    ensures { result ≡ first_of (λ r. if is_key key r then None else gone_test r (entry_of ds.now r)) refs.now }
{
    first_refusal(refs, |of| reference_gone_test(ds, key, of))
}

/// Unfit where mine is not what the server has, and doesn't fit.
fn settled_fit_test(key: Key, entry: &SharedEntry) -> Option<Refusal>
    ensures { result ≡ settled_fit_test key (Some entry.now) }
{
    match entry.parts() {
        EntryParts::Incomplete => None,
        EntryParts::Known { base, mine, .. } => {
            if makes_unfit(base.content(), mine) {
                Some(Refusal::Unfit(key))
            } else {
                None
            }
        }
    }
}

/// InUse, DeletedObject, Unfit.
fn settled_tests(
    ds: &DataSet,
    key: Key,
    entry: &SharedEntry,
    refs: &[Key],
) -> Result<Option<Refusal>, AllocError>
    requires refs { refs.now ≡ refs_by (mine_of entry.now) }
    ensures { IfOk result (λ r. r ≡ settled_tests ds.now key entry.now) }
{
    if let Some(refusal) = unused_test(ds, key, entry.mine())? {
        return Ok(Some(refusal));
    }
    if let Some(refusal) = references_gone_test(ds, key, refs) {
        return Ok(Some(refusal));
    }
    Ok(settled_fit_test(key, entry))
}

/// Sees to it that the key is there: it enters as only referred to.
fn enter(ds: &DataSet, draft: &mut Draft, key: Key) -> Result<(), AllocError>
    ensures entries { OnOk result ((q : Key) → entry_of (drafted draft.new ds.now) q ≡ entered (is_key q key) (entry_of (drafted draft.old ds.now) q)) }
    ensures number { OnOk result (draft.new.next ≡ draft.old.next) }
{
    match draft.entry(ds, key) {
        Some(_) => Ok(()),
        None => {
            draft.put(key, Some(Entry::Incomplete))?;
            Ok(())
        }
    }
}

fn enter_all(ds: &DataSet, draft: &mut Draft, keys: &[Key]) -> Result<(), AllocError>
    ensures entries { OnOk result ((q : Key) → entry_of (drafted draft.new ds.now) q ≡ entered (is_named keys.now q) (entry_of (drafted draft.old ds.now) q)) }
    ensures number { OnOk result (draft.new.next ≡ draft.old.next) }
{
    for key in keys {
        enter(ds, draft, *key)?;
    }
    Ok(())
}

/// The draft in which the object has this entry, and in which all is there to which that refers.
fn settled_draft(
    ds: &DataSet,
    key: Key,
    entry: SharedEntry,
    refs: &[Key],
) -> Result<Draft, AllocError>
    requires refs { refs.now ≡ refs_by (mine_of entry) }
    ensures { IfOk result (λ draft. drafted draft ds.now ≡ settled_table ds.now key (Some entry)) }
{
    let mut draft = Draft::new(ds);
    draft.put_shared(key, Some(entry))?;
    enter_all(ds, &mut draft, refs)?;
    Ok(draft)
}

/// The plan in which an object gets an entry: refused as InUse, DeletedObject, Unfit or TableFull, or the draft. A look-up
/// for each reference of the entry.
///
/// # Errors
/// No memory was left.
pub fn settle_plan(
    ds: &DataSet,
    key: Key,
    entry: SharedEntry,
    limit: u64,
) -> Result<Plan, AllocError>
    requires sound { settled_tests ds.now key entry ≡ None → IsSound (settled_table ds.now key (Some entry)) }
    ensures { IfOk result (Plans ds.now (settle ds.now limit key (Some entry))) }
{
    let mut refs = Vec::new(ds.alloc());
    push_refs_by(entry.mine(), &mut refs)?;
    settled_plan(ds, key, entry, &refs, limit)
}

/// As `settle_plan`, with what the entry refers to.
fn settled_plan(
    ds: &DataSet,
    key: Key,
    entry: SharedEntry,
    refs: &[Key],
    limit: u64,
) -> Result<Plan, AllocError>
    requires sound { settled_tests ds.now key entry ≡ None → IsSound (settled_table ds.now key (Some entry)) }
    requires refs { refs.now ≡ refs_by (mine_of entry) }
    ensures { IfOk result (Plans ds.now (settle ds.now limit key (Some entry))) }
{
    if let Some(refusal) = settled_tests(ds, key, &entry, refs)? {
        return Ok(Plan::Refused(refusal));
    }
    let draft = settled_draft(ds, key, entry, refs)?;
    if let Some(refusal) = room_test(ds, &draft, limit)? {
        return Ok(Plan::Refused(refusal));
    }
    Ok(Plan::Change {
        draft,
        made: Keys::new(ds.alloc()),
    })
}
