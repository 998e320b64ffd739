//! Takes objects out of the table.
ghost use Rattle.std.specs.Prelude.{◌≡◌, IfOk};
ghost use Rattle.std.specs.Option.{option_copied};
ghost use Rattle.dataset.specs.Draft.{drafted};
ghost use Rattle.dataset.specs.Sound.{IsSound};
ghost use Rattle.osm_table.specs.Table.{entry_of};
ghost use Rattle.tool_api.specs.Changes.{changed};
ghost use Rattle.tool_api.specs.Gone.{is_used, purge};
ghost use Rattle.tool_api.specs.Planned.{Plans};
ghost use Rattle.tool_api.specs.Checks.{first_of, is_new, purge_entry_test};
ghost use Rattle.tools_delete.specs.Purged.{new_use_test, purged};

use dataset::{DataSet, Draft};
use osm_base::{Key, Keys};
use osm_table::{Base, Entry, EntryParts, SharedEntry};
use std::alloc::AllocError;
use tool_api::{
    Command, Job, KeySet, Plan, Refusal, Undoable, Verb, first_refusal, twice_test, use_test,
};

fn purge_test(key: Key, found: Option<&SharedEntry>) -> Option<Refusal>
    ensures { result ≡ purge_entry_test key (option_copied found.entry) }
{
    let Some(entry) = found else {
        return Some(Refusal::Absent(key));
    };
    match entry.parts() {
        EntryParts::Known {
            conflict: Some(_),
            ..
        } => Some(Refusal::InConflict(key)),
        _ => None,
    }
}

fn purge_tests(ds: &DataSet, keys: &[Key]) -> Option<Refusal>
    ensures { result ≡ first_of (λ k. purge_entry_test k (entry_of ds.now k)) keys.now }
{
    first_refusal(keys, |key| purge_test(key, ds.entry(key)))
}

fn is_new(found: Option<&SharedEntry>) -> bool
    ensures { result ≡ is_new (option_copied found.entry) }
{
    found.is_some_and(|entry| match entry.base() {
        None => false,
        Some(base) => matches!(base, Base::New),
    })
}

/// A new object has to leave the table whole, so that nothing may use it.
fn new_use_test(ds: &DataSet, named: &KeySet, key: Key) -> Option<Refusal>
    ensures { result ≡ new_use_test ds.now named.now key }
{
    if is_new(ds.entry(key)) {
        return use_test(ds, named, key);
    }
    None
}

fn new_use_tests(ds: &DataSet, named: &KeySet, keys: &[Key]) -> Option<Refusal>
    ensures { result ≡ first_of (new_use_test ds.now named.now) keys.now }
{
    first_refusal(keys, |key| new_use_test(ds, named, key))
}

fn is_used(ds: &DataSet, named: &KeySet, key: Key) -> bool
    ensures { result ≡ is_used ds.now named.now key }
{
    ds.users(key).iter().any(|user| !named.contains(*user))
}

fn purged(ds: &DataSet, named: &KeySet, key: Key) -> Option<Entry>
    ensures { result ≡ purged ds.now named.now key }
{
    if is_used(ds, named, key) {
        return Some(Entry::Incomplete);
    }
    None
}

/// The draft in which each of the keys is purged. A look-up of its users each.
fn purged_draft(ds: &DataSet, named: &KeySet, keys: &[Key]) -> Result<Draft, AllocError>
    ensures { IfOk result (λ draft. drafted draft ds.now ≡ changed ds.now (purged ds.now named.now) keys.now) }
{
    let mut draft = Draft::new(ds);
    for key in keys {
        let after = purged(ds, named, *key);
        draft.put(*key, after)?;
    }
    Ok(draft)
}

fn purge_plan(ds: &DataSet, keys: &[Key]) -> Result<Plan, AllocError>
    requires sound { IsSound ds.now }
    ensures { IfOk result (Plans ds.now (purge ds.now keys.now)) }
{
    if let Some(refusal) = twice_test(ds.alloc(), keys)? {
        return Ok(Plan::Refused(refusal));
    }
    if let Some(refusal) = purge_tests(ds, keys) {
        return Ok(Plan::Refused(refusal));
    }
    let named = KeySet::from_slice(ds.alloc(), keys)?;
    if let Some(refusal) = new_use_tests(ds, &named, keys) {
        return Ok(Plan::Refused(refusal));
    }
    let draft = purged_draft(ds, &named, keys)?;
    let made = Keys::new(ds.alloc());
    Ok(Plan::Change { draft, made })
}

/// Takes objects out of the table, as if they had not been downloaded. One that others still use stays as `Incomplete`.
#[derive(Drop)]
pub struct Purge {}

impl Command for Purge {
    ghost use Rattle.tool_api.specs.declared.verb.Verb.TheVariants as verb;

    ghost kind = { verb.Purge };

    fn verb() -> Verb {
        Verb::Purge
    }

    fn plan(ds: &DataSet, job: &Job, _limit: u64) -> Result<Plan, AllocError> {
        match job {
            Job::Purge { keys } => purge_plan(ds, keys.as_slice()),
            _ => unreachable!(),
        }
    }
}

pub type PurgeTool = Undoable<Purge>;
