//! The closing tests of jobs, and the plan that they leave.
//!
//! The tests speak of the whole table before and after a job, and the code looks at the draft's keys alone: what the
//! draft doesn't name is as it was.
ghost use Rattle.std.specs.Prelude.{◌≡◌, None, IfOk, is_some};
ghost use Rattle.std.specs.List.{find, count_by};
ghost use Rattle.std.specs.Option.{option_copied};
ghost use Rattle.std.specs.FinMap as map;
ghost use Rattle.osm_table.specs.Same.{same_mine};
ghost use Rattle.osm_table.specs.Table.{entry_of};
ghost use Rattle.dataset.specs.Diff.{same_at};
ghost use Rattle.dataset.specs.Draft.{drafted};
ghost use Rattle.dataset.specs.Sound.{IsSound};
ghost use Rattle.tool_api.specs.Changes.{content_of};
ghost use Rattle.tool_api.specs.Closing.{closing, closing_tests, conflict_change_test, fit_test, room_test, changes_conflict, makes_unfit, in_conflict, is_full};
ghost use Rattle.tool_api.specs.Planned.{Plans};

use crate::checks::is_named;
use crate::contents::living;
use crate::plan::Plan;
use crate::refusal::Refusal;
use dataset::{DataSet, Draft};
use osm_base::{Content, Key, Keys, fits, same};
use osm_table::SharedEntry;
use std::alloc::AllocError;

/// The last number that a new object may have: ids are from -10^18 on.
const LAST_NUMBER: u64 = 1_000_000_000_000_000_000;

/// Whether an object is in conflict.
pub fn in_conflict(found: Option<&SharedEntry>) -> bool
    ensures { result ≡ in_conflict (option_copied found.entry) }
{
    found.is_some_and(|entry| entry.conflict().is_some())
}

fn same_entries(a: Option<&SharedEntry>, b: Option<&SharedEntry>) -> bool
    ensures { result ≡ same_at (option_copied a.entry) (option_copied b.entry) }
{
    match (a, b) {
        (None, None) => true,
        (Some(a), Some(b)) => a.same(b),
        _ => false,
    }
}

fn changes_conflict(
    named: &[Key],
    key: Key,
    before: Option<&SharedEntry>,
    after: Option<&SharedEntry>,
) -> bool
    ensures { result ≡ changes_conflict named.now key (option_copied before.entry) (option_copied after.entry) }
{
    in_conflict(before) && !is_named(named, key) && !same_entries(before, after)
}

/// The first of the keys whose entry is in conflict, changes, and isn't named.
fn conflict_changed(ds: &DataSet, draft: &Draft, named: &[Key], keys: &[Key]) -> Option<Key>
    ensures { result ≡ find (λ k. changes_conflict named.now k (entry_of ds.now k) (entry_of (drafted draft.now ds.now) k)) keys.now }
{
    keys.iter().copied().find(|key| changes_conflict(
        named,
        *key,
        ds.entry(*key),
        draft.entry(ds, *key),
    ))
}

fn conflict_change_test(ds: &DataSet, draft: &Draft, named: &[Key], keys: &[Key]) -> Option<Refusal>
    requires keys { keys.now ≡ map.keys draft.now.puts }
    ensures { result ≡ conflict_change_test ds.now named.now (drafted draft.now ds.now) }
{
    match conflict_changed(ds, draft, named, keys) {
        None => None,
        Some(key) => Some(Refusal::InConflict(key)),
    }
}

fn is_content(before: Option<&Content>, after: &Content) -> bool
    ensures { result ≡ same_mine (option_copied before.entry) (Some after.now) }
{
    before.is_some_and(|before| same(before, after))
}

/// Whether the content after a job differs from the one before it, and doesn't fit into the limits of API 0.6.
pub fn makes_unfit(before: Option<&Content>, after: Option<&Content>) -> bool
    ensures { result ≡ makes_unfit (option_copied before.entry) (option_copied after.entry) }
{
    match after {
        None => false,
        Some(after) => !fits(after) && !is_content(before, after),
    }
}

/// The first of the keys whose content changes to one that doesn't fit.
fn made_unfit(ds: &DataSet, draft: &Draft, keys: &[Key]) -> Option<Key>
    ensures { result ≡ find (λ k. makes_unfit (content_of ds.now k) (content_of (drafted draft.now ds.now) k)) keys.now }
{
    keys.iter().copied().find(|key| makes_unfit(
        living(ds.entry(*key)),
        living(draft.entry(ds, *key)),
    ))
}

fn fit_test(ds: &DataSet, draft: &Draft, keys: &[Key]) -> Option<Refusal>
    requires keys { keys.now ≡ map.keys draft.now.puts }
    ensures { result ≡ fit_test ds.now (drafted draft.now ds.now) }
{
    match made_unfit(ds, draft, keys) {
        None => None,
        Some(key) => Some(Refusal::Unfit(key)),
    }
}

/// How many of the keys have an entry before the job.
fn held_before(ds: &DataSet, keys: &[Key]) -> usize
    ensures { result ≡ count_by (λ k. is_some (entry_of ds.now k)) keys.now }
{
    keys.iter().filter(|key| ds.entry(**key).is_some()).count()
}

/// How many of the keys have an entry after it.
fn held_after(ds: &DataSet, draft: &Draft, keys: &[Key]) -> usize
    ensures { result ≡ count_by (λ k. is_some (entry_of (drafted draft.now ds.now) k)) keys.now }
{
    keys.iter()
        .filter(|key| draft.entry(ds, **key).is_some())
        .count()
}

/// Whether the draft's table has more entries than the limit, or no number is left. Where the limit has room for each
/// of the draft's keys nothing is looked at, and else two look-ups for each of them.
///
/// # Errors
/// No memory was left.
fn is_full(ds: &DataSet, draft: &Draft, limit: u64) -> Result<bool, AllocError>
    ensures { IfOk result (λ r. r ≡ is_full limit (drafted draft.now ds.now)) }
{
    if LAST_NUMBER < draft.next() {
        return Ok(true);
    }
    if ds.len() as u128 + draft.len() as u128 <= limit as u128 {
        return Ok(false);
    }
    let keys = draft.ordered()?;
    let before = held_before(ds, &keys) as u128;
    let after = held_after(ds, draft, &keys) as u128;
    Ok(limit as u128 + before < ds.len() as u128 + after)
}

/// The room test of a job, from its draft: TableFull. It is the last of the closing tests, for a job that asks no other.
///
/// # Errors
/// No memory was left.
pub fn room_test(ds: &DataSet, draft: &Draft, limit: u64) -> Result<Option<Refusal>, AllocError>
    ensures { IfOk result (λ r. r ≡ room_test limit (drafted draft.now ds.now)) }
{
    if is_full(ds, draft, limit)? {
        return Ok(Some(Refusal::TableFull));
    }
    Ok(None)
}

/// The closing tests of a job, from its draft: InConflict, Unfit, TableFull. They look at the draft's keys alone.
///
/// # Errors
/// No memory was left.
fn closing_tests(
    ds: &DataSet,
    draft: &Draft,
    named: &[Key],
    limit: u64,
) -> Result<Option<Refusal>, AllocError>
    ensures { IfOk result (λ r. r ≡ closing_tests ds.now limit named.now (drafted draft.now ds.now)) }
{
    let keys = draft.ordered()?;
    if let Some(refusal) = conflict_change_test(ds, draft, named, &keys) {
        return Ok(Some(refusal));
    }
    if let Some(refusal) = fit_test(ds, draft, &keys) {
        return Ok(Some(refusal));
    }
    room_test(ds, draft, limit)
}

/// The plan of a job that makes the closing tests: refused by them, or the draft with the keys that it makes.
///
/// # Errors
/// No memory was left.
pub fn closed(
    ds: &DataSet,
    draft: Draft,
    named: &[Key],
    limit: u64,
    made: Keys,
) -> Result<Plan, AllocError>
    requires sound { closing_tests ds.now limit named.now (drafted draft ds.now) ≡ None → IsSound (drafted draft ds.now) }
    ensures { IfOk result (Plans ds.now (closing ds.now limit named.now (record { keys = made; table = drafted draft ds.now }))) }
{
    match closing_tests(ds, &draft, named, limit)? {
        Some(refusal) => Ok(Plan::Refused(refusal)),
        None => Ok(Plan::Change { draft, made }),
    }
}
