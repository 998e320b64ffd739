//! The order in which relations are deleted.
//!
//! A relation waits for those that use it and are neither gone nor emptied. Each use is counted once, and taken back once:
//! when its user goes or is emptied. So a relation that waits for none is found in log n steps, and so is the one to be
//! emptied where all wait.
ghost use Rattle.std.specs.Prelude.{◌≡◌, [], T, IfOk, OnOk, if◌then◌else◌};
ghost use Rattle.std.specs.List.{list_any};
ghost use Rattle.std.specs.FinMap as fin;
ghost use Rattle.osm_base.specs.RisingKeys.{rises};
ghost use Rattle.upload_order.specs.Counts.{has, put_all, changed_all, raised_by, put_where, one_less};
ghost use Rattle.upload_order.specs.Kinds.{held_refs, held_refers};
ghost use Rattle.upload_order.specs.Fall.{falls};

use crate::down::Down;
use crate::kinds::held_at;
use crate::order::{lower_all, put_keys, raise_all};
use crate::rank_set::RankSet;
use crate::waiting::Waiting;
use dataset::DataSet;
use osm_base::{Key, push_references, ranked};
use std::alloc::{AllocError, Global};

/// To what the base of a key refers, by rank, each once. Sorts them.
fn held_refs(alloc: Global, ds: &DataSet, key: Key) -> Result<Vec<Key>, AllocError>
    ensures { IfOk result (λ keys. keys.items ≡ held_refs ds.now key) }
{
    match held_at(ds.entry(key)) {
        None => Ok(Vec::new(alloc)),
        Some(content) => {
            let mut keys = Vec::new(alloc);
            push_references(content, &mut keys)?;
            ranked(keys)
        }
    }
}

/// Adds the keys, each with the number of those of them whose bases refer to it.
fn count(waiting: &mut Waiting, alloc: Global, ds: &DataSet, keys: &[Key]) -> Result<(), AllocError>
    requires { waiting.old ≡ fin.empty }
    ensures { OnOk result (waiting.new ≡ raised_by (held_refs ds.now) (put_all fin.empty keys.now) keys.now) }
{
    put_keys(waiting, keys)?;
    for key in keys {
        let refs = held_refs(alloc, ds, *key)?;
        raise_all(waiting, &refs)?;
    }
    Ok(())
}

fn has_some(waiting: &Waiting, keys: &[Key]) -> bool
    ensures { result ≡ list_any (has waiting.now) keys.now }
{
    keys.iter().any(|key| waiting.has(*key))
}

/// Adds those of the keys whose bases refer to one that waits.
fn put_clearable(
    clearable: &mut RankSet,
    alloc: Global,
    ds: &DataSet,
    keys: &[Key],
    waiting: &Waiting,
) -> Result<(), AllocError>
    ensures { OnOk result (clearable.new ≡ put_where (λ k. list_any (has waiting.now) (held_refs ds.now k)) clearable.old keys.now) }
{
    for key in keys {
        let refs = held_refs(alloc, ds, *key)?;
        clearable.put_if(*key, has_some(waiting, &refs))?;
    }
    Ok(())
}

/// Takes back one for each to which the base of a key refers, if it counted.
fn release(
    waiting: &mut Waiting,
    alloc: Global,
    ds: &DataSet,
    key: Key,
    counted: bool,
) -> Result<(), AllocError>
    ensures { OnOk result (waiting.new ≡ (if counted then changed_all one_less waiting.old (held_refs ds.now key) else waiting.old)) }
{
    if counted {
        let refs = held_refs(alloc, ds, key)?;
        lower_all(waiting, &refs)
    } else {
        Ok(())
    }
}

/// The steps by which the keys are deleted. Costs a step of log n for each key and for each
/// reference of its base, and three sorts of these.
///
/// # Errors
/// No memory was left.
pub fn falls_of(alloc: Global, ds: &DataSet, keys: &[Key]) -> Result<Vec<Down>, AllocError>
    requires { T (rises keys.now) }
    ensures { IfOk result (λ downs. downs.items ≡ falls (held_refers ds.now) keys.now) }
{
    let mut waiting = Waiting::new(alloc);
    let mut clearable = RankSet::new(alloc);
    let mut cleared = RankSet::new(alloc);
    let downs = falls_by(&mut waiting, &mut clearable, &mut cleared, alloc, ds, keys);
    // Dropped by calls: else what they own would be taken apart here.
    drop(waiting);
    drop(clearable);
    drop(cleared);
    downs
}

/// As `falls_of`, with no keys that wait, that can be emptied or that were; they are lent, so that no way out drops them.
fn falls_by(
    waiting: &mut Waiting,
    clearable: &mut RankSet,
    cleared: &mut RankSet,
    alloc: Global,
    ds: &DataSet,
    keys: &[Key],
) -> Result<Vec<Down>, AllocError>
    requires rise { T (rises keys.now) }
    requires none { waiting.old ≡ fin.empty }
    requires none_clearable { clearable.old ≡ [] }
    requires none_cleared { cleared.old ≡ [] }
    ensures { IfOk result (λ downs. downs.items ≡ falls (held_refers ds.now) keys.now) }
{
    count(waiting, alloc, ds, keys)?;
    put_clearable(clearable, alloc, ds, keys, waiting)?;
    let mut downs = Vec::new(alloc);
    loop {
        if let Some(key) = waiting.pop() {
            let counted = clearable.remove(key);
            release(waiting, alloc, ds, key, counted)?;
            downs.push(Down::Remove(key, cleared.contains(key)))?;
            continue;
        }
        let Some(user) = clearable.pop() else {
            return Ok(downs);
        };
        release(waiting, alloc, ds, user, true)?;
        cleared.put(user)?;
        downs.push(Down::Clear(user))?;
    }
}
