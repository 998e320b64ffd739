//! What is written at the end: what comes back, is held or goes.
ghost use Rattle.std.specs.Prelude.{◌≡◌, true, Some, IfOk, OnOk};
ghost use Rattle.osm_base.specs.Rank.{is_key};
ghost use Rattle.closure.specs.Closure.{has};
ghost use Rattle.merge_tool.specs.Drafts.{AreGoing, ComeBack, GoUnlessHeld, IsWritten};
ghost use Rattle.merge_tool.specs.Passes.{is_going, left};

use crate::entries::{against, back};
use closure::KeySet;
use dataset::{DataSet, Draft};
use osm_base::Key;
use osm_table::{SharedEntry, ToldMap, Why};
use std::alloc::AllocError;

/// Brings the wanted objects back, and lets the candidates go, but for those that are held.
///
/// # Errors
/// No memory was left.
pub fn write(
    ds: &DataSet,
    told: &ToldMap,
    draft: &mut Draft,
    candidates: &KeySet,
    wanted: &KeySet,
    held: &KeySet,
) -> Result<(), AllocError>
    requires going { AreGoing ds.now told.now candidates.now }
    ensures entries { OnOk result (IsWritten ds.now told.now candidates.now wanted.now held.now draft.old draft.new) }
    ensures number { OnOk result (draft.new.next ≡ draft.old.next) }
{
    bring_back(ds, draft, wanted)?;
    let_go(ds, told, draft, candidates, held)?;
    Ok(())
}

/// Brings lost objects back, each as its known side.
fn bring_back(ds: &DataSet, draft: &mut Draft, wanted: &KeySet) -> Result<(), AllocError>
    ensures entries { OnOk result (ComeBack ds.now (has is_key wanted.now) draft.old draft.new) }
    ensures number { OnOk result (draft.new.next ≡ draft.old.next) }
{
    for i in 0..wanted.len() {
        bring_one(ds, draft, wanted[i])?;
    }
    Ok(())
}

fn bring_one(ds: &DataSet, draft: &mut Draft, key: Key) -> Result<(), AllocError>
    ensures entries { OnOk result (ComeBack ds.now (λ q. is_key q key) draft.old draft.new) }
    ensures number { OnOk result (draft.new.next ≡ draft.old.next) }
{
    match draft.entry(ds, key) {
        None => Ok(()),
        Some(entry) => {
            let entry = back(ds.alloc(), entry)?;
            draft.put_shared(key, Some(entry))?;
            Ok(())
        }
    }
}

/// Lets the candidates go, but for those that are held.
fn let_go(
    ds: &DataSet,
    told: &ToldMap,
    draft: &mut Draft,
    candidates: &KeySet,
    held: &KeySet,
) -> Result<(), AllocError>
    requires going { AreGoing ds.now told.now candidates.now }
    ensures entries { OnOk result (GoUnlessHeld ds.now told.now held.now (has is_key candidates.now) draft.old draft.new) }
    ensures number { OnOk result (draft.new.next ≡ draft.old.next) }
{
    for i in 0..candidates.len() {
        let_one_go(ds, told, draft, held, candidates[i])?;
    }
    Ok(())
}

fn let_one_go(
    ds: &DataSet,
    told: &ToldMap,
    draft: &mut Draft,
    held: &KeySet,
    key: Key,
) -> Result<(), AllocError>
    requires going { is_going ds.now told.now.told key ≡ true }
    ensures entries { OnOk result (GoUnlessHeld ds.now told.now held.now (λ q. is_key q key) draft.old draft.new) }
    ensures number { OnOk result (draft.new.next ≡ draft.old.next) }
{
    let entry = left(ds, told, held, key)?;
    draft.put_shared(key, Some(entry))?;
    Ok(())
}

/// What is left of a candidate: it stays in conflict with what is told where it is held, else it goes.
fn left(ds: &DataSet, told: &ToldMap, held: &KeySet, key: Key) -> Result<SharedEntry, AllocError>
    requires going { is_going ds.now told.now.told key ≡ true }
    ensures { IfOk result (λ entry. Some entry ≡ left ds.now told.now.told held.now key) }
{
    let news = told.get(key).unwrap();
    if held.contains(key) {
        let old = ds.entry(key).unwrap();
        against(ds.alloc(), Why::Held, news, old)
    } else {
        news.copy()
    }
}
