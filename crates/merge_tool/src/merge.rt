//! Takes in a download.
ghost use Rattle.std.specs.Prelude.{◌≡◌, None, IfOk, OnOk};
ghost use Rattle.dataset.specs.Sound.{IsSound};
ghost use Rattle.tool_api.specs.Merged.{clash_test, merge};
ghost use Rattle.tool_api.specs.Planned.{Plans};
ghost use Rattle.merge_tool.specs.Drafts.{AreGoing, IsMerged, IsStaged, renewed_names, going_keys};

use crate::arrival::arrival_plan;
use crate::clash::clash_test;
use crate::holding::hold;
use crate::staging::Staging;
use crate::wanting::want;
use crate::writing::write;
use closure::KeySet;
use dataset::{DataSet, Draft};
use osm_base::{Key, Keys};
use osm_table::{Shared, ToldMap};
use std::alloc::AllocError;
use tool_api::{Command, Job, Plan, Undoable, Verb, room_test};

/// What a merge makes of the table, from the outcome of each case: what is named enters or is wanted, what is wanted comes
/// back and names more, what these name is held, and all other candidates go.
fn merged(
    ds: &DataSet,
    told: &ToldMap,
    staged: Draft,
    names: &[Key],
    candidates: &[Key],
) -> Result<Draft, AllocError>
    requires sound { IsSound ds.now }
    requires entries { IsStaged ds.now told.now staged }
    requires names { names.now ≡ renewed_names ds.now told.now }
    requires candidates { candidates.now ≡ going_keys ds.now told.now }
    ensures entries { IfOk result (λ draft. IsMerged ds.now told.now draft) }
    ensures number { IfOk result (λ draft. draft.next ≡ staged.next) }
{
    told.sound();
    let mut draft = staged;
    let candidates = KeySet::from_slice(ds.alloc(), candidates)?;
    merge_onto(ds, told, &mut draft, names, &candidates)?;
    Ok(draft)
}

/// As `merged`, onto the draft of the cases.
fn merge_onto(
    ds: &DataSet,
    told: &ToldMap,
    draft: &mut Draft,
    names: &[Key],
    candidates: &KeySet,
) -> Result<(), AllocError>
    requires sound { IsSound ds.now }
    requires entries { IsStaged ds.now told.now draft.old }
    requires names { names.now ≡ renewed_names ds.now told.now }
    requires going { AreGoing ds.now told.now candidates.now }
    ensures entries { OnOk result (IsMerged ds.now told.now draft.new) }
    ensures number { OnOk result (draft.new.next ≡ draft.old.next) }
{
    told.sound();
    let wanted = want(ds, told, draft, names)?;
    let held = hold(ds, told, draft, candidates, names, &wanted.names)?;
    write(ds, told, draft, candidates, &wanted.keys, &held)
}

/// The plan of any download, by the case of each object.
fn cases_plan(ds: &DataSet, told: &ToldMap, limit: u64) -> Result<Plan, AllocError>
    requires sound { IsSound ds.now }
    ensures { IfOk result (Plans ds.now (merge ds.now limit told.now)) }
{
    let Staging {
        draft,
        names,
        candidates,
        clashes,
    } = Staging::of(ds, told)?;
    match clash_test(ds, told, clashes)? {
        Some(refusal) => Ok(Plan::Refused(refusal)),
        None => clear_plan(ds, told, limit, draft, &names, &candidates),
    }
}

/// As `cases_plan`, where no versions clash, by the outcome of the cases.
fn clear_plan(
    ds: &DataSet,
    told: &ToldMap,
    limit: u64,
    staged: Draft,
    names: &[Key],
    candidates: &[Key],
) -> Result<Plan, AllocError>
    requires sound { IsSound ds.now }
    requires clear { clash_test ds.now told.now.told ≡ None }
    requires entries { IsStaged ds.now told.now staged }
    requires number { staged.next ≡ ds.now.next }
    requires names { names.now ≡ renewed_names ds.now told.now }
    requires candidates { candidates.now ≡ going_keys ds.now told.now }
    ensures { IfOk result (Plans ds.now (merge ds.now limit told.now)) }
{
    let draft = merged(ds, told, staged, names, candidates)?;
    if let Some(refusal) = room_test(ds, &draft, limit)? {
        return Ok(Plan::Refused(refusal));
    }
    told.sound();
    Ok(Plan::Change {
        draft,
        made: Keys::new(ds.alloc()),
    })
}

fn merge_plan(ds: &DataSet, told: &Shared<ToldMap>, limit: u64) -> Result<Plan, AllocError>
    requires sound { IsSound ds.now }
    ensures { IfOk result (Plans ds.now (merge ds.now limit told.now)) }
{
    if ds.len() == 0 && told.value().is_closed() {
        arrival_plan(ds, told, limit)
    } else {
        cases_plan(ds, told.value(), limit)
    }
}

/// Takes in what downloads tell.
#[derive(Drop)]
pub struct Merge {}

impl Command for Merge {
    ghost use Rattle.tool_api.specs.declared.verb.Verb.TheVariants as verb;

    ghost kind = { verb.Merge };

    fn verb() -> Verb {
        Verb::Merge
    }

    fn plan(ds: &DataSet, job: &Job, limit: u64) -> Result<Plan, AllocError> {
        match job {
            Job::Merge { told } => merge_plan(ds, told, limit),
            _ => unreachable!(),
        }
    }
}

pub type MergeTool = Undoable<Merge>;
