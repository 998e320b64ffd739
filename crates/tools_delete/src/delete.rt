//! Deletes objects that nothing else uses.
ghost use Rattle.std.specs.Prelude.{◌≡◌, IfOk};
ghost use Rattle.dataset.specs.Draft.{drafted};
ghost use Rattle.dataset.specs.Sound.{IsSound};
ghost use Rattle.tool_api.specs.Changes.{changed, delete};
ghost use Rattle.tool_api.specs.Gone.{delete_all};
ghost use Rattle.tool_api.specs.Planned.{Plans};

use dataset::{DataSet, Draft};
use osm_base::{Key, Keys};
use std::alloc::AllocError;
use tool_api::{
    Command, Job, KeySet, Kinds, Plan, Undoable, Verb, delete_all, list_tests, use_tests,
};

/// The draft in which each of the keys is deleted. A look-up and a copy each.
pub fn deleted_draft(ds: &DataSet, keys: &[Key]) -> Result<Draft, AllocError>
    ensures { IfOk result (λ draft. drafted draft ds.now ≡ changed ds.now (delete ds.now) keys.now) }
{
    let mut draft = Draft::new(ds);
    delete_all(ds, keys, &mut draft)?;
    Ok(draft)
}

fn delete_plan(ds: &DataSet, keys: &[Key]) -> Result<Plan, AllocError>
    requires sound { IsSound ds.now }
    ensures { IfOk result (Plans ds.now (delete_all ds.now keys.now)) }
{
    if let Some(refusal) = list_tests(ds, Kinds::Any, keys)? {
        return Ok(Plan::Refused(refusal));
    }
    let named = KeySet::from_slice(ds.alloc(), keys)?;
    if let Some(refusal) = use_tests(ds, &named, keys) {
        return Ok(Plan::Refused(refusal));
    }
    let draft = deleted_draft(ds, keys)?;
    let made = Keys::new(ds.alloc());
    Ok(Plan::Change { draft, made })
}

/// Deletes objects. An object that another one uses is deleted with that one alone.
#[derive(Drop)]
pub struct Delete {}

impl Command for Delete {
    ghost use Rattle.tool_api.specs.declared.verb.Verb.TheVariants as verb;

    ghost kind = { verb.Delete };

    fn verb() -> Verb {
        Verb::Delete
    }

    fn plan(ds: &DataSet, job: &Job, _limit: u64) -> Result<Plan, AllocError> {
        match job {
            Job::Delete { keys } => delete_plan(ds, keys.as_slice()),
            _ => unreachable!(),
        }
    }
}

pub type DeleteTool = Undoable<Delete>;
