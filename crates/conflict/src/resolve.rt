//! Settles an object in conflict.
ghost use Rattle.std.specs.Prelude.{◌≡◌, IfOk};
ghost use Rattle.dataset.specs.Sound.{IsSound};
ghost use Rattle.tool_api.specs.Planned.{Plans};
ghost use Rattle.tool_api.specs.Resolve.{resolve};

use crate::choice_tests::choice_test;
use crate::choosing::resolved;
use crate::settling::settle_plan;
use dataset::DataSet;
use merge_cases::Choice;
use osm_base::Key;
use std::alloc::AllocError;
use tool_api::{Command, Job, Plan, Refusal, Undoable, Verb};

fn resolve_plan(ds: &DataSet, key: Key, choice: &Choice, limit: u64) -> Result<Plan, AllocError>
    requires sound { IsSound ds.now }
    ensures { IfOk result (Plans ds.now (resolve ds.now limit key choice.now)) }
{
    let Some(entry) = ds.entry(key) else {
        return Ok(Plan::Refused(Refusal::Absent(key)));
    };
    if let Some(refusal) = choice_test(choice, key, entry)? {
        return Ok(Plan::Refused(refusal));
    }
    let after = resolved(ds.alloc(), choice, entry)?;
    settle_plan(ds, key, after, limit)
}

/// Settles an object in conflict by a choice.
#[derive(Drop)]
pub struct Resolve {}

impl Command for Resolve {
    ghost use Rattle.tool_api.specs.declared.verb.Verb.TheVariants as verb;

    ghost kind = { verb.Resolve };

    fn verb() -> Verb {
        Verb::Resolve
    }

    fn plan(ds: &DataSet, job: &Job, limit: u64) -> Result<Plan, AllocError> {
        match job {
            Job::Resolve { key, choice } => resolve_plan(ds, *key, choice, limit),
            _ => unreachable!(),
        }
    }
}

pub type ResolveTool = Undoable<Resolve>;
