//! Squeezes ways.
ghost use Rattle.std.specs.Prelude.{◌≡◌, not, IfOk};
ghost use Rattle.dataset.specs.Sound.{IsSound};
ghost use Rattle.tool_api.specs.Checks.{first_of, when};
ghost use Rattle.tool_api.specs.Findings.{is_repeated};
ghost use Rattle.tool_api.specs.Planned.{Plans};
ghost use Rattle.tool_api.specs.Squeeze.{squeeze};
ghost use Rattle.tool_api.specs.declared.refusal.Refusal.TheVariants.{NoFinding};

use crate::repeats::{is_repeated, squeezed};
use dataset::DataSet;
use osm_base::{Content, Key, Refs};
use std::alloc::{AllocError, Global};
use tool_api::{
    Command, EditContent, Job, Kinds, Plan, Refusal, Undoable, Verb, edits_plan, list_tests,
};

/// What becomes of a way that is squeezed: each reference that equals the one just before it goes, its tags stay.
#[derive(Drop)]
struct LeaveOutRepeats {
    alloc: Global,
}

impl EditContent for LeaveOutRepeats {
    ghost use Rattle.tool_api.specs.Basic.{with_refs};
    ghost use Rattle.tool_api.specs.Squeeze.{squeezed};

    ghost edited = { λ _. with_refs squeezed };

    fn edit(&self, content: Content) -> Result<Content, AllocError> {
        match content {
            Content::Way { tags, refs } => Ok(Content::Way {
                tags,
                refs: Refs::from_vec(squeezed(self.alloc, refs.as_slice())?)?,
            }),
            other => Ok(other),
        }
    }
}

/// NoFinding for the first of the ways that has no repeat. It walks the references of each up to its first repeat.
fn repeat_tests(ds: &DataSet, keys: &[Key]) -> Option<Refusal>
    ensures { result ≡ first_of (λ k. when (not (is_repeated ds.now k)) (NoFinding k)) keys.now }
{
    for key in keys {
        if !is_repeated(ds, *key) {
            return Some(Refusal::NoFinding(*key));
        }
    }
    None
}

fn squeeze_plan(ds: &DataSet, keys: &[Key], limit: u64) -> Result<Plan, AllocError>
    requires sound { IsSound ds.now }
    ensures { IfOk result (Plans ds.now (squeeze ds.now limit keys.now)) }
{
    if let Some(refusal) = list_tests(ds, Kinds::Ways, keys)? {
        return Ok(Plan::Refused(refusal));
    }
    if let Some(refusal) = repeat_tests(ds, keys) {
        return Ok(Plan::Refused(refusal));
    }
    let alloc = ds.alloc();
    edits_plan(ds, keys, &LeaveOutRepeats { alloc }, keys, limit)
}

/// Squeezes ways: each reference that equals the one just before it is left out.
#[derive(Drop)]
pub struct Squeeze {}

impl Command for Squeeze {
    ghost use Rattle.tool_api.specs.declared.verb.Verb.TheVariants as verb;

    ghost kind = { verb.Squeeze };

    fn verb() -> Verb {
        Verb::Squeeze
    }

    fn plan(ds: &DataSet, job: &Job, limit: u64) -> Result<Plan, AllocError> {
        match job {
            Job::Squeeze { keys } => squeeze_plan(ds, keys.as_slice(), limit),
            _ => unreachable!(),
        }
    }
}

pub type SqueezeTool = Undoable<Squeeze>;
