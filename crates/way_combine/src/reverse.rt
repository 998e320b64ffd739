//! Turns a way round.
ghost use Rattle.std.specs.Prelude.{◌≡◌, IfOk};
ghost use Rattle.dataset.specs.Sound.{IsSound};
ghost use Rattle.tool_api.specs.Basic.{reversed};
ghost use Rattle.tool_api.specs.Planned.{Plans};

use crate::ways::turned;
use dataset::DataSet;
use osm_base::{Content, Key, Refs};
use std::alloc::{AllocError, Global};
use tool_api::{Command, EditContent, Job, Kinds, Plan, Undoable, Verb, edits_plan, target_test};

/// What becomes of a way that is turned round: its references are reversed, its tags stay.
#[derive(Drop)]
struct TurnRound {
    alloc: Global,
}

impl EditContent for TurnRound {
    ghost use Rattle.std.specs.Prelude.{reverse};
    ghost use Rattle.tool_api.specs.Basic.{with_refs};

    ghost edited = { λ _. with_refs reverse };

    fn edit(&self, content: Content) -> Result<Content, AllocError> {
        match content {
            Content::Way { tags, refs } => Ok(Content::Way {
                tags,
                refs: Refs::from_vec(turned(self.alloc, refs.as_slice())?)?,
            }),
            other => Ok(other),
        }
    }
}

fn reverse_plan(ds: &DataSet, way: Key, limit: u64) -> Result<Plan, AllocError>
    requires sound { IsSound ds.now }
    ensures { IfOk result (Plans ds.now (reversed ds.now limit way)) }
{
    if let Some(refusal) = target_test(ds, Kinds::Ways, way) {
        return Ok(Plan::Refused(refusal));
    }
    let alloc = ds.alloc();
    edits_plan(ds, &[way], &TurnRound { alloc }, &[way], limit)
}

/// Turns ways round: the references are reversed, the tags stay.
#[derive(Drop)]
pub struct Reverse {}

impl Command for Reverse {
    ghost use Rattle.tool_api.specs.declared.verb.Verb.TheVariants as verb;

    ghost kind = { verb.Reverse };

    fn verb() -> Verb {
        Verb::Reverse
    }

    fn plan(ds: &DataSet, job: &Job, limit: u64) -> Result<Plan, AllocError> {
        match job {
            Job::Reverse { way } => reverse_plan(ds, *way, limit),
            _ => unreachable!(),
        }
    }
}

pub type ReverseTool = Undoable<Reverse>;
