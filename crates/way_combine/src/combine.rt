//! Joins ways to one.
ghost use Rattle.std.specs.Prelude.{◌≡◌, ◌≤◌, length, IfOk};
ghost use Rattle.dataset.specs.Sound.{IsSound};
ghost use Rattle.tool_api.specs.Combine.{combine};
ghost use Rattle.tool_api.specs.Planned.{Plans};

use crate::change::join_ways;
use crate::joining::joined;
use crate::relations::fold_relations;
use crate::ways::way_tests;
use dataset::{DataSet, Draft};
use osm_base::{Key, Keys};
use relation_upkeep::{kept_key, united_tags};
use std::alloc::AllocError;
use tool_api::{Command, Job, Kinds, Plan, Undoable, Verb, closed, list_tests};

fn combine_plan(ds: &DataSet, ways: &[Key], limit: u64) -> Result<Plan, AllocError>
    requires sound { IsSound ds.now }
    requires some { 2 ≤ length ways.now }
    ensures { IfOk result (Plans ds.now (combine ds.now limit ways.now)) }
{
    if let Some(refusal) = list_tests(ds, Kinds::Ways, ways)? {
        return Ok(Plan::Refused(refusal));
    }
    if let Some(refusal) = way_tests(ds, ways) {
        return Ok(Plan::Refused(refusal));
    }
    let refs = match joined(ds, ways)? {
        Ok(refs) => refs,
        Err(refusal) => return Ok(Plan::Refused(refusal)),
    };
    let tags = match united_tags(ds, ways)? {
        Ok(tags) => tags,
        Err(refusal) => return Ok(Plan::Refused(refusal)),
    };
    let kept = kept_key(ways);
    let mut draft = Draft::new(ds);
    if let Some(refusal) = fold_relations(ds, ways, kept, &mut draft)? {
        return Ok(Plan::Refused(refusal));
    }
    join_ways(ds, ways, kept, refs, tags, &mut draft)?;
    closed(ds, draft, ways, limit, Keys::new(ds.alloc()))
}

/// Joins ways to one way, which takes all references and tags; relations name it in place of the ways.
#[derive(Drop)]
pub struct Combine {}

impl Command for Combine {
    ghost use Rattle.tool_api.specs.declared.verb.Verb.TheVariants as verb;

    ghost kind = { verb.Combine };

    fn verb() -> Verb {
        Verb::Combine
    }

    fn plan(ds: &DataSet, job: &Job, limit: u64) -> Result<Plan, AllocError> {
        match job {
            Job::Combine { ways } => combine_plan(ds, ways.as_slice(), limit),
            _ => unreachable!(),
        }
    }
}

pub type CombineTool = Undoable<Combine>;
