//! Fuses nodes.
ghost use Rattle.std.specs.Prelude.{◌≡◌, ◌≤◌, length, not, IfOk};
ghost use Rattle.dataset.specs.Sound.{IsSound};
ghost use Rattle.tool_api.specs.Checks.{first_of, when};
ghost use Rattle.tool_api.specs.Findings.{are_together};
ghost use Rattle.tool_api.specs.Fuse.{fuse, place_test};
ghost use Rattle.tool_api.specs.Planned.{Plans};
ghost use Rattle.tool_api.specs.declared.refusal.Refusal.TheVariants.{NotSamePlace};

use crate::change::fused;
use crate::places::are_together;
use dataset::DataSet;
use osm_base::{Key, Keys};
use relation_upkeep::{kept_key, united_tags};
use std::alloc::AllocError;
use tool_api::{Command, Job, Kinds, Plan, Refusal, Undoable, Verb, closed, list_tests};

fn first_apart(ds: &DataSet, first: Key, nodes: &[Key]) -> Option<Refusal>
    ensures { result ≡ first_of (λ k. when (not (are_together ds.now first k)) (NotSamePlace k)) nodes.now }
{
    for node in nodes {
        if !are_together(ds, first, *node) {
            return Some(Refusal::NotSamePlace(*node));
        }
    }
    None
}

/// NotSamePlace with the first of the nodes that isn't at the place of the first. Two look-ups each.
fn place_test(ds: &DataSet, nodes: &[Key]) -> Option<Refusal>
    ensures { result ≡ place_test ds.now nodes.now }
{
    match nodes.split_first() {
        None => None,
        Some((first, rest)) => first_apart(ds, *first, rest),
    }
}

fn fuse_plan(ds: &DataSet, nodes: &[Key], limit: u64) -> Result<Plan, AllocError>
    requires sound { IsSound ds.now }
    requires some { 2 ≤ length nodes.now }
    ensures { IfOk result (Plans ds.now (fuse ds.now limit nodes.now)) }
{
    if let Some(refusal) = list_tests(ds, Kinds::Nodes, nodes)? {
        return Ok(Plan::Refused(refusal));
    }
    if let Some(refusal) = place_test(ds, nodes) {
        return Ok(Plan::Refused(refusal));
    }
    let tags = match united_tags(ds, nodes)? {
        Ok(tags) => tags,
        Err(refusal) => return Ok(Plan::Refused(refusal)),
    };
    let draft = fused(ds, nodes, kept_key(nodes), tags)?;
    closed(ds, draft, nodes, limit, Keys::new(ds.alloc()))
}

/// Fuses nodes at one place to one node, which takes all tags; ways and relations refer to it in place of the nodes.
#[derive(Drop)]
pub struct Fuse {}

impl Command for Fuse {
    ghost use Rattle.tool_api.specs.declared.verb.Verb.TheVariants as verb;

    ghost kind = { verb.Fuse };

    fn verb() -> Verb {
        Verb::Fuse
    }

    fn plan(ds: &DataSet, job: &Job, limit: u64) -> Result<Plan, AllocError> {
        match job {
            Job::Fuse { nodes } => fuse_plan(ds, nodes.as_slice(), limit),
            _ => unreachable!(),
        }
    }
}

pub type FuseTool = Undoable<Fuse>;
