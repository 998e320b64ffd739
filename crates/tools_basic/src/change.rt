//! Gives an object another place, other nodes or other members. Its tags stay.
ghost use Rattle.std.specs.Prelude.{◌≡◌, map, IfOk};
ghost use Rattle.dataset.specs.Sound.{IsSound};
ghost use Rattle.tool_api.specs.Basic.{place, set_nodes, set_members};
ghost use Rattle.tool_api.specs.Planned.{Plans};

use dataset::DataSet;
use osm_base::{Content, Coord, Key, Member, Members, Refs};
use std::alloc::{AllocError, Global};
use tool_api::{
    Command, EditContent, Job, Kinds, NewNodes, Plan, Undoable, Verb, edits_plan, node_keys,
    reference_tests, target_test,
};

/// Puts a node at another place.
#[derive(Drop)]
struct NewPlace {
    at: Coord,
}

impl EditContent for NewPlace {
    ghost use Rattle.tool_api.specs.Basic.{with_place};

    ghost edited = { λ rule. with_place (λ _. rule.at) };

    fn edit(&self, content: Content) -> Result<Content, AllocError> {
        match content {
            Content::Node { tags, .. } => Ok(Content::Node { tags, at: self.at }),
            other => Ok(other),
        }
    }
}

/// Gives a relation other members.
#[derive(Drop)]
struct NewMembers<'a> {
    members: &'a Members,
}

impl<'a> EditContent for NewMembers<'a> {
    ghost use Rattle.tool_api.specs.Basic.{with_members};

    ghost edited = { λ rule. with_members (λ _. rule.members.now) };

    fn edit(&self, content: Content) -> Result<Content, AllocError> {
        match content {
            Content::Relation { tags, .. } => {
                let members = self.members.copy()?;
                Ok(Content::Relation { tags, members })
            }
            other => Ok(other),
        }
    }
}

fn place_plan(ds: &DataSet, key: Key, at: Coord, limit: u64) -> Result<Plan, AllocError>
    requires sound { IsSound ds.now }
    ensures { IfOk result (Plans ds.now (place ds.now limit key at)) }
{
    if let Some(refusal) = target_test(ds, Kinds::Nodes, key) {
        return Ok(Plan::Refused(refusal));
    }
    edits_plan(ds, &[key], &NewPlace { at }, &[key], limit)
}

fn nodes_plan(ds: &DataSet, key: Key, refs: &Refs, limit: u64) -> Result<Plan, AllocError>
    requires sound { IsSound ds.now }
    ensures { IfOk result (Plans ds.now (set_nodes ds.now limit key refs.now)) }
{
    if let Some(refusal) = target_test(ds, Kinds::Ways, key) {
        return Ok(Plan::Refused(refusal));
    }
    let nodes = node_keys(ds.alloc(), refs.as_slice())?;
    if let Some(refusal) = reference_tests(ds, &nodes) {
        return Ok(Plan::Refused(refusal));
    }
    edits_plan(ds, &[key], &NewNodes { refs }, &[key], limit)
}

fn member_keys(alloc: Global, members: &[Member]) -> Result<Vec<Key>, AllocError>
    ensures { IfOk result (λ keys. keys.items ≡ map (λ m. m.key) members.now) }
{
    members.iter().map(|member| member.key).collect(alloc)
}

fn members_plan(ds: &DataSet, key: Key, members: &Members, limit: u64) -> Result<Plan, AllocError>
    requires sound { IsSound ds.now }
    ensures { IfOk result (Plans ds.now (set_members ds.now limit key members.now)) }
{
    if let Some(refusal) = target_test(ds, Kinds::Relations, key) {
        return Ok(Plan::Refused(refusal));
    }
    let objects = member_keys(ds.alloc(), members.as_slice())?;
    if let Some(refusal) = reference_tests(ds, &objects) {
        return Ok(Plan::Refused(refusal));
    }
    edits_plan(ds, &[key], &NewMembers { members }, &[key], limit)
}

/// Gives nodes other places, ways other nodes, relations other members.
#[derive(Drop)]
pub struct Change {}

impl Command for Change {
    ghost use Rattle.tool_api.specs.declared.verb.Verb.TheVariants as verb;

    ghost kind = { verb.Change };

    fn verb() -> Verb {
        Verb::Change
    }

    fn plan(ds: &DataSet, job: &Job, limit: u64) -> Result<Plan, AllocError> {
        match job {
            Job::Place { key, at } => place_plan(ds, *key, *at, limit),
            Job::SetNodes { key, refs } => nodes_plan(ds, *key, refs, limit),
            Job::SetMembers { key, members } => members_plan(ds, *key, members, limit),
            _ => unreachable!(),
        }
    }
}

pub type ChangeTool = Undoable<Change>;
