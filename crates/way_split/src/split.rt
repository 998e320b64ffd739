//! Cuts a way at nodes.
ghost use Rattle.std.specs.Prelude.{◌≡◌, [], ◌∷◌, None, IfOk};
ghost use Rattle.dataset.specs.Sound.{IsSound};
ghost use Rattle.tool_api.specs.Changes.{content_of};
ghost use Rattle.tool_api.specs.Planned.{Plans};
ghost use Rattle.tool_api.specs.Split.{node_tests, split, split_pieces, way_refs};
ghost use Rattle.tool_api.specs.Checks.{target_test};
ghost use Rattle.tool_api.specs.declared.kinds.Kinds.TheVariants.{Ways};
ghost use Rattle.way_split.specs.NodeChecks.{IsTested, split_tests};

use crate::drafts::split_draft;
use crate::node_checks::node_tests;
use crate::parts::{keyed, new_keys};
use crate::pieces::{all_pieces, kept_number};
use dataset::DataSet;
use osm_base::{Key, Refs};
use std::alloc::{AllocError, Global};
use tool_api::{
    Command, Job, KeySet, Kinds, Plan, Refusal, Undoable, Verb, closed, complete_test, refs_at,
    target_test,
};

/// The way and the nodes: what the job names.
fn named(alloc: Global, way: Key, nodes: &[Key]) -> Result<Vec<Key>, AllocError>
    ensures { IfOk result (λ keys. keys.items ≡ way ∷ nodes.now) }
{
    let mut keys = Vec::new(alloc);
    keys.push(way)?;
    keys.extend_from_slice(nodes)?;
    Ok(keys)
}

/// What the tests of a split come to, but for the closing ones: a refusal, or the pieces.
#[derive(Drop)]
enum Tested {
    Refused(Refusal),
    Cut(Vec<Refs>),
}

/// The pieces between cuts that passed their tests, or the refusal for an Incomplete node or too few pieces.
fn cut_at(ds: &DataSet, way: Key, refs: &[i64], cuts: &KeySet) -> Result<Tested, AllocError>
    requires refs { refs.now ≡ way_refs (content_of ds.now way) }
    requires target { target_test ds.now Ways way ≡ None }
    requires cuts { node_tests refs.now [] cuts.now ≡ None }
    ensures { IfOk result (IsTested ds.now way cuts.now) }
{
    if let Some(refusal) = complete_test(ds, refs) {
        return Ok(Tested::Refused(refusal));
    }
    let pieces = all_pieces(ds.alloc(), refs, cuts)?;
    if pieces.len() < 2 {
        return Ok(Tested::Refused(Refusal::NothingToSplit(way)));
    }
    Ok(Tested::Cut(pieces))
}

/// The tests of the named nodes and of the way's nodes.
fn cut(ds: &DataSet, way: Key, refs: &[i64], nodes: &[Key]) -> Result<Tested, AllocError>
    requires refs { refs.now ≡ way_refs (content_of ds.now way) }
    requires target { target_test ds.now Ways way ≡ None }
    ensures { IfOk result (IsTested ds.now way nodes.now) }
{
    let mut cuts = KeySet::new(ds.alloc());
    let tested = node_tests(&mut cuts, refs, nodes)?;
    match tested {
        Some(refusal) => Ok(Tested::Refused(refusal)),
        None => cut_at(ds, way, refs, &cuts),
    }
}

fn test_split(ds: &DataSet, way: Key, nodes: &[Key]) -> Result<Tested, AllocError>
    ensures { IfOk result (IsTested ds.now way nodes.now) }
{
    if let Some(refusal) = target_test(ds, Kinds::Ways, way) {
        return Ok(Tested::Refused(refusal));
    }
    cut(ds, way, refs_at(ds, way), nodes)
}

/// The plan that makes the pieces the way and new ways.
fn pieces_plan(
    ds: &DataSet,
    way: Key,
    nodes: &[Key],
    pieces: &[Refs],
    limit: u64,
) -> Result<Plan, AllocError>
    requires sound { IsSound ds.now }
    requires tests { split_tests ds.now way nodes.now ≡ None }
    requires pieces { pieces.now ≡ split_pieces ds.now way nodes.now }
    ensures { IfOk result (Plans ds.now (split ds.now limit way nodes.now)) }
{
    let parts = keyed(ds.alloc(), way, kept_number(pieces), ds.next(), pieces)?;
    let made = new_keys(ds.alloc(), way, &parts)?;
    let draft = split_draft(ds, way, &parts)?;
    let named = named(ds.alloc(), way, nodes)?;
    closed(ds, draft, &named, limit, made)
}

fn split_plan(ds: &DataSet, way: Key, nodes: &[Key], limit: u64) -> Result<Plan, AllocError>
    requires sound { IsSound ds.now }
    ensures { IfOk result (Plans ds.now (split ds.now limit way nodes.now)) }
{
    match test_split(ds, way, nodes)? {
        Tested::Refused(refusal) => Ok(Plan::Refused(refusal)),
        Tested::Cut(pieces) => pieces_plan(ds, way, nodes, &pieces, limit),
    }
}

/// Splits ways. The longest piece, the first of equals, stays in the way; the others are new ways with its tags, and
/// the relations that name the way have them too.
///
/// A split costs the way's nodes and the named ones, each with a few hashed look-ups, the pieces, and the relations
/// that name the way with the members that they get.
#[derive(Drop)]
pub struct Split {}

impl Command for Split {
    ghost use Rattle.tool_api.specs.declared.verb.Verb.TheVariants as verb;

    ghost kind = { verb.Split };

    fn verb() -> Verb {
        Verb::Split
    }

    fn plan(ds: &DataSet, job: &Job, limit: u64) -> Result<Plan, AllocError> {
        match job {
            Job::Split { way, nodes } => split_plan(ds, *way, nodes.as_slice(), limit),
            _ => unreachable!(),
        }
    }
}

pub type SplitTool = Undoable<Split>;
