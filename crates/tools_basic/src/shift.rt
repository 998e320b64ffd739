//! Moves nodes.
ghost use Rattle.std.specs.Prelude.{◌≡◌, ◌++◌, None, IfOk, OnOk};
ghost use Rattle.std.specs.Option.{option_copied};
ghost use Rattle.osm_table.specs.Table.{entry_of};
ghost use Rattle.dataset.specs.Sound.{IsSound};
ghost use Rattle.tool_api.specs.declared.kinds.Kinds.TheVariants.{NodesAndWays};
ghost use Rattle.tool_api.specs.Basic.{shift, moved, moved_nodes, move_entry_test};
ghost use Rattle.tool_api.specs.Changes.{content_of};
ghost use Rattle.tool_api.specs.Planned.{Plans};
ghost use Rattle.tool_api.specs.Checks.{first_of, list_tests};
ghost use Rattle.tools_basic.specs.Moves.{moved_with, all_moved_with};

use dataset::DataSet;
use osm_base::{Content, Coord, Key, ranked, shift};
use osm_table::{EntryParts, SharedEntry};
use std::alloc::AllocError;
use tool_api::{
    Command, EditContent, Job, Kinds, Plan, Refusal, Undoable, Verb, content_of, edits_plan,
    first_refusal, list_tests, node_keys,
};

/// How far nodes are moved to the east and to the north, in units of 10^-7 degree.
#[derive(Clone, Copy)]
struct Offset {
    dx: i64,
    dy: i64,
}

fn moved(at: Coord, dx: i64, dy: i64) -> Coord
    ensures { result ≡ moved dx dy at }
{
    shift(at, dx, dy).unwrap_or(at)
}

impl EditContent for Offset {
    ghost use Rattle.tool_api.specs.Basic.{with_place, moved};

    ghost edited = { λ o. with_place (moved o.dx o.dy) };

    fn edit(&self, content: Content) -> Result<Content, AllocError> {
        match content {
            Content::Node { tags, at } => Ok(Content::Node {
                tags,
                at: moved(at, self.dx, self.dy),
            }),
            other => Ok(other),
        }
    }
}

/// Puts the nodes that move with an object at the end.
fn push_moved(ds: &DataSet, key: Key, nodes: &mut Vec<Key>) -> Result<(), AllocError>
    ensures { OnOk result (nodes.new.items ≡ nodes.old.items ++ moved_with key (content_of ds.now key)) }
{
    match content_of(ds, key) {
        Some(Content::Node { .. }) => nodes.push(key)?,
        Some(Content::Way { refs, .. }) => {
            let of_way = node_keys(ds.alloc(), refs.as_slice())?;
            nodes.extend_from_slice(&of_way)?;
        }
        _ => {}
    }
    Ok(())
}

/// The nodes that move with the objects, in the order found.
fn collected(ds: &DataSet, keys: &[Key]) -> Result<Vec<Key>, AllocError>
    ensures { IfOk result (λ nodes. nodes.items ≡ all_moved_with ds.now keys.now) }
{
    let mut nodes = Vec::new(ds.alloc());
    for key in keys {
        push_moved(ds, *key, &mut nodes)?;
    }
    Ok(nodes)
}

/// The nodes named and those of the ways named, by rank, each once. A look-up for each of the keys, and one sort.
fn moved_nodes(ds: &DataSet, keys: &[Key]) -> Result<Vec<Key>, AllocError>
    requires sound { IsSound ds.now }
    requires passed { list_tests ds.now NodesAndWays keys.now ≡ None }
    ensures { IfOk result (λ nodes. nodes.items ≡ moved_nodes ds.now keys.now) }
{
    ranked(collected(ds, keys)?)
}

fn move_test(key: Key, found: Option<&SharedEntry>, by: &Offset) -> Option<Refusal>
    ensures { result ≡ move_entry_test by.now.dx by.now.dy key (option_copied found.entry) }
{
    match found?.parts() {
        EntryParts::Incomplete => Some(Refusal::IncompleteObject(key)),
        EntryParts::Known {
            conflict: Some(_),
            ..
        } => Some(Refusal::InConflict(key)),
        EntryParts::Known {
            mine: Some(Content::Node { at, .. }),
            ..
        } => {
            if shift(*at, by.dx, by.dy).is_none() {
                return Some(Refusal::OutOfRange(key));
            }
            None
        }
        _ => None,
    }
}

/// The tests of each of the nodes to be moved, in order: IncompleteObject, InConflict, OutOfRange. A look-up each.
fn move_tests(ds: &DataSet, nodes: &[Key], by: &Offset) -> Option<Refusal>
    ensures { result ≡ first_of (λ n. move_entry_test by.now.dx by.now.dy n (entry_of ds.now n)) nodes.now }
{
    first_refusal(nodes, |key| move_test(key, ds.entry(key), by))
}

fn shift_plan(ds: &DataSet, keys: &[Key], by: &Offset, limit: u64) -> Result<Plan, AllocError>
    requires sound { IsSound ds.now }
    ensures { IfOk result (Plans ds.now (shift ds.now limit keys.now by.now.dx by.now.dy)) }
{
    if let Some(refusal) = list_tests(ds, Kinds::NodesAndWays, keys)? {
        return Ok(Plan::Refused(refusal));
    }
    let nodes = moved_nodes(ds, keys)?;
    if let Some(refusal) = move_tests(ds, &nodes, by) {
        return Ok(Plan::Refused(refusal));
    }
    edits_plan(ds, &nodes, by, keys, limit)
}

/// Moves the nodes that are named and those of the ways that are named, each once.
#[derive(Drop)]
pub struct Move {}

impl Command for Move {
    ghost use Rattle.tool_api.specs.declared.verb.Verb.TheVariants as verb;

    ghost kind = { verb.Move };

    fn verb() -> Verb {
        Verb::Move
    }

    fn plan(ds: &DataSet, job: &Job, limit: u64) -> Result<Plan, AllocError> {
        match job {
            Job::Shift { keys, dx, dy } => {
                let by = Offset { dx: *dx, dy: *dy };
                shift_plan(ds, keys.as_slice(), &by, limit)
            }
            _ => unreachable!(),
        }
    }
}

pub type MoveTool = Undoable<Move>;
