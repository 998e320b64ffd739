//! Erases objects, and mends what uses them.
ghost use Rattle.std.specs.Prelude.{◌≡◌, not, IfOk};
ghost use Rattle.std.specs.List.{filter};
ghost use Rattle.dataset.specs.Draft.{drafted};
ghost use Rattle.dataset.specs.Sound.{IsSound};
ghost use Rattle.tool_api.specs.Gone.{erase, erased};
ghost use Rattle.tool_api.specs.Planned.{Plans};
ghost use Rattle.tool_api.specs.Checks.{is_named};
ghost use Rattle.tools_delete.specs.Touched.{erased_with};

use crate::delete::deleted_draft;
use crate::mending::{Lose, Mend};
use crate::touched::{falling, going, losing_relations, mended_ways};
use dataset::{DataSet, Draft};
use osm_base::{Key, Keys};
use std::alloc::{AllocError, Global};
use tool_api::{Command, Job, KeySet, Kinds, Plan, Undoable, Verb, closed, edit_all, list_tests};

fn others(alloc: Global, keys: &[Key], without: &KeySet) -> Result<Vec<Key>, AllocError>
    ensures { IfOk result (λ left. left.items ≡ filter (λ k. not (is_named without.now k)) keys.now) }
{
    keys.iter()
        .copied()
        .filter(|key| !without.contains(*key))
        .collect(alloc)
}

/// The draft in which these are deleted, those mended, and the relations lose the members that go.
fn mended_draft(
    ds: &DataSet,
    named: &KeySet,
    going: &KeySet,
    ways: &[Key],
    relations: &[Key],
) -> Result<Draft, AllocError>
    ensures { IfOk result (λ draft. drafted draft ds.now ≡ erased_with ds.now named.now going.now ways.now relations.now) }
{
    let alloc = ds.alloc();
    let mend = Mend { alloc, named };
    let lose = Lose { alloc, going };
    let mut draft = deleted_draft(ds, going.as_slice())?;
    edit_all(ds, ways, &mend, &mut draft)?;
    edit_all(ds, relations, &lose, &mut draft)?;
    Ok(draft)
}

/// The draft in which the named objects and what falls with them are deleted, and the rest is mended.
fn erased_draft(ds: &DataSet, keys: &[Key]) -> Result<Draft, AllocError>
    ensures { IfOk result (λ draft. drafted draft ds.now ≡ erased ds.now keys.now) }
{
    let named = KeySet::from_slice(ds.alloc(), keys)?;
    let ways = mended_ways(ds, &named)?;
    let falling = falling(ds, &named, &ways)?;
    let going = going(ds, &falling)?;
    let staying = others(ds.alloc(), &ways, &falling)?;
    let relations = losing_relations(ds, &falling, &going)?;
    mended_draft(ds, &named, &going, &staying, &relations)
}

fn erase_plan(ds: &DataSet, keys: &[Key], limit: u64) -> Result<Plan, AllocError>
    requires sound { IsSound ds.now }
    ensures { IfOk result (Plans ds.now (erase ds.now limit keys.now)) }
{
    if let Some(refusal) = list_tests(ds, Kinds::Any, keys)? {
        return Ok(Plan::Refused(refusal));
    }
    let draft = erased_draft(ds, keys)?;
    let made = Keys::new(ds.alloc());
    closed(ds, draft, keys, limit, made)
}

/// Erases objects: deletes them, mends the ways and relations that use them, and deletes what is left without use.
#[derive(Drop)]
pub struct Erase {}

impl Command for Erase {
    ghost use Rattle.tool_api.specs.declared.verb.Verb.TheVariants as verb;

    ghost kind = { verb.Erase };

    fn verb() -> Verb {
        Verb::Erase
    }

    fn plan(ds: &DataSet, job: &Job, limit: u64) -> Result<Plan, AllocError> {
        match job {
            Job::Erase { keys } => erase_plan(ds, keys.as_slice(), limit),
            _ => unreachable!(),
        }
    }
}

pub type EraseTool = Undoable<Erase>;
