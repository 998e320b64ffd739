//! Imports new objects.
ghost use Rattle.std.specs.Prelude.{◌≡◌, map, IfOk};
ghost use Rattle.dataset.specs.Draft.{drafted};
ghost use Rattle.dataset.specs.Sound.{IsSound};
ghost use Rattle.renamed_content.specs.Renamed.{renamed};
ghost use Rattle.tool_api.specs.Changes.{all_added};
ghost use Rattle.tool_api.specs.Import.{AreNewObjects, import};
ghost use Rattle.tool_api.specs.Planned.{Plans};
ghost use Rattle.import_tool.specs.Known.{Names, called};

use crate::new_keys::{NewKeys, new_keys};
use crate::reference_checks::reference_tests;
use dataset::{DataSet, Draft};
use renamed_content::renamed;
use std::alloc::AllocError;
use tool_api::{Command, Job, NewObject, NewObjects, Plan, Undoable, Verb, add_new, closed};

/// The draft that puts the objects in order, with what their references are called.
///
/// # Errors
/// No memory was left.
fn import_draft(ds: &DataSet, objects: &[NewObject], names: &NewKeys) -> Result<Draft, AllocError>
    requires { IsSound ds.now }
    ensures { IfOk result (λ draft. drafted draft ds.now ≡ all_added ds.now (map (λ o. renamed (called names.now.keys.entries) o.content) objects.now)) }
{
    let mut draft = Draft::with_capacity(ds, objects.len())?;
    for object in objects {
        let content = renamed(ds.alloc(), &object.content, names)?;
        add_new(&mut draft, content)?;
    }
    Ok(draft)
}

fn import_plan(ds: &DataSet, new: &NewObjects, limit: u64) -> Result<Plan, AllocError>
    requires { IsSound ds.now }
    ensures { IfOk result (Plans ds.now (import ds.now limit new.now)) }
{
    let objects = new.as_slice();
    let names = NewKeys::new(ds.alloc(), objects, ds.next())?;
    named_plan(ds, objects, &names, limit)
}

/// As `import_plan`, with what the objects are called in the table.
fn named_plan(
    ds: &DataSet,
    objects: &[NewObject],
    names: &NewKeys,
    limit: u64,
) -> Result<Plan, AllocError>
    requires sound { IsSound ds.now }
    requires objects { AreNewObjects objects.now }
    requires names { Names ds.now.next objects.now names.now.keys.entries }
    ensures { IfOk result (Plans ds.now (import ds.now limit objects.now)) }
{
    if let Some(refusal) = reference_tests(ds, names, objects)? {
        return Ok(Plan::Refused(refusal));
    }
    let made = new_keys(ds.alloc(), objects, ds.next())?;
    let draft = import_draft(ds, objects, names)?;
    closed(ds, draft, &[], limit, made)
}

/// Imports new objects. Each gets the next number in the order of the file.
///
/// An import costs the objects and what they refer to, each with a few hashed look-ups, and a copy of them.
#[derive(Drop)]
pub struct Import {}

impl Command for Import {
    ghost use Rattle.tool_api.specs.declared.verb.Verb.TheVariants as verb;

    ghost kind = { verb.Import };

    fn verb() -> Verb {
        Verb::Import
    }

    fn plan(ds: &DataSet, job: &Job, limit: u64) -> Result<Plan, AllocError> {
        match job {
            Job::Import { objects } => import_plan(ds, objects, limit),
            _ => unreachable!(),
        }
    }
}

pub type ImportTool = Undoable<Import>;
