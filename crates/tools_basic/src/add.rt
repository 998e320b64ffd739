//! Adds an object.
ghost use Rattle.std.specs.Prelude.{◌≡◌, IfOk};
ghost use Rattle.dataset.specs.Draft.{drafted};
ghost use Rattle.dataset.specs.Sound.{IsSound};
ghost use Rattle.tool_api.specs.Basic.{add};
ghost use Rattle.tool_api.specs.Changes.{added};
ghost use Rattle.tool_api.specs.Planned.{Plans};

use dataset::{DataSet, Draft};
use osm_base::{Content, Keys, push_references};
use std::alloc::AllocError;
use tool_api::{Command, Job, Plan, Undoable, Verb, add_new, closed, new_key, reference_tests};

/// The draft that puts a new object, and raises the number.
fn new_draft(ds: &DataSet, content: Content) -> Result<Draft, AllocError>
    requires { IsSound ds.now }
    ensures { IfOk result (λ draft. drafted draft ds.now ≡ added ds.now content) }
{
    let mut draft = Draft::new(ds);
    add_new(&mut draft, content)?;
    Ok(draft)
}

fn add_plan(ds: &DataSet, content: Content, limit: u64) -> Result<Plan, AllocError>
    requires sound { IsSound ds.now }
    ensures { IfOk result (Plans ds.now (add ds.now limit content)) }
{
    let mut refs = Vec::new(ds.alloc());
    push_references(&content, &mut refs)?;
    if let Some(refusal) = reference_tests(ds, &refs) {
        return Ok(Plan::Refused(refusal));
    }
    let key = new_key(content.kind(), ds.next());
    let mut made = Keys::new(ds.alloc());
    made.push(key)?;
    let draft = new_draft(ds, content)?;
    closed(ds, draft, &[], limit, made)
}

/// Adds nodes, ways and relations. A new object's id is minus the number of the next one.
#[derive(Drop)]
pub struct Add {}

impl Command for Add {
    ghost use Rattle.tool_api.specs.declared.verb.Verb.TheVariants as verb;

    ghost kind = { verb.Add };

    fn verb() -> Verb {
        Verb::Add
    }

    fn plan(ds: &DataSet, job: &Job, limit: u64) -> Result<Plan, AllocError> {
        let content = match job {
            Job::AddNode { tags, at } => Content::Node {
                tags: tags.copy()?,
                at: *at,
            },
            Job::AddWay { tags, refs } => Content::Way {
                tags: tags.copy()?,
                refs: refs.copy()?,
            },
            Job::AddRelation { tags, members } => Content::Relation {
                tags: tags.copy()?,
                members: members.copy()?,
            },
            _ => unreachable!(),
        };
        add_plan(ds, content, limit)
    }
}

pub type AddTool = Undoable<Add>;
