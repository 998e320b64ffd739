//! What a step of a script comes to: the one interpreter of steps, for an editor alone and for one of a meeting.
//!
//! It looks at the table and moves nothing. Who has the table takes the step that it says, and answers what comes of it.
ghost use Rattle.std.specs.Prelude.{◌≡◌, false, IfOk};
ghost use Rattle.edit_script.specs.Order.{IsMeant};
ghost use Rattle.edit_steps.specs.Doing.{edit_step, refused_by, settled_by, skipped_by, Comes};
ghost use Rattle.edit_steps.specs.Groups.{is_given_up};
ghost use Rattle.edit_steps.specs.Load.{MayFind};
ghost use Rattle.edit_steps.specs.Turn.{turn, act_turn, missing};

use crate::limits::Limits;
use crate::loading::Found;
use crate::looks::look_at;
use crate::response::Response;
use crate::settling::{confirmed, resumed};
use dataset::{DataSet, Patch};
use edit_history::{EditStep, Group};
use edit_script::{Act, HistoryStep, Purpose, StepRefusal, StepReply};
use osm_table::Shared;
use sample_city::sample_city;
use std::alloc::{AllocError, Global};
use tool_api::Job;

/// What a step of a script comes to.
#[derive(Drop)]
pub enum Doing<'a> {
    /// A step on the table. What it answers is the answer.
    Takes(EditStep<'a>),
    /// The same with a job that was made here.
    Runs(Job),
    /// The same with a patch that was made here.
    Settles(Patch),
    /// A step on the table, and this answer.
    Says(EditStep<'a>, StepReply),
    /// The table stays, and this is the answer.
    Stays(Response),
}

/// Whether the group was given up.
pub fn is_given_up(group: Group) -> bool
    ensures { result ≡ is_given_up group }
{
    match group {
        Group::Refused => true,
        Group::Outside | Group::Running => false,
    }
}

/// What an act comes to with what it found on the shelf, where the table is this one and the group that. It costs what it
/// looks at; a download, a city and a file of answers cost what they bring.
///
/// # Errors
/// No memory was left.
pub fn interpret<'a>(
    alloc: Global,
    limits: Limits,
    ds: &DataSet,
    group: Group,
    act: &'a Act,
    found: &'a Found,
) -> Result<Doing<'a>, AllocError>
    requires meant { IsMeant act.now }
    requires found { MayFind act.now found.now }
    ensures { IfOk result (Comes limits.objects act.now ds.now group (turn limits found.now act.now)) }
{
    if is_given_up(group) {
        return Ok(skip(act));
    }
    interpret_act(alloc, limits, ds, group, act, found)
}

// In a group that was given up.
fn skip<'a>(act: &'a Act) -> Doing<'a>
    ensures { result ≡ skipped_by act.now }
{
    match act {
        Act::History(HistoryStep::End) => Doing::Says(EditStep::End, StepReply::Skipped),
        _ => Doing::Stays(Response::alone(StepReply::Skipped)),
    }
}

// In any other, and outside groups.
fn interpret_act<'a>(
    alloc: Global,
    limits: Limits,
    ds: &DataSet,
    group: Group,
    act: &'a Act,
    found: &'a Found,
) -> Result<Doing<'a>, AllocError>
    requires meant { IsMeant act.now }
    requires found { MayFind act.now found.now }
    requires going { is_given_up group ≡ false }
    ensures { IfOk result (Comes limits.objects act.now ds.now group (act_turn limits found.now act.now)) }
{
    match act {
        Act::Job(job) => Ok(Doing::Takes(EditStep::Run(job))),
        Act::Generate { streets } => {
            let told = Shared::new(alloc, sample_city(alloc, *streets)?)?;
            Ok(Doing::Runs(Job::Merge { told }))
        }
        Act::History(step) => Ok(Doing::Takes(edit_step(step))),
        Act::Look(look) => {
            let response = look_at(alloc, ds, look)?;
            Ok(Doing::Stays(response))
        }
        Act::File { purpose, .. } => match purpose {
            Purpose::Download { .. } => match found {
                Found::Job(job) => Ok(Doing::Takes(EditStep::Run(job))),
                _ => Ok(refuse(group, missing(found))),
            },
            Purpose::Import => match found {
                Found::Job(job) => Ok(Doing::Takes(EditStep::Run(job))),
                _ => Ok(refuse(group, missing(found))),
            },
            Purpose::Confirm => match found {
                Found::Bytes(bytes) => {
                    let answer = confirmed(ds, bytes.as_slice())?;
                    Ok(settle(answer))
                }
                _ => Ok(refuse(group, missing(found))),
            },
            Purpose::Resume => match found {
                Found::Bytes(bytes) => {
                    let answer = resumed(ds, bytes.as_slice(), limits.objects)?;
                    Ok(settle(answer))
                }
                _ => Ok(refuse(group, missing(found))),
            },
        },
        Act::Serve { .. } => Ok(Doing::Stays(Response::alone(StepReply::Skipped))),
        Act::Editor { .. } => Ok(Doing::Stays(Response::alone(StepReply::Skipped))),
        Act::Meet(_) => Ok(Doing::Stays(Response::alone(StepReply::Skipped))),
    }
}

// The step on the table that a step on the history is.
fn edit_step<'a>(step: &HistoryStep) -> EditStep<'a>
    ensures { result ≡ edit_step step.now }
{
    match step {
        HistoryStep::Begin => EditStep::Begin,
        HistoryStep::End => EditStep::End,
        HistoryStep::Undo { n } => EditStep::Undo { n: *n },
        HistoryStep::Redo { n } => EditStep::Redo { n: *n },
    }
}

// Refuses a step that has no job; a running group is given up all the same.
fn refuse<'a>(group: Group, why: StepRefusal) -> Doing<'a>
    ensures { result ≡ refused_by group why }
{
    match group {
        Group::Running => Doing::Says(EditStep::GiveUp, StepReply::Refused(why)),
        Group::Outside => Doing::Stays(Response::alone(StepReply::Refused(why))),
        Group::Refused => Doing::Stays(Response::alone(StepReply::Refused(why))),
    }
}

// Why there is nothing to take in.
fn missing(found: &Found) -> StepRefusal
    ensures { result ≡ missing found.now }
{
    match found {
        Found::Bad(fault) => StepRefusal::BadFile(*fault),
        _ => StepRefusal::NoFile,
    }
}

// Makes the table to which a difference leads the table now, for good, where there is one.
fn settle<'a>(answer: Result<Patch, StepRefusal>) -> Doing<'a>
    ensures { result ≡ settled_by answer }
{
    match answer {
        Ok(patch) => Doing::Settles(patch),
        Err(why) => Doing::Stays(Response::alone(StepReply::Refused(why))),
    }
}
