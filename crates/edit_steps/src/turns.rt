//! What a step does to the history of one editor, and what it answers.
ghost use Rattle.std.specs.Prelude.{◌≡◌, IfOk};
ghost use Rattle.dataset.specs.Patch.{after_of};
ghost use Rattle.edit_history.specs.Machine.{settled};
ghost use Rattle.edit_history.specs.Moved.{Fits, MayRun, MaySettle, Moved};
ghost use Rattle.edit_history.specs.Steps.{edited, MayEdit};
ghost use Rattle.edit_steps.specs.Asked.{MayTake};
ghost use Rattle.edit_steps.specs.Load.{MayFind};
ghost use Rattle.edit_steps.specs.Planned.{IsSized};
ghost use Rattle.edit_steps.specs.Turn.{turn, done_turn, edit_refused, job_turn, moved_turn, reply_alone};

use crate::doing::{Doing, interpret};
use crate::limits::Limits;
use crate::loading::Found;
use crate::response::Response;
use dataset::Patch;
use edit_history::{EditAnswer, EditRefusal, EditStep, History};
use edit_script::{Act, StepRefusal, StepReply};
use std::alloc::{AllocError, Global};
use tool_api::Job;

/// Takes a step with what it found on the shelf. It costs what its job costs.
///
/// # Errors
/// No memory was left.
pub fn take_turn(
    alloc: Global,
    limits: Limits,
    history: &mut History,
    act: &Act,
    found: &Found,
) -> Result<Response, AllocError>
    requires fits { Fits (λ b. done (b.vtable, b.value)) (λ b. undone (b.vtable, b.value)) (λ b. kind (b.vtable, b.value)) history.old (MayTake act.now) }
    requires found { MayFind act.now found.now }
    ensures moved { Moved (λ b. done (b.vtable, b.value)) (λ b. undone (b.vtable, b.value)) (λ b. kind (b.vtable, b.value)) history.old history.new result (turn limits found.now act.now) }
    ensures sized { IfOk result (λ response. IsSized response.behind) }
{
    let doing = interpret(alloc, limits, history.ds(), history.group(), act, found)?;
    match doing {
        Doing::Takes(step) => take(history, &step, limits.objects),
        Doing::Runs(job) => run(history, job, limits.objects),
        Doing::Settles(patch) => settle(history, patch, limits.objects),
        Doing::Says(step, reply) => say(history, &step, reply, limits.objects),
        Doing::Stays(response) => Ok(response),
    }
}

// Takes a step on the table.
fn take(history: &mut History, step: &EditStep, limit: u64) -> Result<Response, AllocError>
    requires { Fits (λ b. done (b.vtable, b.value)) (λ b. undone (b.vtable, b.value)) (λ b. kind (b.vtable, b.value)) history.old (MayEdit step.now) }
    ensures moved { Moved (λ b. done (b.vtable, b.value)) (λ b. undone (b.vtable, b.value)) (λ b. kind (b.vtable, b.value)) history.old history.new result (λ s. moved_turn (edited limit step.now s)) }
    ensures sized { IfOk result (λ response. IsSized response.behind) }
{
    match history.step(step, limit)? {
        EditAnswer::Done(made) => Ok(Response::alone(StepReply::Done(made))),
        EditAnswer::Refused(why) => { Ok(Response::alone(StepReply::Refused(edit_refused(why)))) }
    }
}

// Runs a job that was made for the step.
fn run(history: &mut History, job: Job, limit: u64) -> Result<Response, AllocError>
    requires { Fits (λ b. done (b.vtable, b.value)) (λ b. undone (b.vtable, b.value)) (λ b. kind (b.vtable, b.value)) history.old (MayRun job) }
    ensures moved { Moved (λ b. done (b.vtable, b.value)) (λ b. undone (b.vtable, b.value)) (λ b. kind (b.vtable, b.value)) history.old history.new result (job_turn limit job) }
    ensures sized { IfOk result (λ response. IsSized response.behind) }
{
    take(history, &EditStep::Run(&job), limit)
}

// Makes the table to which a patch leads the table now, for good.
fn settle(history: &mut History, patch: Patch, limit: u64) -> Result<Response, AllocError>
    requires { Fits (λ b. done (b.vtable, b.value)) (λ b. undone (b.vtable, b.value)) (λ b. kind (b.vtable, b.value)) history.old (MaySettle patch) }
    ensures moved { Moved (λ b. done (b.vtable, b.value)) (λ b. undone (b.vtable, b.value)) (λ b. kind (b.vtable, b.value)) history.old history.new result (λ s. done_turn (settled (after_of patch s.now) s)) }
    ensures sized { IfOk result (λ response. IsSized response.behind) }
{
    take(history, &EditStep::Settle(&patch), limit)
}

// Takes a step on the table, and gives this answer.
fn say(
    history: &mut History,
    step: &EditStep,
    reply: StepReply,
    limit: u64,
) -> Result<Response, AllocError>
    requires { Fits (λ b. done (b.vtable, b.value)) (λ b. undone (b.vtable, b.value)) (λ b. kind (b.vtable, b.value)) history.old (MayEdit step.now) }
    ensures moved { Moved (λ b. done (b.vtable, b.value)) (λ b. undone (b.vtable, b.value)) (λ b. kind (b.vtable, b.value)) history.old history.new result (λ s. record { answer = reply_alone reply; state = (edited limit step.now s).state }) }
    ensures sized { IfOk result (λ response. IsSized response.behind) }
{
    history.step(step, limit)?;
    Ok(Response::alone(reply))
}

/// Why a step on the table is refused, as the refusal of a step of a script.
pub fn edit_refused(why: EditRefusal) -> StepRefusal
    ensures { result ≡ edit_refused why }
{
    match why {
        EditRefusal::Tool(why) => StepRefusal::Tool(why),
        EditRefusal::NothingToUndo => StepRefusal::NothingToUndo,
        EditRefusal::NothingToRedo => StepRefusal::NothingToRedo,
    }
}
