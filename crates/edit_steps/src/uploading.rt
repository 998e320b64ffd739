//! What `upload` and `rehearse` answer, and why a plan is refused.
ghost use Rattle.std.specs.Prelude.{◌≡◌, ◌≢◌, ◌≤◌, Ok, IfOk, [], length};
ghost use Rattle.edit_script.specs.declared.reply.StepReply.TheVariants.{Done};
ghost use Rattle.upload_order.specs.Refused.{upload};
ghost use Rattle.upload_order.specs.declared.refusal.PlanRefusal.TheVariants as plan;
ghost use Rattle.edit_steps.specs.declared.looks.Behind.TheVariants as behind;
ghost use Rattle.edit_steps.specs.Planned.{plan_refused, planned, upload_answer, rehearse_answer, IsSized};

use crate::looks::Behind;
use crate::response::Response;
use dataset::DataSet;
use edit_script::{StepRefusal, StepReply};
use server_world::{Rehearsal, rehearse};
use std::alloc::AllocError;
use upload_order::{Changes, PlanRefusal, plan};

/// The changes that bring the edits to the server in chunks of a size, or why nothing is sent. It costs what the plan
/// costs.
///
/// # Errors
/// No memory was left.
#[tactic(auto, unfolding(crate::specs::Planned::upload_answer))]
pub fn answer_upload(ds: &DataSet, size: u32) -> Result<Response, AllocError>
    requires { (1 ≤ size) × (size ≤ 10000) }
    ensures answer { IfOk result (λ answer. answer ≡ upload_answer size ds.now) }
    ensures sized { IfOk result (λ answer. IsSized answer.behind) }
{
    match planned(ds)? {
        Ok(changes) => Ok(Response::look(ds.alloc(), Behind::Changes { changes, size })),
        Err(why) => Ok(Response::alone(StepReply::Refused(why))),
    }
}

/// How many of these changes a server in memory accepts that has the bases, or why nothing is sent. It costs what the plan
/// costs, and what that server costs: a step of log n for each base, reference and change.
///
/// # Errors
/// No memory was left.
#[tactic(auto, unfolding(crate::specs::Planned::rehearse_answer))]
pub fn answer_rehearsal(ds: &DataSet) -> Result<Response, AllocError>
    ensures answer { IfOk result (λ answer. answer ≡ rehearse_answer ds.now) }
    ensures sized { IfOk result (λ answer. IsSized answer.behind) }
{
    match planned(ds)? {
        Ok(changes) => rehearsed(ds, &changes),
        Err(why) => Ok(Response::alone(StepReply::Refused(why))),
    }
}

// The server never refuses a plan.
fn rehearsed(ds: &DataSet, changes: &Changes) -> Result<Response, AllocError>
    requires { upload ds.now ≡ Ok changes.now }
    ensures { IfOk result (λ answer. answer ≡ record { reply = Done []; behind = behind.Rehearsed (length changes.now) }) }
{
    match rehearse(ds, changes)? {
        Rehearsal::Accepted(count) => Ok(Response::look(ds.alloc(), Behind::Rehearsed(count))),
        Rehearsal::Refused { .. } => unreachable!(),
    }
}

// The changes, or why nothing is sent, as the refusal of a step.
fn planned(ds: &DataSet) -> Result<Result<Changes, StepRefusal>, AllocError>
    ensures { IfOk result (λ answer. answer ≡ planned (upload ds.now)) }
{
    match plan(ds) {
        Ok(changes) => Ok(Ok(changes)),
        Err(why) => {
            let why = plan_refused(why)?;
            Ok(Err(why))
        }
    }
}

/// Why nothing is sent, as the refusal of a step. Want of memory is none.
///
/// # Errors
/// No memory was left.
pub fn plan_refused(why: PlanRefusal) -> Result<StepRefusal, AllocError>
    ensures refusal { IfOk result (λ refusal. refusal ≡ plan_refused why) }
    ensures memory { IfOk result (λ _. why ≢ plan.Memory) }
{
    match why {
        PlanRefusal::Conflicts { count, first } => Ok(StepRefusal::OpenConflicts { count, first }),
        PlanRefusal::IncompleteRef { key, of } => Ok(StepRefusal::IncompleteRef { key, of }),
        PlanRefusal::Cyclic { keys } => Ok(StepRefusal::CyclicNew(keys)),
        PlanRefusal::Memory => Err(AllocError),
    }
}
