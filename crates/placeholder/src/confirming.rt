//! The confirmed table, or why answers are not taken.
ghost use Rattle.std.specs.Prelude.{◌≡◌, slice_get, length, IfOk, IfErr, Ok};
ghost use Rattle.dataset.specs.Draft.{drafted};
ghost use Rattle.dataset.specs.Patch.{StandsBefore, after_of};
ghost use Rattle.dataset.specs.Sound.{IsSound};
ghost use Rattle.upload_order.specs.Refused.{upload};
ghost use Rattle.std.specs.Option.{option_copied};
ghost use Rattle.placeholder.specs.Confirm.{Confirms, Drafts, IsNumbered, confirm, confirms, is_taken, key_given};
ghost use Rattle.placeholder.specs.Drafting.{after_answer, drafts_from};

use crate::answer::{Answer, is_answer};
use crate::drafting::answered_by;
use crate::fault::ConfirmFault;
use dataset::{DataSet, Draft, Patch};
use osm_base::Key;
use upload_order::{Change, PlanRefusal, plan};

fn key_given(answer: Answer) -> Key
    ensures { result ≡ key_given answer }
{
    match answer {
        Answer::Create { placeholder, id } => Key {
            kind: placeholder.kind,
            id,
        },
        Answer::Modify { key, .. } => key,
        Answer::Delete { key, .. } => key,
    }
}

fn is_taken(draft: &Draft, ds: &DataSet, answer: Answer) -> bool
    ensures { result ≡ is_taken (drafted draft.now ds.now) answer }
{
    match answer {
        Answer::Create { .. } => draft.entry(ds, key_given(answer)).is_some(),
        _ => false,
    }
}

fn take(
    draft: Draft,
    ds: &DataSet,
    change: Option<&Change>,
    answer: Answer,
    number: u64,
) -> Result<Draft, ConfirmFault>
    ensures { Drafts ds.now result (after_answer ds.now number (drafted draft ds.now) (option_copied change.entry) answer) }
{
    let Some(change) = change else {
        return Err(ConfirmFault::WrongAnswer { number });
    };
    if !is_answer(change, answer) {
        return Err(ConfirmFault::WrongAnswer { number });
    }
    if is_taken(&draft, ds, answer) {
        return Err(ConfirmFault::IdTaken {
            key: key_given(answer),
        });
    }
    let draft = answered_by(draft, ds, answer)?;
    Ok(draft)
}

fn change_at(changes: &[Change], at: usize) -> Option<&Change>
    ensures { option_copied result ≡ slice_get changes.now at }
{
    changes.get(at)
}

/// The draft of the confirmed table.
fn drafted(ds: &DataSet, changes: &[Change], answers: &[Answer]) -> Result<Draft, ConfirmFault>
    ensures { Drafts ds.now result (drafts_from ds.now 1 ds.now changes.now answers.now) }
{
    let mut draft = Draft::new(ds);
    let mut at = 0;
    for answer in answers {
        let number = at as u64 + 1;
        draft = match take(draft, ds, change_at(changes, at), *answer, number) {
            Ok(draft) => draft,
            Err(fault) => return Err(fault),
        };
        at += 1;
    }
    Ok(draft)
}

/// The draft of the confirmed table, for the changes of the plan.
fn confirmed(ds: &DataSet, changes: &[Change], answers: &[Answer]) -> Result<Draft, ConfirmFault>
    requires { upload ds.now ≡ Ok changes.now }
    ensures draft { Drafts ds.now result (confirms ds.now changes.now answers.now) }
    ensures numbered { IfErr result (IsNumbered (length answers.now)) }
    ensures sound { IfOk result (λ d. IsSound (drafted d ds.now)) }
{
    ds.sound();
    drafted(ds, changes, answers)
}

/// The difference to the confirmed table: what a server's answers to the first changes of the plan make of the table. Costs a
/// plan, and of each object that was made its users with their references.
///
/// # Errors
/// The plan is refused, or an answer isn't one to its change, or gives an id that is taken; or no memory was left.
pub fn confirm(ds: &DataSet, answers: &[Answer]) -> Result<Patch, ConfirmFault>
    // It is the difference by the definition, or the fault.
    ensures value { Confirms result (confirm ds.now answers.now) }
    ensures numbered { IfErr result (IsNumbered (length answers.now)) }
    // It leads to a sound table.
    ensures stands { IfOk result (λ patch. StandsBefore patch ds.now) }
    ensures sound { IfOk result (λ patch. IsSound (after_of patch ds.now)) }
{
    let changes = match plan(ds) {
        Ok(changes) => changes,
        Err(PlanRefusal::Memory) => return Err(ConfirmFault::Memory),
        Err(refusal) => return Err(ConfirmFault::Plan { refusal }),
    };
    confirm_plan(ds, changes.as_slice(), answers)
}

/// The same where the plan of the table is at hand. Costs of each object that was made its users with their references.
///
/// # Errors
/// An answer isn't one to its change, or gives an id that is taken; or no memory was left.
pub fn confirm_plan(
    ds: &DataSet,
    plan: &[Change],
    answers: &[Answer],
) -> Result<Patch, ConfirmFault>
    requires plan { upload ds.now ≡ Ok plan.now }
    ensures value { Confirms result (confirm ds.now answers.now) }
    ensures numbered { IfErr result (IsNumbered (length answers.now)) }
    ensures stands { IfOk result (λ patch. StandsBefore patch ds.now) }
    ensures sound { IfOk result (λ patch. IsSound (after_of patch ds.now)) }
{
    let draft = confirmed(ds, plan, answers)?;
    let patch = ds.patch_of(&draft)?;
    Ok(patch)
}
