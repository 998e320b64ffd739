//! The table that a file makes the table now for good, or why the file isn't taken.
ghost use Rattle.std.specs.Prelude.{◌≡◌, ◌≢◌, IfOk};
ghost use Rattle.placeholder.specs.declared.fault.ConfirmFault.TheVariants as answers;
ghost use Rattle.saved_session.specs.declared.fault.SavedFault.TheVariants as saved;
ghost use Rattle.edit_steps.specs.Settled.{answers_refused, saved_refused, confirmed, resumed, Settles};

use crate::uploading::plan_refused;
use answer_file::confirm_file;
use dataset::{DataSet, Patch};
use edit_script::StepRefusal;
use placeholder::ConfirmFault;
use saved_session::{SavedFault, read_saved};
use std::alloc::AllocError;
use tool_api::Refusal;

/// The difference to the table that a file of answers confirms, or why it isn't taken. It costs what the answers cost.
///
/// # Errors
/// No memory was left.
pub fn confirmed(ds: &DataSet, bytes: &[u8]) -> Result<Result<Patch, StepRefusal>, AllocError>
    ensures answer { IfOk result (λ answer. answer ≡ confirmed ds.now bytes.now) }
    ensures settles { IfOk result (Settles ds.now) }
{
    match confirm_file(ds, bytes) {
        Ok(patch) => Ok(Ok(patch)),
        Err(why) => {
            let why = answers_refused(why)?;
            Ok(Err(why))
        }
    }
}

/// The difference to the table that a saved session holds, or why it isn't taken: it may have so many objects. It costs the
/// bytes, and both tables.
///
/// # Errors
/// No memory was left.
pub fn resumed(
    ds: &DataSet,
    bytes: &[u8],
    limit: u64,
) -> Result<Result<Patch, StepRefusal>, AllocError>
    ensures answer { IfOk result (λ answer. answer ≡ resumed limit ds.now bytes.now) }
    ensures settles { IfOk result (Settles ds.now) }
{
    match read_saved(ds, bytes, limit) {
        Ok(patch) => Ok(Ok(patch)),
        Err(why) => {
            let why = saved_refused(why)?;
            Ok(Err(why))
        }
    }
}

// Why a file of answers isn't taken, as the refusal of a step. Want of memory is none.
fn answers_refused(why: ConfirmFault) -> Result<StepRefusal, AllocError>
    ensures refusal { IfOk result (λ refusal. refusal ≡ answers_refused why) }
    ensures memory { IfOk result (λ _. why ≢ answers.Memory) }
{
    match why {
        ConfirmFault::Plan { refusal } => plan_refused(refusal),
        ConfirmFault::WrongAnswer { number } => Ok(StepRefusal::WrongAnswer(number)),
        ConfirmFault::IdTaken { key } => Ok(StepRefusal::IdTaken(key)),
        ConfirmFault::Memory => Err(AllocError),
    }
}

// Why a saved session isn't taken, as the refusal of a step. Want of memory is none.
fn saved_refused(why: SavedFault) -> Result<StepRefusal, AllocError>
    ensures refusal { IfOk result (λ refusal. refusal ≡ saved_refused why) }
    ensures memory { IfOk result (λ _. why ≢ saved.Memory) }
{
    match why {
        SavedFault::BadSaved { line } => Ok(StepRefusal::BadSaved(line)),
        SavedFault::Unsound { key } => Ok(StepRefusal::Unsound(key)),
        SavedFault::TableFull => Ok(StepRefusal::Tool(Refusal::TableFull)),
        SavedFault::Memory => Err(AllocError),
    }
}
