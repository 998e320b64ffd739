//! What a file of answers makes of a table.
ghost use Rattle.std.specs.Prelude.{◌≡◌, ◌≤◌, length, IfErr, IfOk, List, ℤ};
ghost use Rattle.dataset.specs.Patch.{StandsBefore, after_of};
ghost use Rattle.dataset.specs.Sound.{IsSound};
ghost use Rattle.upload_order.specs.declared.change.Change.{Change};
ghost use Rattle.upload_order.specs.World.{World};
ghost use Rattle.placeholder.specs.declared.fault.ConfirmFault.TheVariants.{Memory};
ghost use Rattle.placeholder.specs.Confirm.{Confirms, IsNumbered};
ghost use Rattle.answer_file.specs.Answers.{at_line, confirm_text};
ghost use Rattle.answer_file.specs.Resumed.{GoesOn, TellsAnswers};

use crate::reading::read_answers;
use dataset::{DataSet, Patch};
use placeholder::{ConfirmFault, confirm};

/// The fault, with the line of an answer for its number.
fn at_line(lines: &[u64], fault: ConfirmFault) -> ConfirmFault
    requires { IsNumbered (length lines.now) fault }
    ensures { result ≡ at_line lines.now fault }
{
    match fault {
        ConfirmFault::WrongAnswer { number } => ConfirmFault::WrongAnswer {
            number: lines[number as usize - 1],
        },
        other => other,
    }
}

/// What the file makes of the table, by the definition.
fn confirmed_by(ds: &DataSet, bytes: &[u8]) -> Result<Patch, ConfirmFault>
    ensures value { Confirms result (confirm_text ds.now bytes.now) }
    ensures stands { IfOk result (λ patch. StandsBefore patch ds.now) }
    ensures sound { IfOk result (λ patch. IsSound (after_of patch ds.now)) }
{
    let file = read_answers(ds.alloc(), bytes)?;
    match confirm(ds, file.answers.as_slice()) {
        Err(fault) => Err(at_line(file.lines.as_slice(), fault)),
        Ok(patch) => match file.wrong {
            None => Ok(patch),
            Some(line) => Err(ConfirmFault::WrongAnswer { number: line }),
        },
    }
}

/// The difference to the table that the server's answers in a file confirm. Costs the bytes, a plan, and of each object that was
/// made its users with their references.
///
/// # Errors
/// The plan is refused; or by the first of the lines, it isn't the answer to its change, or gives an id that is taken; or no
/// memory was left.
pub fn confirm_file(ds: &DataSet, bytes: &[u8]) -> Result<Patch, ConfirmFault>
    // It is the difference by the definition, or the fault.
    ensures value { Confirms result (confirm_text ds.now bytes.now) }
    // It leads to a sound table.
    ensures stands { IfOk result (λ patch. StandsBefore patch ds.now) }
    ensures sound { IfOk result (λ patch. IsSound (after_of patch ds.now)) }
    // The text of a server's answers to any number of first changes of the plan is taken, unless memory is wanting.
    ensures taken { (w : World) (changes left : List Change) (ids : List ℤ) → TellsAnswers w ds.now changes left ids bytes.now → IfErr result (λ fault. fault ≡ Memory) }
    // From the table that it leads to the upload of the changes that are left goes on.
    ensures resumed { (w : World) (changes left : List Change) (ids : List ℤ) → TellsAnswers w ds.now changes left ids bytes.now → IfOk result (λ patch. GoesOn w changes left ids (after_of patch ds.now)) }
{
    confirmed_by(ds, bytes)
}
