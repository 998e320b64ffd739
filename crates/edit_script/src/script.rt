//! The steps of a script.
ghost use Rattle.std.specs.Prelude.{◌≡◌, [], true, false, Ok, IfOk, OnOk, MatchResult, drop};
ghost use Rattle.edit_script.specs.Answers.{RefusesScript};
ghost use Rattle.edit_script.specs.Order.{IsOrderly};
ghost use Rattle.edit_script.specs.Place.{AllBelong, is_meeting};
ghost use Rattle.edit_script.specs.Script.{steps_of};

use crate::fault::{ScriptFault, Unread};
use crate::line::{ScriptLine, line_of, next_line};
use crate::place::Place;
use crate::step::Step;
use opl_text::Pool;
use std::alloc::Global;

/// The steps of a script, in the order of their lines.
///
/// The bytes are walked once. Texts that come again share their bytes.
///
/// # Errors
/// `BadLine` with the first line outside the grammar, exactly where there is one; `Memory` where no memory was left.
pub fn read_script(alloc: Global, bytes: &[u8]) -> Result<Vec<Step>, ScriptFault>
    ensures steps { MatchResult result (λ steps. steps_of bytes.now ≡ Ok steps.items) (RefusesScript (steps_of bytes.now)) }
    // What a session can rely on as it runs the steps.
    ensures orderly { IfOk result (λ steps. IsOrderly false steps.items) }
    ensures meeting { IfOk result (λ steps. is_meeting steps.items ≡ true → AllBelong true (drop 1 steps.items)) }
    ensures other { IfOk result (λ steps. is_meeting steps.items ≡ false → AllBelong false steps.items) }
{
    let mut steps = Vec::new(alloc);
    read_steps(&mut Pool::new(alloc), &mut steps, bytes)?;
    Ok(steps)
}

/// Appends the steps of a script to none. The list is lent, so that it is dropped in one place.
#[tactic(auto, using(crate::proofs::Orderly::placed_orderly, crate::proofs::Orderly::placed_meeting, crate::proofs::Orderly::placed_other))]
fn read_steps(pool: &mut Pool, steps: &mut Vec<Step>, bytes: &[u8]) -> Result<(), ScriptFault>
    requires { steps.old.items ≡ [] }
    ensures steps { MatchResult result (λ _. steps_of bytes.now ≡ Ok steps.new.items) (RefusesScript (steps_of bytes.now)) }
    ensures orderly { OnOk result (IsOrderly false steps.new.items) }
    ensures meeting { OnOk result (is_meeting steps.new.items ≡ true → AllBelong true (drop 1 steps.new.items)) }
    ensures other { OnOk result (is_meeting steps.new.items ≡ false → AllBelong false steps.new.items) }
{
    let mut count = 0u64;
    let mut place = Place::Start;
    let mut rest = bytes;
    while !rest.is_empty() {
        let (line, after) = next_line(rest);
        count += 1;
        match line_of(pool, line) {
            Err(Unread::Memory) => return Err(ScriptFault::Memory),
            Err(Unread::Outside) => return Err(ScriptFault::BadLine(count)),
            Ok(ScriptLine::Skipped) => {}
            Ok(ScriptLine::Asks(act)) => {
                if !place.takes(&act) {
                    // Dropped by a call: on a way out, the code of each kind of act would be written out.
                    drop(act);
                    return Err(ScriptFault::BadLine(count));
                }
                place = place.after(&act);
                steps.push(Step { line: count, act })?;
            }
        }
        rest = after;
    }
    Ok(())
}
