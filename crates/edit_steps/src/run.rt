//! The steps of a script, run one after the other.
ghost use Rattle.std.specs.Prelude.{◌≡◌, ◌++◌, false, OnOk, OnErr, IsErrOf};
ghost use Rattle.std.specs.Io.KnownBytes.{Appends};
ghost use Rattle.osm_outside.specs.Noted.{note_of};
ghost use Rattle.osm_outside.specs.Lines.{CutsNoLine};
ghost use Rattle.osm_outside.specs.Outside.{AppendsFront};
ghost use Rattle.edit_script.specs.Order.{IsOrderly};
ghost use Rattle.edit_steps.specs.Asked.{MayTake, MayRunAll};
ghost use Rattle.edit_steps.specs.Load.{MayFind};
ghost use Rattle.edit_steps.specs.Planned.{IsSized};
ghost use Rattle.edit_history.specs.Moved.{Fits};
ghost use Rattle.edit_history.specs.Shown.{shown};
ghost use Rattle.edit_steps.specs.Reads.{begins_in};
ghost use Rattle.edit_steps.specs.Send.{Plays, RunsNext};
ghost use Rattle.edit_steps.specs.States.{StepsRan};
ghost use Rattle.edit_steps.specs.Stop.{StopCause, WriteCause};
ghost use Rattle.edit_steps.specs.Turn.{turn, response_text};

use crate::limits::Limits;
use crate::loading::{Found, find};
use crate::looks::send_behind;
use crate::response::Response;
use crate::sending::send_reply;
use crate::stop::Stop;
use crate::turns::take_turn;
use dataset::DataSet;
use edit_history::History;
use edit_script::Step;
use osm_outside::{Shelf, Sink};
use std::alloc::Global;

/// Runs the steps from the first state on. Each is read from the shelf first, then it moves the history, then its reply
/// and the text behind it are written.
///
/// # Errors
/// The shelf or the sink failed, or no memory was left. A front of the text was written; where the shelf failed, the whole text of
/// the steps before.
pub fn run_steps<S: Shelf, K: Sink>(
    alloc: Global,
    limits: Limits,
    shelf: &mut S,
    out: &mut K,
    history: &mut History,
    steps: &[Step],
) -> Result<(), Stop>
    requires fits { Fits (λ b. done (b.vtable, b.value)) (λ b. undone (b.vtable, b.value)) (λ b. kind (b.vtable, b.value)) history.old (MayRunAll steps.now) }
    requires orderly { IsOrderly false steps.now }
    ensures told { S.told shelf.new ≡ S.told shelf.old }
    ensures ran { StepsRan limits (S.told shelf.old) (K.taken out.old) (K.taken out.new) (S.noted shelf.old) (S.noted shelf.new) result steps.now }
    ensures lines { CutsNoLine Stop.WriteFault (K.taken out.old) (K.taken out.new) result }
    ensures cause { StopCause (S.faults shelf.old) (S.faults shelf.new) (K.faults out.old) (K.faults out.new) result }
{
    for step in steps {
        run_next(alloc, limits, shelf, out, history, step)?;
    }
    Ok(())
}

// Runs the next step, over a sound table: what it finds on the shelf, and what it does with that.
fn run_next<S: Shelf, K: Sink>(
    alloc: Global,
    limits: Limits,
    shelf: &mut S,
    out: &mut K,
    history: &mut History,
    step: &Step,
) -> Result<(), Stop>
    requires { Fits (λ b. done (b.vtable, b.value)) (λ b. undone (b.vtable, b.value)) (λ b. kind (b.vtable, b.value)) history.old (MayTake step.now.act) }
    ensures told { S.told shelf.new ≡ S.told shelf.old }
    ensures runs { RunsNext (λ b. done (b.vtable, b.value)) (λ b. undone (b.vtable, b.value)) (λ b. kind (b.vtable, b.value)) limits (S.told shelf.old) history.old history.new (K.taken out.old) (K.taken out.new) result step.now }
    // It begins its file before it writes,
    ensures noted { S.noted shelf.new ≡ S.noted shelf.old ++ note_of (begins_in (shown (λ b. done (b.vtable, b.value)) (λ b. undone (b.vtable, b.value)) history.old).group step.now.act) (K.taken out.old) }
    // and a read that fails leaves the sink as it was.
    ensures unwritten { IsErrOf result Stop.ReadFault → out.new ≡ out.old }
    ensures lines { CutsNoLine Stop.WriteFault (K.taken out.old) (K.taken out.new) result }
    ensures cause { StopCause (S.faults shelf.old) (S.faults shelf.new) (K.faults out.old) (K.faults out.new) result }
{
    history.ds().sound();
    let found = find(alloc, limits, shelf, out, history.group(), &step.act)?;
    let ran = run_step(alloc, limits, out, history, step, &found);
    drop(found);
    ran
}

// Runs one step: what it does, its reply, and the text behind the reply.
fn run_step<K: Sink>(
    alloc: Global,
    limits: Limits,
    out: &mut K,
    history: &mut History,
    step: &Step,
    found: &Found,
) -> Result<(), Stop>
    requires fits { Fits (λ b. done (b.vtable, b.value)) (λ b. undone (b.vtable, b.value)) (λ b. kind (b.vtable, b.value)) history.old (MayTake step.now.act) }
    requires found { MayFind step.now.act found.now }
    ensures plays { Plays (λ b. done (b.vtable, b.value)) (λ b. undone (b.vtable, b.value)) (λ b. kind (b.vtable, b.value)) history.old history.new (K.taken out.old) (K.taken out.new) result step.now.line (turn limits found.now step.now.act) }
    ensures lines { CutsNoLine Stop.WriteFault (K.taken out.old) (K.taken out.new) result }
    ensures cause { WriteCause (K.faults out.old) (K.faults out.new) result }
{
    let response = take_turn(alloc, limits, history, &step.act, found)?;
    let sent = send_response(alloc, out, step.line, &response, history.ds());
    drop(response);
    sent
}

/// Sends the reply line, and the text behind it.
///
/// # Errors
/// The sink failed, or no memory was left. A front of the text may have been written.
#[tactic(auto, using(osm_outside::proofs::Along::front_of_first, osm_outside::proofs::Along::front_of_second))]
pub fn send_response<K: Sink>(
    alloc: Global,
    out: &mut K,
    line: u64,
    response: &Response,
    ds: &DataSet,
) -> Result<(), Stop>
    requires { IsSized response.now.behind }
    ensures ok { OnOk result (Appends (K.taken out.old) (K.taken out.new) (response_text line response.now ds.now)) }
    ensures err { OnErr result (AppendsFront (K.taken out.old) (K.taken out.new) (response_text line response.now ds.now)) }
    ensures lines { CutsNoLine Stop.WriteFault (K.taken out.old) (K.taken out.new) result }
    ensures cause { WriteCause (K.faults out.old) (K.faults out.new) result }
{
    send_reply(alloc, out, line, &response.reply)?;
    send_behind(alloc, out, &response.behind, ds)
}
