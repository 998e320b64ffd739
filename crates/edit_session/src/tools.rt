//! A session with a tool for each verb.
//!
//! `run_editor` makes the tools in their boxes and hands them to `run_session`, whose clause it has, with the verbs of all
//! commands in place of those of the boxes. There is a box of each verb for each of the four editors that a meeting may have,
//! so no step misses its tool. A box can't be handed out by the function that makes it, so the shelf and the sink come in
//! from above, of whatever kind.
//!
//! To add a tool of a new verb: its two lines here, at the place that the verb has in `all_verbs` of `tool_api`, and what is
//! answered for its four boxes.
ghost use Rattle.std.specs.Prelude.{◌≡◌, ◌++◌, IfOk, OnErr, map, string_bytes};
ghost use Rattle.tool_api.specs.declared.verb.Verb.{Verb};
ghost use Rattle.edit_history.specs.Trail.{KeepNothing};
ghost use Rattle.edit_session.specs.Moment.{outside};
ghost use Rattle.edit_session.specs.Right.{IsRight};
ghost use Rattle.edit_session.specs.Verbs.{IsNew, IsOfFour, four_of, four_of_each};

use crate::session::run_session;
use crate::status::Status;
use conflict::ResolveTool;
use edit_history::{no_boxes, with_box};
use import_tool::ImportTool;
use map_checks::{FuseTool, SqueezeTool};
use merge_tool::MergeTool;
use osm_outside::{Shelf, Sink};
use std::alloc::{AllocError, Global};
use tool_api::{Command, Tool, Undoable, Verb};
use tools_basic::{AddTool, ChangeTool, MoveTool, TagTool};
use tools_delete::{DeleteTool, EraseTool, PurgeTool};
use way_combine::{CombineTool, ReverseTool};
use way_split::SplitTool;

/// Runs the session that the words ask for, with a tool of each verb for each of four editors.
///
/// # Errors
/// No memory was left for the tools, and then nothing was read or written.
pub fn run_editor<S: Shelf, K: Sink>(
    alloc: Global,
    words: &[String],
    shelf: &mut S,
    out: &mut K,
) -> Result<Status, AllocError>
    // Right in all that `IsRight` names, with four tools of each verb.
    ensures right { IfOk result (IsRight four_of_each (map string_bytes words.now) (outside S.told S.begun S.noted S.faults K.taken K.faults shelf.old out.old) (outside S.told S.begun S.noted S.faults K.taken K.faults shelf.new out.new)) }
    // No step misses its tool.
    ensures tools { (verb : Verb) → IfOk result (λ status. status ≡ Status.NoTool verb → ⊥) }
    ensures err { OnErr result ((shelf.new ≡ shelf.old) × (out.new ≡ out.old)) }
{
    let tools = no_boxes(alloc);
    let FourTools(first, second, third, fourth): FourTools<AddTool> = four_tools(alloc)?;
    let tools = with_four(tools, Verb::Add, first, second, third, fourth)?;
    let FourTools(first, second, third, fourth): FourTools<TagTool> = four_tools(alloc)?;
    let tools = with_four(tools, Verb::Tag, first, second, third, fourth)?;
    let FourTools(first, second, third, fourth): FourTools<MoveTool> = four_tools(alloc)?;
    let tools = with_four(tools, Verb::Move, first, second, third, fourth)?;
    let FourTools(first, second, third, fourth): FourTools<ChangeTool> = four_tools(alloc)?;
    let tools = with_four(tools, Verb::Change, first, second, third, fourth)?;
    let FourTools(first, second, third, fourth): FourTools<DeleteTool> = four_tools(alloc)?;
    let tools = with_four(tools, Verb::Delete, first, second, third, fourth)?;
    let FourTools(first, second, third, fourth): FourTools<EraseTool> = four_tools(alloc)?;
    let tools = with_four(tools, Verb::Erase, first, second, third, fourth)?;
    let FourTools(first, second, third, fourth): FourTools<PurgeTool> = four_tools(alloc)?;
    let tools = with_four(tools, Verb::Purge, first, second, third, fourth)?;
    let FourTools(first, second, third, fourth): FourTools<SplitTool> = four_tools(alloc)?;
    let tools = with_four(tools, Verb::Split, first, second, third, fourth)?;
    let FourTools(first, second, third, fourth): FourTools<CombineTool> = four_tools(alloc)?;
    let tools = with_four(tools, Verb::Combine, first, second, third, fourth)?;
    let FourTools(first, second, third, fourth): FourTools<ReverseTool> = four_tools(alloc)?;
    let tools = with_four(tools, Verb::Reverse, first, second, third, fourth)?;
    let FourTools(first, second, third, fourth): FourTools<MergeTool> = four_tools(alloc)?;
    let tools = with_four(tools, Verb::Merge, first, second, third, fourth)?;
    let FourTools(first, second, third, fourth): FourTools<ImportTool> = four_tools(alloc)?;
    let tools = with_four(tools, Verb::Import, first, second, third, fourth)?;
    let FourTools(first, second, third, fourth): FourTools<ResolveTool> = four_tools(alloc)?;
    let tools = with_four(tools, Verb::Resolve, first, second, third, fourth)?;
    let FourTools(first, second, third, fourth): FourTools<SqueezeTool> = four_tools(alloc)?;
    let tools = with_four(tools, Verb::Squeeze, first, second, third, fourth)?;
    let FourTools(first, second, third, fourth): FourTools<FuseTool> = four_tools(alloc)?;
    let tools = with_four(tools, Verb::Fuse, first, second, third, fourth)?;
    Ok(run_session(alloc, words, tools, shelf, out))
}

/// A tool for each of the four editors that a meeting may have.
struct FourTools<T>(Box<T>, Box<T>, Box<T>, Box<T>);

/// Tools that have done nothing, in their boxes.
fn four_tools<C: Command>(alloc: Global) -> Result<FourTools<Undoable<C>>, AllocError>
    ensures first { IfOk result (λ four. IsNew C.kind (⟦<Undoable<C> as Tool>⟧.kind four.0.value) (⟦<Undoable<C> as Tool>⟧.done four.0.value) (⟦<Undoable<C> as Tool>⟧.undone four.0.value)) }
    ensures second { IfOk result (λ four. IsNew C.kind (⟦<Undoable<C> as Tool>⟧.kind four.1.value) (⟦<Undoable<C> as Tool>⟧.done four.1.value) (⟦<Undoable<C> as Tool>⟧.undone four.1.value)) }
    ensures third { IfOk result (λ four. IsNew C.kind (⟦<Undoable<C> as Tool>⟧.kind four.2.value) (⟦<Undoable<C> as Tool>⟧.done four.2.value) (⟦<Undoable<C> as Tool>⟧.undone four.2.value)) }
    ensures fourth { IfOk result (λ four. IsNew C.kind (⟦<Undoable<C> as Tool>⟧.kind four.3.value) (⟦<Undoable<C> as Tool>⟧.done four.3.value) (⟦<Undoable<C> as Tool>⟧.undone four.3.value)) }
{
    Ok(FourTools(boxed(alloc)?, boxed(alloc)?, boxed(alloc)?, boxed(alloc)?))
}

/// A tool that has done nothing, in a box.
fn boxed<C: Command>(alloc: Global) -> Result<Box<Undoable<C>>, AllocError>
    ensures { IfOk result (λ b. IsNew C.kind (⟦<Undoable<C> as Tool>⟧.kind b.value) (⟦<Undoable<C> as Tool>⟧.done b.value) (⟦<Undoable<C> as Tool>⟧.undone b.value)) }
{
    Ok(Box::new(alloc, Undoable::new(alloc))?)
}

/// The boxes and four more, of tools for the jobs of this verb that have done nothing yet.
fn with_four(
    tools: Vec<Box<dyn Tool>>,
    verb: Verb,
    first: Box<dyn Tool>,
    second: Box<dyn Tool>,
    third: Box<dyn Tool>,
    fourth: Box<dyn Tool>,
) -> Result<Vec<Box<dyn Tool>>, AllocError>
    requires dones { KeepNothing (map (λ b. done b) tools.items) }
    requires undones { KeepNothing (map (λ b. undone b) tools.items) }
    requires new { IsOfFour (λ b. IsNew verb (kind b) (done b) (undone b)) first second third fourth }
    ensures dones { IfOk result (λ more. KeepNothing (map (λ b. done b) more.items)) }
    ensures undones { IfOk result (λ more. KeepNothing (map (λ b. undone b) more.items)) }
    ensures kinds { IfOk result (λ more. map (λ b. kind b) more.items ≡ map (λ b. kind b) tools.items ++ four_of verb) }
{
    let tools = with_box(tools, verb, first)?;
    let tools = with_box(tools, verb, second)?;
    let tools = with_box(tools, verb, third)?;
    with_box(tools, verb, fourth)
}
