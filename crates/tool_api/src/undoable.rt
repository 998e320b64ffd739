//! The tool of a command.
ghost use Rattle.std.specs.Prelude.{◌≡◌, ◌<◌, [], ◌∷◌, ◌++◌, length, IfOk, OnOk, OnErr, vec_len, vec_capacity};
ghost use Rattle.dataset.specs.Patch.{IsDiff, StandsBefore, after_of};
ghost use Rattle.dataset.specs.Diff.{diff};
ghost use Rattle.dataset.specs.Draft.{drafted};
ghost use Rattle.dataset.specs.Sound.{IsSound};
ghost use Rattle.tool_api.specs.Patches.{last_patch, front, turned};

use crate::command::Command;
use crate::job::Job;
use crate::plan::Plan;
use crate::reply::Reply;
use crate::tool::Tool;
use crate::verb::Verb;
use dataset::{DataSet, Draft, Patch};
use osm_base::Keys;
use std::alloc::{AllocError, Global};
use std::marker::PhantomData;

/// The tool that does what a command plans, keeps the patches, takes them back and does them again.
#[derive(Drop)]
pub struct Undoable<C> {
    command: PhantomData<C>,
    /// The patches of the jobs that stand, the last one last.
    behind: Vec<Patch>,
    /// Those that were taken back, the next to be done again last.
    ahead: Vec<Patch>,
}

impl<C: Command> Undoable<C> {
    /// A tool that has done nothing. It takes no memory.
    pub fn new(alloc: Global) -> Undoable<C>
        ensures done { ⟦<Undoable<C> as Tool>⟧.done result ≡ [] }
        ensures undone { ⟦<Undoable<C> as Tool>⟧.undone result ≡ [] }
        ensures kind { ⟦<Undoable<C> as Tool>⟧.kind result ≡ C.kind }
    {
        Undoable {
            command: PhantomData,
            behind: Vec::new(alloc),
            ahead: Vec::new(alloc),
        }
    }
}

/// Moves the last patch from one list to the other, where there is room for it.
fn move_last(from: &mut Vec<Patch>, to: &mut Vec<Patch>)
    requires some { 0 < vec_len from.old }
    requires room { vec_len to.old < vec_capacity to.old }
    ensures front { from.new.items ≡ front from.old.items }
    ensures pushed { to.new.items ≡ to.old.items ++ last_patch from.old.items ∷ [] }
{
    if let Some(patch) = from.pop() {
        match to.push(patch) {
            Ok(()) => {}
            Err(_) => unreachable!(),
        }
    }
}

/// The last of the patches.
fn newest(patches: &[Patch]) -> &Patch
    requires { 0 < length patches.now }
    ensures { result.now ≡ last_patch patches.now }
{
    &patches[patches.len() - 1]
}

/// Makes the draft's table the table, and puts the difference behind the other patches. It costs the draft's entries and
/// their references. The draft is let go before the table changes, so that the two don't stand side by side.
fn commit(behind: &mut Vec<Patch>, ds: &mut DataSet, draft: Draft) -> Result<(), AllocError>
    requires sound { IsSound (drafted draft ds.old) }
    ensures table { OnOk result (ds.new ≡ drafted draft ds.old) }
    ensures done { OnOk result (behind.new.items ≡ behind.old.items ++ diff ds.old ds.new ∷ []) }
    ensures err_table { OnErr result (ds.new ≡ ds.old) }
    ensures err_done { OnErr result (behind.new.items ≡ behind.old.items) }
{
    let patch = difference_of(ds, draft)?;
    lead_on(behind, ds, patch)
}

/// The difference between the table and the draft's table. The draft is let go.
fn difference_of(ds: &DataSet, draft: Draft) -> Result<Patch, AllocError>
    ensures value { IfOk result (λ patch. patch ≡ diff ds.now (drafted draft ds.now)) }
    ensures differs { IfOk result (λ patch. IsDiff ds.now (drafted draft ds.now) patch) }
{
    let patch = ds.patch_of(&draft);
    // Dropped by a call: on a way out, the code of all that a draft owns would be written out.
    drop(draft);
    patch
}

/// Leads the table on by the patch, and puts that behind the others. It costs the patch's entries and their references.
fn lead_on(behind: &mut Vec<Patch>, ds: &mut DataSet, patch: Patch) -> Result<(), AllocError>
    requires stands { StandsBefore patch ds.old }
    requires sound { IsSound (after_of patch ds.old) }
    ensures table { OnOk result (ds.new ≡ after_of patch ds.old) }
    ensures done { OnOk result (behind.new.items ≡ behind.old.items ++ patch ∷ []) }
    ensures err_table { OnErr result (ds.new ≡ ds.old) }
    ensures err_done { OnErr result (behind.new.items ≡ behind.old.items) }
{
    behind.reserve(1)?;
    ds.apply(&patch)?;
    match behind.push(patch) {
        Ok(()) => Ok(()),
        Err(_) => unreachable!(),
    }
}

impl<C: Command> Tool for Undoable<C> {
    ghost kind = { λ _. C.kind };

    ghost done = { λ t. t.behind.items };

    ghost undone = { λ t. turned t.ahead.items };

    fn verb(&self) -> Verb {
        C::verb()
    }

    fn run(&mut self, ds: &mut DataSet, job: &Job, limit: u64) -> Result<Reply, AllocError> {
        ds.sound();
        match C::plan(ds, job, limit)? {
            Plan::Refused(refusal) => Ok(Reply::Refused(refusal)),
            Plan::Change { draft, made } => {
                commit(&mut self.behind, ds, draft)?;
                Ok(Reply::Done(made))
            }
            Plan::Ready { patch } => {
                lead_on(&mut self.behind, ds, patch)?;
                Ok(Reply::Done(Keys::new(ds.alloc())))
            }
        }
    }

    fn undo(&mut self, ds: &mut DataSet) -> Result<(), AllocError> {
        self.ahead.reserve(1)?;
        ds.revert(newest(&self.behind))?;
        move_last(&mut self.behind, &mut self.ahead);
        Ok(())
    }

    fn redo(&mut self, ds: &mut DataSet) -> Result<(), AllocError> {
        self.behind.reserve(1)?;
        ds.apply(newest(&self.ahead))?;
        move_last(&mut self.ahead, &mut self.behind);
        Ok(())
    }

    fn drop_undone(&mut self) {
        self.ahead.clear();
    }

    fn clear(&mut self) {
        self.behind.clear();
        self.ahead.clear();
    }

    fn last(&self) -> Option<&Patch> {
        self.behind.last()
    }
}
