//! The trait of tools.
ghost use Rattle.std.specs.Prelude.{◌≡◌, ◌<◌, List, [], ◌∷◌, ◌++◌, length, OnOk, OnErr, IfOk};
ghost use Rattle.std.specs.Option.{option_copied};
ghost use Rattle.dataset.specs.Patch.{PatchValue, StandsBefore, StandsAfter, after_of, before_of};
ghost use Rattle.dataset.specs.Sound.{IsSound};
ghost use Rattle.tool_api.specs.declared.verb.Verb.{Verb};
ghost use Rattle.tool_api.specs.Plain.{verb_of, plain, IsWellFormed};
ghost use Rattle.tool_api.specs.Patches.{last_patch, newest_of, front, first_patch, rest, Kept};

use crate::job::Job;
use crate::reply::Reply;
use crate::verb::Verb;
use dataset::{DataSet, Patch};
use std::alloc::AllocError;

/// A box that runs the jobs of one verb, and keeps the patches of what it did and of what was undone.
///
/// `done` are the patches of the jobs that stand, the last one last; `undone` those that were taken back, the next
/// to be done again first. A tool knows nothing of other tools: the history says whose turn it is.
pub trait Tool: Drop {
    ghost kind: { Self → Verb };

    ghost done: { Self → List PatchValue };

    ghost undone: { Self → List PatchValue };

    /// The verb of its jobs. It never changes.
    fn verb(&self) -> Verb
        ensures { result ≡ kind self.now };

    /// Runs a job: its reply and the new table are those of `plain`, and the difference is put last on `done`.
    ///
    /// # Errors
    /// Want of memory, and then nothing is changed. A refused job changes nothing either.
    fn run(&mut self, ds: &mut DataSet, job: &Job, limit: u64) -> Result<Reply, AllocError>
        requires verb { verb_of job.now ≡ kind self.old }
        requires formed { IsWellFormed job.now }
        ensures reply { IfOk result (λ r. r ≡ (plain job.now ds.old limit).reply) }
        ensures table { OnOk result (ds.new ≡ (plain job.now ds.old limit).table) }
        ensures done { IfOk result (λ r. Kept r ds.old ds.new (done self.old) (done self.new)) }
        ensures undone { undone self.new ≡ undone self.old }
        ensures kind { kind self.new ≡ kind self.old }
        ensures err_table { OnErr result (ds.new ≡ ds.old) }
        ensures err_done { OnErr result (done self.new ≡ done self.old) };

    /// Takes the last job back: the table is again the one before it.
    ///
    /// # Errors
    /// Want of memory, and then nothing is changed.
    fn undo(&mut self, ds: &mut DataSet) -> Result<(), AllocError>
        requires some { 0 < length (done self.old) }
        requires stands { StandsAfter (last_patch (done self.old)) ds.old }
        requires sound { IsSound (before_of (last_patch (done self.old)) ds.old) }
        ensures table { OnOk result (ds.new ≡ before_of (last_patch (done self.old)) ds.old) }
        ensures done { OnOk result (done self.new ≡ front (done self.old)) }
        ensures undone { OnOk result (undone self.new ≡ last_patch (done self.old) ∷ undone self.old) }
        ensures kind { kind self.new ≡ kind self.old }
        ensures err_table { OnErr result (ds.new ≡ ds.old) }
        ensures err_done { OnErr result (done self.new ≡ done self.old) }
        ensures err_undone { OnErr result (undone self.new ≡ undone self.old) };

    /// Does the job again that was taken back last.
    ///
    /// # Errors
    /// Want of memory, and then nothing is changed.
    fn redo(&mut self, ds: &mut DataSet) -> Result<(), AllocError>
        requires some { 0 < length (undone self.old) }
        requires stands { StandsBefore (first_patch (undone self.old)) ds.old }
        requires sound { IsSound (after_of (first_patch (undone self.old)) ds.old) }
        ensures table { OnOk result (ds.new ≡ after_of (first_patch (undone self.old)) ds.old) }
        ensures done { OnOk result (done self.new ≡ done self.old ++ first_patch (undone self.old) ∷ []) }
        ensures undone { OnOk result (undone self.new ≡ rest (undone self.old)) }
        ensures kind { kind self.new ≡ kind self.old }
        ensures err_table { OnErr result (ds.new ≡ ds.old) }
        ensures err_done { OnErr result (done self.new ≡ done self.old) }
        ensures err_undone { OnErr result (undone self.new ≡ undone self.old) };

    /// Forgets what was taken back.
    fn drop_undone(&mut self)
        ensures done { done self.new ≡ done self.old }
        ensures undone { undone self.new ≡ [] }
        ensures kind { kind self.new ≡ kind self.old };

    /// Forgets all patches.
    fn clear(&mut self)
        ensures done { done self.new ≡ [] }
        ensures undone { undone self.new ≡ [] }
        ensures kind { kind self.new ≡ kind self.old };

    /// The patch of the last job that stands; `None` exactly where none does.
    fn last(&self) -> Option<&Patch>
        ensures { option_copied result ≡ newest_of (done self.now) };
}
