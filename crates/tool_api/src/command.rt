//! The trait of commands.
ghost use Rattle.std.specs.Prelude.{◌≡◌, IfOk};
ghost use Rattle.dataset.specs.Sound.{IsSound};
ghost use Rattle.tool_api.specs.declared.verb.Verb.{Verb};
ghost use Rattle.tool_api.specs.Plain.{verb_of, outcome, IsWellFormed};
ghost use Rattle.tool_api.specs.Planned.{Plans};

use crate::job::Job;
use crate::plan::Plan;
use crate::verb::Verb;
use dataset::DataSet;
use std::alloc::AllocError;

/// The jobs of one verb, each a function from a data set to what is to become of it.
///
/// A command changes nothing and keeps nothing: it is lent the data set, and `Undoable` does what it plans.
pub trait Command: Drop {
    ghost kind: { Verb };

    /// The verb of its jobs.
    fn verb() -> Verb
        ensures { result ≡ kind };

    /// Plans a job: its outcome, and a sound table where it isn't refused.
    ///
    /// # Errors
    /// No memory was left.
    fn plan(ds: &DataSet, job: &Job, limit: u64) -> Result<Plan, AllocError>
        requires sound { IsSound ds.now }
        requires verb { verb_of job.now ≡ kind }
        requires formed { IsWellFormed job.now }
        ensures plans { IfOk result (Plans ds.now (outcome job.now ds.now limit)) };
}
