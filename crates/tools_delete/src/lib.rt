//! The tools of the commands that take objects away: one deletes, one purges, one erases.
//!
//! Each is the `Undoable` of a command, which plans the jobs of one verb as `outcome` of `tool_api` says. Deleting refuses
//! what others use; purging leaves of it that it is there; erasing mends the ways and relations that use it, and alone of
//! the three makes the closing tests. Who uses what comes from the index of the data set, so that a job costs the objects
//! that it touches and their users, and none walks the table. Why each table that they plan is sound stands in `proofs/`.
//!
//! To add a way of taking away: a file with its tests, its draft and its command, as `delete`, and its soundness.
#![tactic(auto)]

mod delete;
mod erase;
mod mending;
mod purge;
mod touched;

pub use delete::DeleteTool;
pub use erase::EraseTool;
pub use purge::PurgeTool;
