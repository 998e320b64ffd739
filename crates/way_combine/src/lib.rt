//! The tools that join ways to one, and turn a way round.
//!
//! Each is the `Undoable` of a command, which plans the jobs of one verb as `outcome` of `tool_api` says. `combine` makes its
//! tests part by part, in the order of the definition, and ends by `closed`. The last test folds the members of each
//! relation, and puts them into the draft at once; then the ways are joined in it. Relations are found through the users
//! of the ways, never by a walk of the table.
//!
//! Where to add a case: a test of a job goes between those of its plan, in a file of its own, with a contract that
//! names its line of the definition.
#![tactic(auto)]

mod change;
mod combine;
mod joining;
mod relations;
mod reverse;
mod ways;

pub use combine::CombineTool;
pub use reverse::ReverseTool;
