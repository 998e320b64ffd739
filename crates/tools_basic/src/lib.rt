//! The tools of the plain commands: adding objects, setting tags, moving nodes, and giving an object another place,
//! other nodes or other members.
//!
//! Each is the `Undoable` of a command, which plans the jobs of one verb as `outcome` of `tool_api` says: the tests of the
//! job, then a draft of the change, and last `closed`, which makes the closing tests. That the draft's table is sound
//! where the tests pass stands in `tool_api`'s `proofs/Sounds`.
//!
//! To add a command: take the form of `tag`, a small function for each job, and in `proofs/` two lemmas for each, that
//! its draft makes the table of the definition and that this table is sound.
#![tactic(auto)]

mod add;
mod change;
mod shift;
mod tag;

pub use add::AddTool;
pub use change::ChangeTool;
pub use shift::MoveTool;
pub use tag::TagTool;
