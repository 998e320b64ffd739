//! What a command does, and how the history of a session knows it.
//!
//! A *job* is one step of a script with its arguments. A *command* plans the jobs of one verb: it is lent the data set
//! and answers a draft of the change, or its patch, or a refusal. A *tool* runs jobs over the data set, keeps the patch of
//! each that it did, and can take the last one back or do it again; `Undoable` is the tool of any command. What each job
//! means, its reply and the new table, is one small definition in `specs/`: `plain`. A command is proved to plan just that.
//! A job has all that it needs: that of an import has the new objects of a file (`NewObjects`), by the file's own keys.
//!
//! To add a command: add its variant to `Job` (and to `Refusal` where it refuses in a new way, and to `Verb` where it has a
//! verb of its own); write its definition in a file of `specs/` from the words of `specs/Checks`, `Changes` and `Closing`, with
//! a worked example in `proofs/Examples`; add its lines to `specs/Plain`, and its laws to `editor_laws`. Then write its `Command`
//! over the calls of this crate: the tests, a draft of the change (`edit_all`, `delete_all`, `add_new`), and `closed`.
#![tactic(auto)]

mod additions;
mod checks;
mod closing;
mod command;
mod contents;
mod deletion;
mod edits;
mod job;
mod key_set;
mod kinds;
mod law;
mod new_objects;
mod nodes;
mod plan;
mod refusal;
mod repeats;
mod reply;
mod tool;
mod undoable;
mod uses;
mod verb;

pub use additions::{add_new, new_key};
pub use checks::{
    complete_test, first_refusal, is_named, list_tests, reference_test, reference_tests,
    target_test, target_tests, twice_test,
};
pub use closing::{closed, in_conflict, makes_unfit, room_test};
pub use command::Command;
pub use contents::{content_of, copied, is_relation, living, push_refs_by, refs_at, way_refs};
pub use deletion::delete_all;
pub use edits::{EditContent, NewNodes, edit_all, edits_plan};
pub use job::Job;
pub use key_set::KeySet;
pub use kinds::Kinds;
pub use law::{is_candidate_is_told, is_clash_is_told};
pub use new_objects::{NewObject, NewObjects};
pub use nodes::{first_in, last_in, node_keys};
pub use plan::Plan;
pub use refusal::Refusal;
pub use repeats::distinct;
pub use reply::Reply;
pub use tool::Tool;
pub use undoable::Undoable;
pub use uses::{all_users, use_test, use_tests};
pub use verb::Verb;
