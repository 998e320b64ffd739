//! Scripts, read into steps, and the replies of steps, written as lines.
//!
//! `read_script` gives a script's steps or its first line outside the grammar, exactly as
//! `specs/Script` says, and promises that the steps are in order: no group in a group, nothing
//! undone inside one, each job well formed, and no line of a meeting in a script that is none
//! (`specs/Place`). `write_reply` appends the one text of a reply (`specs/Reply`). It stands on
//! `opl_line` for tags, references and members, on `opl_file` for the cut into lines, on
//! `map_search` for queries and for the cut of a line into words, on `merge_cases` for the ways out
//! of a conflict, and on `tool_api` for jobs and their refusals.
//!
//! The first word of a line gives its form, and the form says how the words behind it are read. A
//! new line wants a variant of `Form` with its word in `FORMS` and its arm in `read_form`
//! (`forms.rt`), in the order of the words; its line in `all_lines` of `specs/Grammar`, which says
//! what it asks for; and an example in `proofs/Examples` or `MeetingExamples`. A line with several
//! words behind the first has a function in `forms.rt`. A word that can be left out begins with a
//! letter of its own, and is read by `optional` of `specs/Items`. A new refusal has its number and
//! what it carries in `refused` or `job_refused` of `specs/Reply`, and its arm in `reply.rt`.
//!
//! What a line asks for is an `Act`, by families: a job, a step on the history, a look at the table,
//! a file with what it is read for, and what only meetings have.
#![tactic(auto)]

mod fault;
mod forms;
mod items;
mod line;
mod place;
mod reply;
mod script;
mod step;

pub use fault::{ScriptFault, Unread};
pub use items::{alone, first_word, key_word};
pub use line::{has_outer_blank, is_skipped, next_line};
pub use place::is_meeting;
pub use reply::{StepRefusal, StepReply, write_reply};
pub use script::read_script;
pub use step::{Act, HistoryStep, Look, MeetStep, Purpose, Step};
