//! A step of a script: its file is read, it is interpreted, it is taken, and its answer is written.
//!
//! `find` reads what a step names on the shelf to a value: the job that a file's objects make, or its bytes where they are
//! read with the table at hand. `turn` in `specs/Turn.antt` says of that value and of the state of the machine of whole tables
//! what the step answers and which state follows, and knows no shelf and no sink; `interpret` looks at the table alone and
//! says which step of `History` that is, if any, and what is answered. Who has the table takes the step, and `send_response`
//! writes the reply line and the text behind it. `run_steps` does so for one editor; `specs/States.antt` says what it writes and
//! over which states. Nothing here knows meetings: `edit_session`, which has them, takes the step that `interpret` says in the
//! history of one of their editors.
//!
//! Each function that moves the history has one `requires` and one `ensures` on it (`Fits`, `Moved`);
//! each that writes promises the whole text after Ok and a front of it after Err. To add a look, which an editor may take who
//! waits for an answer, give it its lines in `specs/Looks.antt` and its arms in `looks.rt`; to add something for which a file
//! is read, give `file_found` and `purpose_turn` a line, and `find_file` and `interpret_act` an arm. A file of another kind is
//! a variant of `Found`.
#![tactic(auto)]

mod boxes;
mod counting;
mod doing;
mod files;
mod limits;
mod loading;
mod looks;
mod needs;
mod printing;
mod response;
mod run;
mod searching;
mod sending;
mod sent;
mod settling;
mod stop;
mod turns;
mod uploading;

pub use boxes::{Dealt, deal};
pub use doing::{Doing, interpret, is_given_up};
pub use files::{Bytes, Fetched, fetch};
pub use limits::Limits;
pub use loading::{Found, find};
pub use looks::{Behind, look_at};
pub use needs::missing_verb;
pub use response::Response;
pub use run::{run_steps, send_response};
pub use stop::Stop;
pub use turns::edit_refused;
pub use uploading::plan_refused;
