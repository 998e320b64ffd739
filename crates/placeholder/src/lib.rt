//! What a table is after a server's answers to the first changes of its upload, and that the rest of the upload goes on from it.
//!
//! A server takes the changes of a plan one at a time, and tells the id of each object that it made. `confirm` makes of these
//! answers the difference to the table as it is then: the object of each answered change has the base that the change left,
//! and an answered placeholder is the id that its object got, as a key and in all contents. `specs/Confirmed.antt` says that
//! table, `specs/Confirm.antt` which answers are taken. `plan_is_resumed` and `plan_is_resumed_after` say that the table can be
//! sent to the server as it is then, and that its plan is the rest of the plan. It stands on `upload_order` and `dataset`.
#![tactic(auto)]

mod answer;
mod confirming;
mod drafting;
mod fault;
mod laws;
mod renaming;

pub use answer::Answer;
pub use confirming::{confirm, confirm_plan};
pub use fault::ConfirmFault;
pub use laws::{confirmed_by_key, confirmed_is_sound, plan_is_resumed, plan_is_resumed_after};
