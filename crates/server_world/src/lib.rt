//! A server as a value: it takes the changes of an upload one at a time.
//!
//! A `World` has objects, each with a version and a content or none, and the ids that were picked for placeholders. What a
//! change does to it, and what it refuses, is said by `upload_order` (its `specs/World`); here stand the world of a data
//! set's bases (`specs/Bases`), the ids that are free (`specs/Free`), a change that is sent with one (`specs/Sent`), the
//! rehearsal of an upload (`specs/Rehearsed`), of which the contract says that a plan is never refused, and the least
//! object that refers to what isn't there (`specs/Unsound`). It stands on `upload_order`.
//!
//! Advice for who changes it: `Objects` and `Names` each keep an index beside what clauses see, so that a change costs no
//! walk; all that can find no memory comes before the first write, so that a change is taken whole or not at all. An
//! object that stands is never taken out, so `Objects` also keeps where free ids are sought (`specs/Kept`), for all tables.
//! A rehearsal has one table, and keeps starts of its own, which pass by the ids of that table too.
#![tactic(auto)]

mod asked;
mod bases;
mod entry;
mod free;
mod laws;
mod names;
mod objects;
mod pairs;
mod refusal;
mod rehearsal;
mod sending;
mod soundness;
mod starts;
mod world;

pub use entry::WorldEntry;
pub use laws::{a_server_exists, ids_do_not_run_out, rehearsal_is_run, sends_are_runs};
pub use refusal::WorldFault;
pub use rehearsal::{Rehearsal, rehearse};
pub use sending::Sent;
pub use world::World;
