//! What an upload sends, in which order, or why it sends nothing.
//!
//! `plan` makes of a data set the list of changes that bring its edits to a server (API 0.6): what is new first, so that
//! each object stands there before another refers to it; then changes of what the server has; deletions last, users before
//! what they use. Where relations that are deleted use each other in a ring one of them is emptied first. `specs/Plan.antt`
//! says which changes they are, `specs/Refused.antt` when nothing is sent, and `specs/World.antt` what a server is that
//! takes changes one at a time. The contract of `plan` says that such a server accepts each of them, and what it has in
//! the end. It stands on `dataset`.
//!
//! Advice for who changes it: relations that are made and relations that are deleted are ordered by one machine, keys with
//! the number of others that each waits for (`waiting`), so `specs/Order.antt` and `specs/Fall.antt` take who needs what as
//! an argument. The definitions look at all that are left; the code asks the index who uses a key, and counts.
#![tactic(auto)]

mod backing;
mod change;
mod down;
mod falling;
mod kinds;
mod laws;
mod marking;
mod order;
mod part;
mod planning;
mod rank_set;
mod refusal;
mod refused;
mod sending;
mod waiting;
mod world;

pub use change::{Change, Changes};
pub use laws::{
    downs_are_told, fresh_ids_exist, made_are_told, servers_stay_sound, stuck_is_greatest,
    taken_one_by_one, ups_are_told,
};
pub use marking::changed_keys;
pub use planning::plan;
pub use refusal::PlanRefusal;
pub use world::WorldRefusal;
