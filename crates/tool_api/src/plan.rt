//! What a job comes to.
use crate::refusal::Refusal;
use dataset::{Draft, Patch};
use osm_base::Keys;

/// What a job comes to, before anything has changed.
#[derive(Drop)]
pub enum Plan {
    /// Why nothing is to change.
    Refused(Refusal),
    /// What is to change, and the keys of what that makes.
    Change { draft: Draft, made: Keys },
    /// What is to change, as its difference already. It makes no new object.
    Ready { patch: Patch },
}
