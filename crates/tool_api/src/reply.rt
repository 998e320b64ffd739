//! What a tool answers.
use crate::refusal::Refusal;
use osm_base::Keys;

/// The answer of a tool: the keys of what it made, or why it changed nothing.
#[derive(Drop)]
pub enum Reply {
    Done(Keys),
    Refused(Refusal),
}
