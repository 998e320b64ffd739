//! Ways out of a conflict.

use crate::tag_keys::TagKeys;

/// One of the two sides of a conflict.
#[derive(Clone, Copy)]
pub enum Side {
    /// What the user has.
    Mine,
    /// What the server has.
    Theirs,
}

/// What is to become of an object in conflict.
#[derive(Drop)]
pub enum Choice {
    /// What the user has stays. An object that came back is deleted again.
    Mine,
    /// What the server has is taken.
    Theirs,
    /// The tags of one side, and the place, the references or the members of one.
    Mix { tags: Side, body: Side },
    /// What only one side changed is that side's. Of the tags that both changed those with a listed
    /// key are theirs and the others mine, and the body is that of the side named, if both changed
    /// it.
    Parts { body: Side, theirs: TagKeys },
}
