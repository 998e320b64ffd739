//! The steps by which relations are deleted.

use osm_base::Key;

/// One step.
#[derive(Clone, Copy)]
pub enum Down {
    /// The relation is emptied, so that it uses no other.
    Clear(Key),
    /// The relation goes; whether it was emptied before.
    Remove(Key, bool),
}
