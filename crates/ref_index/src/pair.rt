//! One reference.
use osm_base::Key;

/// An object and one that refers to it.
#[derive(Clone, Copy, PartialEq, Eq, Hash)]
pub struct Pair {
    /// What is referred to.
    pub of: Key,
    /// Who refers to it.
    pub user: Key,
}
