//! Contents whose references are called otherwise.
//!
//! A placeholder is given an id, or a file's own id a new one: then every content that refers to it has to follow. What
//! a key is called stands in a `Renaming`, and `renamed` makes a content of what its references are called then.
//! `specs/Renamed` says it by any function from keys to keys.
//!
//! It stands on `osm_base` alone. To rename in another way, write another `Renaming`.
#![tactic(auto)]

mod contents;
mod names;

pub use contents::renamed;
pub use names::Renaming;
