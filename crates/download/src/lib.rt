//! What a downloaded file tells of the objects of the map.
//!
//! `tell` makes a told map of a file's objects: each object as it stands there, live or deleted, and each reference
//! of a live object that the file doesn't have itself as mentioned. `specs/Tell` says it in a line, and a law says it
//! by look-up, key by key. Another law says that the objects of every file that was read as a download may be told:
//! their ids are positive, their versions and contents those of a server.
//!
//! `filter` tells only a part of a file: what lies in a box, and what has some tags, with what belongs to it. Its choice
//! is that of the map call of API 0.6, by sets of keys; `specs/Filter` has a line for each of its steps, and a law says
//! by look-up what is told of a key. What is told is what the kept objects tell, so each of their references is told of
//! or mentioned.
//!
//! It stands on `opl_file` for the objects and on `osm_table` for the told map. Here the choice stands in `filtering`,
//! with its sets in `key_set`, and `telling` makes the told map.
#![tactic(auto)]

mod filtering;
mod key_set;
mod law;
mod telling;

pub use filtering::{filter, has_tags, in_box};
pub use law::{filtered_by_key, told_by_key, what_is_read_may_be_told};
pub use telling::tell;
