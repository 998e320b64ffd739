//! What becomes of the members of relations when other objects go, are cut or are joined, and of objects that become one.
//!
//! A call gives the new members of a relation, just as the definitions of `tool_api` say (`specs/Gone`,
//! `specs/Upkeep`), or none where they don't meet its rule, and changes no table: a tool puts them into its draft.
//! Members keep their order and their roles. Of objects that become one, ways or nodes, `joining` tells which is kept, and
//! the tags of all (`specs/Combine`). The tools that delete, split, combine and fuse stand on it.
//!
//! To add a rule of upkeep: its definition goes into `tool_api`, its call into a file of its own.
#![tactic(auto)]

mod drop;
mod fold;
mod joining;
mod replace;

pub use drop::drop_members;
pub use fold::fold_members;
pub use joining::{kept_key, other_keys, united_tags};
pub use replace::{Piece, replace_member};
