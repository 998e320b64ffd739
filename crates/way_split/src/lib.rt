//! The command that splits ways.
//!
//! A way is cut at nodes into pieces; the longest stays in the way, the others become new ways, and each relation that
//! names the way gets members for them. What that means to the letter is `split` in `specs/Split` of `tool_api`; the
//! command is proved to plan just that, at the cost of the way, its pieces and the relations that name it. It stands on
//! `relation_upkeep`, which has the rule for members.
//!
//! `pieces` cuts, `parts` gives keys, `drafts` has the new entries, `split` the tests and their order. `job_laws` says with no
//! loop what pieces, the kept one and the keys are. That the new table is sound stands in `proofs/Sounds`.
#![tactic(auto)]

mod drafts;
mod node_checks;
mod nodes;
mod parts;
mod pieces;
mod split;

pub use split::SplitTool;
