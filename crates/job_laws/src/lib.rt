//! Laws of what jobs mean, whatever code does them: of a table with a download merged into it, of a conflict that is resolved in
//! parts, and of the pieces of a way.
//!
//! The jobs are defined in `tool_api`. What follows from these definitions alone stands here, for the commands and for the laws
//! of editors above them; there is no code. A merged table is sound, with what `specs/MergeOutcomes` says of each key
//! (`merged_is_sound`); what comes back and what is held are the ends of chains (`wanted_and_held_end_chains`); objects that
//! aren't told of stay (`untold_stays`); which are in conflict follows from what is here and what is told (`conflicts_of_merges`); and
//! no edit is lost (`edits_stay`). What is resolved in parts has of each tag the value of the side that stands
//! (`parts_are_picked_by_key`). The pieces of a way lie between its cuts
//! (`pieces_lie_between_cuts`), the first of the longest stays (`first_longest_is_kept`), and the keys of the others are new
//! ones in order (`keys_go_along_the_way`).
//!
//! Advice for who changes it: a file is named by its job first, `Merge..`, `Resolve..` or `Split..`. A lemma belongs here if it speaks of
//! definitions of jobs and of nothing that one command has of its own, such as the lists of a walk or the draft of a pass.
#![tactic(auto)]

mod merges;
mod resolves;
mod splits;

pub use merges::{
    conflicts_of_merges, edits_stay, merged_is_sound, untold_stays, wanted_and_held_end_chains,
};
pub use resolves::parts_are_picked_by_key;
pub use splits::{first_longest_is_kept, keys_go_along_the_way, pieces_lie_between_cuts};
