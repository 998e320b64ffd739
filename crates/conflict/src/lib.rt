//! Objects in conflict: which they are, how they are shown, and how a choice settles one.
//!
//! A merge leaves an object in conflict where it can't join both sides. `conflicts` lists such objects, `write_conflict`
//! shows one with its base, mine and theirs, and the command `Resolve` settles it by a choice: `choice_tests` asks whether
//! the object can be settled so, `choosing` makes the entry that comes of the choice, and `settling` asks whether that goes
//! with the rest of the table, and drafts it. What each choice means is a definition of `merge_cases`, what the command does
//! one of `tool_api`, and `specs/Shown.antt` has the text. That the table stays sound is shown in `proofs/Sounds.antt`:
//! theirs was sound as part of the conflict, what is chosen has the kind of both sides and references of theirs or mine
//! alone (`proofs/Chosen.antt`), and the tests keep what it refers to, and what refers to it, there.
//!
//! A new choice is a variant of `Choice` with its line in `merge_cases`, in `choosing`, in `choice_tests` and in `Chosen`.
#![tactic(auto)]

mod choice_tests;
mod choosing;
mod listing;
mod resolve;
mod settling;
mod showing;

pub use listing::conflicts;
pub use resolve::{Resolve, ResolveTool};
pub use showing::{write_conflict, write_known};
