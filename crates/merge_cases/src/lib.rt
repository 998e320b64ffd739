//! What becomes of one object that two sides changed: of itself in a merge, and by the user's choice.
//!
//! `decide` gives the case of an object in a merge, a `Verdict`, by what is known of it and what a download tells. `joined` makes
//! the content that comes of three, the base's, mine and theirs, where the two sides changed other parts, and `joins` tells
//! beforehand, without memory, whether there is one that the API takes. Its parts, `body_pick`, `tag_pick`, `picked_by` and
//! `with_body`, are there for whoever settles clashes by another rule. `specs/Case.antt` has the cases, `specs/Join.antt` what
//! comes of three contents.
//!
//! A conflict holds a newer state of the server, theirs, beside the base and mine. `Choice` has the ways out of it: mine, theirs,
//! the tags of one with the body of the other, or the content that comes of all three where each clash is settled.
//! `specs/Resolve.antt` says what the object then is, and which choices it leaves.
//!
//! All speak of one object; what a merge makes of a whole table is for the layer above. A new case is one more line in the
//! function of its place in `specs/Case` and in `specs/Join`, and what it says of the entry a line in `proofs/Means.antt`. A new
//! choice is a variant of `Choice` with its line in `specs/Resolve`.
#![tactic(auto)]

mod cases;
mod choice;
mod join_tests;
mod joining;
mod law;
mod pick;
mod tag_key;
mod tag_keys;
mod verdict;

pub use cases::{decide, is_withdrawal};
pub use choice::{Choice, Side};
pub use join_tests::joins;
pub use joining::{TagRule, joined, picked, picked_by, with_body};
pub use law::{
    each_tag_is_picked, parts_settle_clashes_alone, same_kind_is_told, same_pick_is_told,
    same_value_is_told,
};
pub use pick::{Pick, body_pick, tag_pick};
pub use tag_key::TagKey;
pub use tag_keys::TagKeys;
pub use verdict::Verdict;
