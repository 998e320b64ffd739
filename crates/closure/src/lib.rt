//! Sets of keys, and those that are closed under a rule.
//!
//! `KeySet` is a list of keys in which one look-up finds a key.
//!
//! Whoever merges, plans an upload or purges asks which objects hang on others: those at the ends of
//! chains, in which each object leads to the next, or those all of whose needs are met. `reach`
//! finds the ends of chains. It needs no list of all objects: one set in order is both the marks and
//! the queue, and each key that is marked is asked once what it leads to, by the trait `Links`.
//! `specs/Closure.antt` has the words: `Chain` and `Ready` say what such keys are, and `least`
//! computes them by rounds over a list, for definitions that have to decide. The laws in `law.rt`
//! say that the two agree.
#![tactic(auto)]

mod key_set;
mod law;
mod links;
mod marks;

pub use key_set::KeySet;
pub use law::{ends_of_chains_are_least, others_are_stuck, ready_ones_are_least};
pub use links::Links;
pub use marks::reach;
