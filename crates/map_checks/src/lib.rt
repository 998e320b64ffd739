//! Checks of the map, and the commands that mend what they find.
//!
//! A check finds doubled nodes, ways in which a node stands twice side by side, and rings that are drawn open: ways that end
//! where they begin, at another node. What that means to the letter is `specs/Findings` of `tool_api`. `list_findings` lists
//! all of a data set, `findings` in `specs/`. A squeeze leaves out the repeats of ways, and a fuse makes one node of nodes at
//! one place, to which ways and relations refer in place of them all: `squeeze` and `fuse` of `tool_api`. Each command is the
//! `Undoable` of one that plans just that, at the cost of the named objects and those that use them, never of the table.
//!
//! `by_kind` finds the places of nodes and the references of ways, in a walk over all keys where they lie. `places` has the
//! first node at each place, by which doubled nodes are found in one pass; only where one of them is an end of a way may that
//! be an open ring. `law` says what a squeeze and a fuse leave of the named objects.
//!
//! Where to add a check: its test by look-up goes into `specs/Findings` of `tool_api`, a variant with a sentence into
//! `Finding`, a line at the end of `findings`, and its pass into `listing`.
#![tactic(auto)]

mod by_kind;
mod change;
mod finding;
mod fuse;
mod law;
mod listing;
mod places;
mod repeats;
mod squeeze;

pub use finding::{Finding, Findings};
pub use fuse::FuseTool;
pub use law::{a_fuse_leaves_the_kept_node, a_squeeze_leaves_no_repeat};
pub use listing::list_findings;
pub use squeeze::SqueezeTool;
