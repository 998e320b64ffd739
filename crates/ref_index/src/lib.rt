//! Who refers to what.
//!
//! An index holds a bag of pairs: each reference of each object as often as it stands. It lends the
//! distinct users of a key by rank, without memory and without a search. Pairs come and go one by
//! one, so that nobody makes a list of them, and only to add one can find no memory. Who adds the new
//! pairs first can take them out again where that fails, and has changed all or nothing. It stands
//! on the keys of `osm_base` and knows no objects: that its pairs are those of a table is the
//! business of who holds it.
//!
//! A user leaves the list of a key with the last of its pairs, so a pair is counted and not only
//! noted: a relation may name an object twice, and a closed way names its first node again. Most
//! pairs are there once, and that the user is listed says so: only the others have a number.
#![tactic(auto)]

mod index;
mod lists;
mod pair;
mod repeats;
mod users;

pub use index::RefIndex;
pub use pair::Pair;
pub use users::Users;
