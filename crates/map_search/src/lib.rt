//! Questions to the map: which objects meet a query, and how a query is written.
//!
//! A query asks for kinds, tags and states of objects, for what found objects refer to (`child`) and for what refers to
//! them (`parent`), joined by `not`, `and` and `or`. `read_query` reads one from words, exactly as `specs/Reading` says, and
//! `read_as_spelled` is the law that this reads the grammar of `specs/Grammar`. `find` lists the keys of a data set that meet
//! one, exactly as `specs/Meets` says.
//!
//! The reader goes through the words once with a stack of what waits for a part of the query: words that open a factor
//! (`not`, `child`, `parent`, a bracket) wait for that factor, and the left sides of `and` and `or` for the right ones.
//! `takes` says which part each of them takes, and so which binds before which. `find` asks the forms of a query of lists of
//! keys that are in order, and each list is what one form lets through: their entries are found where they lie, behind each
//! other. A new word that tells objects apart wants a variant of `Form` and of `QueryValue`, its word in `specs/Words`, and its
//! meaning in `specs/Meets`.
#![tactic(auto)]

mod fault;
mod finding;
mod law;
mod passes;
mod pending;
mod query;
mod reading;
mod relatives;
mod sets;
mod states;
mod words;

pub use fault::QueryFault;
pub use finding::find;
pub use law::read_as_spelled;
pub use query::{Form, Query};
pub use reading::read_query;
pub use words::next_word;
