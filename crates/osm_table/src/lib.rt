//! What is known of each object of the map.
//!
//! An entry holds three states of one object side by side, as JOSM does when it merges: the
//! `base` that a server last gave, `mine` that the user edits, and the `theirs` of a conflict
//! that a later download told. `Table` keeps the entries under their keys, with the number of the
//! next new object; `ToldMap` keeps what one download tells. Contracts see both as finite maps in the
//! rank order of keys. Both keep their entries in the order in which they were put (`KeyedEntries`),
//! and find them by halving while the keys come by rank (`rising`), and else by hash (`Places`). After
//! a first download the table is the told map, until it is changed: then it copies the keys, and shares
//! the entries (`OwnTable`). A table takes any entries: which ones make a sound table is for the layer
//! above to keep. `specs/Table.antt` has the words on entries and tables (living, known side, changed,
//! users), `specs/Told.antt` those on told maps.
#![tactic(auto)]

mod entry;
mod keyed_entries;
mod law;
mod ordered;
mod own_table;
mod places;
mod rising;
mod shared;
mod shared_entry;
mod table;
mod told;
mod told_map;

pub use entry::{Base, Conflict, Entry, Why};
pub use keyed_entries::KeyedEntries;
pub use law::{same_entry_is_told, same_mine_is_told, same_why_is_told};
pub use ordered::Ordered;
pub use own_table::OwnTable;
pub use shared::Shared;
pub use shared_entry::{EntryParts, SharedEntry, same_mine};
pub use table::Table;
pub use told::Told;
pub use told_map::ToldMap;
