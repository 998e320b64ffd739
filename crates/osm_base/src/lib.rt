//! The values of the map: keys and their order, places, texts, tags, references, members, contents, metadata.
//!
//! Each type is seen by contracts as plain data: keys and places as they are, texts as their bytes in UTF-8, tags,
//! references and members as lists. Each call gives exactly what a definition in `specs/` says: `Rank` has the order
//! of keys, `Number` and `Coord` the small grammars with their written forms, `Content` the references and the limits
//! of API 0.6, `Same` the equality of values. What is written of a key or a coordinate is read back.
//!
//! It stands on the standard library alone, and all other crates of the editor but `osm_outside` stand on it. What is
//! shared inside a value no contract shows.
#![tactic(auto)]

mod area;
mod content;
mod coord;
mod coord_text;
mod key;
mod key_text;
mod keys;
mod law;
mod members;
mod meta;
mod moment;
mod number;
mod order;
mod place;
mod references;
mod refs;
mod rising;
mod tags;
mod text;

pub use area::Area;
pub use content::{Content, body_fits, fits, refers, same, text_fits};
pub use coord::Coord;
pub use coord_text::{read_coord, write_coord};
pub use key::{Key, Kind, rank, same_key};
pub use key_text::{kind_of, read_id, read_key, write_key};
pub use keys::Keys;
pub use law::{
    same_content_is_told, same_coord_is_told, same_members_is_told, same_meta_is_told,
    same_refs_is_told, same_text_is_told,
};
pub use members::{Member, Members};
pub use meta::{Meta, Stamp};
pub use moment::Moment;
pub use number::{read_digits, write_digits};
pub use order::ranked;
pub use place::{coord_of, shift};
pub use references::{node_key, push_references};
pub use refs::Refs;
pub use rising::{is_among, is_before, place_among, place_within, stands_at};
pub use tags::Tags;
pub use text::{Text, TextFault};
