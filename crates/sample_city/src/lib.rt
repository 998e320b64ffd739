//! A city to try things on.
//!
//! `sample_city` tells of streets that follow each other, each along ten nodes of a grid, and of a route over each ten
//! of them: about ten objects a street. `specs/City.antt` lists them and says by look-up what is told of a key; laws say
//! that the two agree, that all may be told, and that each reference leads to an object of the city.
//!
//! It stands on `osm_table` for the told map, and is made as a download is told: all objects share the metadata and the
//! texts that they have in common.
#![tactic(auto)]

mod city;
mod law;

pub use city::sample_city;
pub use law::{city_may_be_told, nodes_stand_in_a_grid, references_are_told, told_by_key};
