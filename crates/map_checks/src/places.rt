//! Places of nodes, and the first node at each.
ghost use Rattle.std.specs.Prelude.{◌≡◌, ◌++◌, ◌∷◌, [], if◌then◌else◌, Some, IfOk, OnOk, List};
ghost use Rattle.std.specs.Option.{option_and_then};
ghost use Rattle.osm_base.specs.Same.{same_coord};
ghost use Rattle.osm_base.specs.declared.coord.Coord.{Coord};
ghost use Rattle.osm_base.specs.declared.key.Key.{Key};
ghost use Rattle.tool_api.specs.Findings.{place_at, same_place, are_together};
ghost use Rattle.map_checks.specs.Places.{hashed, noted_at, first_at, HasFirst};

use crate::by_kind::{place_at, place_near};
use dataset::DataSet;
use indexmap::IndexMap;
use osm_base::{Coord, Key};
use std::alloc::{AllocError, Global};
use std::cell::Cell;

fn same_coord(a: Coord, b: Coord) -> bool
    ensures { result ≡ same_coord a b }
{
    a.lon == b.lon && a.lat == b.lat
}

fn same_place(a: Option<Coord>, b: Option<Coord>) -> bool
    ensures { result ≡ same_place a b }
{
    match (a, b) {
        (Some(a), Some(b)) => same_coord(a, b),
        _ => false,
    }
}

/// Whether both are living nodes, at one place. Two look-ups.
pub fn are_together(ds: &DataSet, a: Key, b: Key) -> bool
    ensures { result ≡ are_together ds.now a b }
{
    same_place(place_at(ds, a), place_at(ds, b))
}

/// A place as it is hashed.
#[derive(Clone, Copy, PartialEq, Eq, Hash)]
pub struct Place {
    lon: i32,
    lat: i32,
}

fn hashed(at: Coord) -> Place
    ensures { result ≡ hashed at }
{
    Place {
        lon: at.lon,
        lat: at.lat,
    }
}

/// The first node at each place, of those that were noted.
#[derive(Drop)]
pub struct Places {
    first: IndexMap<Place, Key>,
}

impl Places {
    /// No nodes, and room for so many places.
    ///
    /// # Errors
    /// No memory was left.
    pub fn with_capacity(alloc: Global, places: usize) -> Result<Places, AllocError>
        ensures { IfOk result (λ none. none.first.entries ≡ []) }
    {
        Ok(Places {
            first: IndexMap::with_capacity(alloc, places)?,
        })
    }

    /// Notes a node at a place, and answers the one that was noted there before it, if any. One look-up.
    ///
    /// # Errors
    /// No memory was left.
    fn note(&mut self, at: Coord, key: Key) -> Result<Option<Key>, AllocError>
        ensures before { IfOk result (λ before. before ≡ noted_at self.old.first.entries at) }
        ensures noted { OnOk result ((there : Coord) → noted_at self.new.first.entries there ≡ (if same_coord at there then Some key else noted_at self.old.first.entries there)) }
    {
        Ok(self.first.insert(hashed(at), key)?)
    }

    /// The first node at the key's place, of the keys that were looked at before, where the key's object is a living node.
    /// Of these keys the map has the first at each place, and then of this key too. The key is sought at the place `near`
    /// of the table, as in a walk. One look-up of its place, and one more where a node was there before it.
    ///
    /// # Errors
    /// No memory was left.
    pub fn look_at(
        &mut self,
        ds: &DataSet,
        near: &Cell<usize>,
        key: Key,
    ) -> Result<Option<Key>, AllocError>
        ensures first { IfOk result (λ first. (keys : List Key) → HasFirst ds.now keys self.old.first.entries → first ≡ option_and_then (first_at ds.now keys) (place_at ds.now key)) }
        ensures noted { OnOk result ((keys : List Key) → HasFirst ds.now keys self.old.first.entries → HasFirst ds.now (keys ++ key ∷ []) self.new.first.entries) }
    {
        let Some(at) = place_near(ds, near, key) else {
            return Ok(None);
        };
        match self.note(at, key)? {
            None => Ok(None),
            Some(first) => {
                self.note(at, first)?;
                Ok(Some(first))
            }
        }
    }
}
