//! Places on the map.
//!
//! Longitudes and latitudes are whole numbers of 10^-7 degree, as the OpenStreetMap database
//! keeps them.

ghost use Rattle.std.specs.Prelude.{IsTrue};
ghost use Rattle.osm_base.specs.OnMap.{is_on_map};

/// A place on the map, in units of 10^-7 degree.
///
/// The longitude is from -1800000000 to 1800000000 and the latitude from -900000000 to 900000000:
/// there is no other `Coord`, so nobody has to test one. `coord_of` makes one of any two numbers.
#[derive(Clone, Copy, PartialEq, Eq)]
pub struct Coord {
    pub lon: i32,
    pub lat: i32,
    pub ghost on_map: { IsTrue (is_on_map lon lat) },
}
