//! The place at two numbers, and one that lies further on.
//!
//! Both answer None where the place would lie off the map; nothing wraps round at 180 degrees, and
//! nothing is clamped.

ghost use Rattle.std.specs.Prelude.{◌≡◌, ◌↔◌, ◌+ℤ◌, IsTrue, IfSome, false};
ghost use Rattle.std.specs.Option.{ForNone};
ghost use Rattle.osm_base.specs.OnMap.{is_longitude, is_latitude};
ghost use Rattle.osm_base.specs.Place.{place_at, shifted};
ghost use Rattle.osm_base.specs.Same.{same_coord};

use crate::coord::Coord;

/// The greatest size of a longitude: 180 degrees.
const MOST_LON: u64 = 1_800_000_000;

/// The greatest size of a latitude: 90 degrees.
const MOST_LAT: u64 = 900_000_000;

fn is_lon(lon: i64) -> bool
    ensures { result ≡ is_longitude lon }
{
    lon.unsigned_abs() <= MOST_LON
}

fn is_lat(lat: i64) -> bool
    ensures { result ≡ is_latitude lat }
{
    lat.unsigned_abs() <= MOST_LAT
}

/// The place at a longitude and a latitude, both in units of 10^-7 degree.
///
/// None exactly where the longitude isn't from -180 to 180 degrees or the latitude isn't from
/// -90 to 90 degrees.
#[tactic(auto, using(crate::proofs::PlaceLaws::no_longitude, crate::proofs::PlaceLaws::no_latitude))]
pub fn coord_of(lon: i64, lat: i64) -> Option<Coord>
    ensures { result ≡ place_at lon lat }
{
    if is_lon(lon) && is_lat(lat) {
        Some(Coord {
            lon: lon as i32,
            lat: lat as i32,
        })
    } else {
        None
    }
}

/// The place that lies `dx` further east and `dy` further north, both in units of 10^-7 degree
/// and negative for west and south.
///
/// None exactly where the sum of the longitudes or that of the latitudes is out of range, for
/// every `dx` and `dy`, the ends of an `i64` too.
#[tactic(auto, using(crate::proofs::PlaceLaws::no_longitude, crate::proofs::PlaceLaws::no_latitude))]
pub fn shift(at: Coord, dx: i64, dy: i64) -> Option<Coord>
    ensures { result ≡ shifted at dx dy }
{
    let lon = further(at.lon, dx)?;
    let lat = further(at.lat, dy)?;
    coord_of(lon, lat)
}

// A number `by` further on, where it fits. Where it doesn't, it is no longitude and no latitude.
fn further(from: i32, by: i64) -> Option<i64>
    ensures sum { IfSome result (λ sum. sum ≡ from +ℤ by) }
    ensures far { ForNone result ((is_longitude (from +ℤ by) ≡ false) × (is_latitude (from +ℤ by) ≡ false)) }
{
    i64::from(from).checked_add(by)
}

/// Whether two places are one.
#[tactic(auto, using(crate::proofs::SameLaws::same_coord_decides))]
pub fn same_place(a: Coord, b: Coord) -> bool
    ensures value { result ≡ same_coord a b }
    ensures decides { IsTrue result ↔ (a ≡ b) }
{
    a.lon == b.lon && a.lat == b.lat
}
