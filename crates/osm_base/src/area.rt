//! Boxes on the map.

/// A box between two meridians and two parallels, in units of 10^-7 degree, as those of `Coord`.
///
/// `west` and `east` bound the longitudes, `south` and `north` the latitudes. Whether the edges
/// belong to it, and what a box is worth whose `west` is beyond its `east`, is for its user to
/// say.
#[derive(Clone, Copy)]
pub struct Area {
    pub west: i32,
    pub south: i32,
    pub east: i32,
    pub north: i32,
}
