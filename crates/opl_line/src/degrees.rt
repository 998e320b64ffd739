//! Coordinates at the front of bytes.
//!
//! The usual form, digits and perhaps a point with more digits, is read in one pass. What isn't of
//! this form is cut at the blank behind it, and `read_place` decides.

ghost use Rattle.std.specs.Prelude.{◌≡◌, ◌≤◌, ◌<◌, ◌^◌, ◌-◌, ◌∷◌, IfSome, Some};
ghost use Rattle.std.specs.Option.{option_map};
ghost use Rattle.osm_base.specs.Coord.{part_text, size_text, coord_text};
ghost use Rattle.opl_line.specs.Cut.{before, after};
ghost use Rattle.opl_line.specs.Field.{place_text};
ghost use Rattle.opl_line.specs.Line.{is_blank};

use crate::front::{digits_front, end_front};
use crate::number::{in_range, read_place};
use crate::pieces::cut;

/// The units in a degree: 10^7.
const UNIT: u64 = 10_000_000;

/// Nothing, or a coordinate of at most this size, in units of 10^-7 degree, and what is behind the
/// blank after it.
#[tactic(auto, using(crate::proofs::Coordinates::place_is))]
pub fn place_front(bytes: &[u8], limit: u32) -> Option<(Option<i64>, Option<&[u8]>)>
    ensures value { option_map (λ r. r.0) result ≡ place_text limit (before is_blank bytes.now) }
    ensures rest { IfSome result (λ r. option_map (λ rest. rest.now) r.1 ≡ after is_blank bytes.now) }
{
    if let Some((value, rest)) = usual_front(bytes) {
        let place = in_range(value, limit)?;
        return Some((place, rest));
    }
    let (piece, rest) = cut(bytes, b' ', b'\t');
    let place = read_place(piece, limit)?;
    Some((place, rest))
}

// A coordinate in the usual form. Others may be coordinates too.
#[tactic(auto, unfolding(osm_base::specs::Coord::coord_text))]
fn usual_front(bytes: &[u8]) -> Option<(i64, Option<&[u8]>)>
    ensures value { IfSome result (λ r. coord_text (before is_blank bytes.now) ≡ Some r.0) }
    ensures rest { IfSome result (λ r. option_map (λ rest. rest.now) r.1 ≡ after is_blank bytes.now) }
{
    match bytes {
        [b'-', digits @ ..] => {
            let (size, rest) = size_front(digits)?;
            Some((-(size as i64), rest))
        }
        _ => {
            let (size, rest) = size_front(bytes)?;
            Some((size as i64, rest))
        }
    }
}

// A coordinate in the usual form without its sign.
fn size_front(bytes: &[u8]) -> Option<(u64, Option<&[u8]>)>
    ensures value { IfSome result (λ r. size_text (before is_blank bytes.now) ≡ Some r.0) }
    ensures rest { IfSome result (λ r. option_map (λ rest. rest.now) r.1 ≡ after is_blank bytes.now) }
    ensures below { IfSome result (λ r. r.0 < 10 ^ 11) }
{
    let (whole, count, behind) = digits_front(bytes, 3);
    if count == 0 {
        return None;
    }
    match point_front(behind) {
        Some(places) => {
            let (part, rest) = part_front(places)?;
            Some((whole * UNIT + part, rest))
        }
        None => {
            let rest = end_front(behind, b' ', b'\t')?;
            Some((whole * UNIT, rest))
        }
    }
}

// What is behind a point at the front.
#[tactic(auto, using(crate::proofs::Coordinates::point_is))]
fn point_front(bytes: &[u8]) -> Option<&[u8]>
    ensures { IfSome result (λ rest. bytes.now ≡ 46 ∷ rest.now) }
{
    let [first, rest @ ..] = bytes else {
        return None;
    };
    if *first == b'.' { Some(rest) } else { None }
}

// The digits after the point: tenths, hundredths and so on.
#[tactic(auto, using(crate::proofs::Coordinates::part_blank, crate::proofs::Coordinates::after_part, osm_base::proofs::Digits::part_below))]
fn part_front(bytes: &[u8]) -> Option<(u64, Option<&[u8]>)>
    ensures value { IfSome result (λ r. part_text (before is_blank bytes.now) ≡ Some r.0) }
    ensures rest { IfSome result (λ r. option_map (λ rest. rest.now) r.1 ≡ after is_blank bytes.now) }
    ensures below { IfSome result (λ r. r.0 < 10 ^ 7) }
{
    let (number, places, behind) = digits_front(bytes, 7);
    let rest = end_front(behind, b' ', b'\t')?;
    if places == 0 {
        return None;
    }
    Some((number * worth(places), rest))
}

// What the last of so many places is worth.
fn worth(places: usize) -> u64
    requires { places ≤ 7 }
    ensures { result ≡ 10 ^ (7 - places) }
{
    match places {
        0 => 10_000_000,
        1 => 1_000_000,
        2 => 100_000,
        3 => 10_000,
        4 => 1_000,
        5 => 100,
        6 => 10,
        _ => 1,
    }
}
