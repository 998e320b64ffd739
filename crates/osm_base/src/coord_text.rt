//! Coordinates as text: degrees with up to 7 places after the point, as `-0.0000001` (OPL).
//!
//! A text is read in whole units of 10^-7 degree, without floats and without loss. What is read
//! isn't tested for its range: that is the work of `coord_of`.
//!
//! The parts of the grammar have a function each: the sign in `read_coord`, the point in
//! `read_size`, the digits before it in `read_whole` and those after it in `read_part`. The
//! writers mirror them.

ghost use Rattle.std.specs.Prelude.{◌≡◌, ◌++◌, ◌^◌, ◌≤◌, ◌<◌, Some, OnOk, OnErr, IfSome, unsigned_abs, position, ◌==◌};
ghost use Rattle.osm_base.specs.Extends.{Extends};
ghost use Rattle.osm_base.specs.Coord.{part_text, whole_text, pointed_text, size_text, coord_text, places_of, size_written, coord_written};

use crate::number::{read_digits, write_digits};
use std::alloc::AllocError;

/// The units in a degree: 10^7.
const UNIT: u64 = 10_000_000;

/// The value that a coordinate text spells, in units of 10^-7 degree.
///
/// None exactly where the text isn't an optional `-`, 1 to 3 digits, and optionally `.` with 1
/// to 7 digits. No range is tested: `999` is read.
#[tactic(auto, unfolding(crate::specs::Coord::coord_text))]
pub fn read_coord(text: &[u8]) -> Option<i64>
    ensures { result ≡ coord_text text.now }
{
    if !text.is_empty() && text[0] == b'-' {
        let size = read_size(&text[1..])?;
        Some(-(size as i64))
    } else {
        let size = read_size(text)?;
        Some(size as i64)
    }
}

// A coordinate without its sign.
#[tactic(auto, unfolding(crate::specs::Coord::size_text))]
fn read_size(text: &[u8]) -> Option<u64>
    ensures value { result ≡ size_text text.now }
    ensures below { IfSome result (λ n. n < 10 ^ 11) }
{
    match point(text) {
        None => read_whole(text),
        Some(at) => read_pointed(&text[..at], &text[at + 1..]),
    }
}

// Where the first point stands.
fn point(text: &[u8]) -> Option<usize>
    ensures { result ≡ position (λ b. b == 46) text.now }
{
    text.iter().position(|byte| *byte == b'.')
}

// The digits on both sides of the point.
#[tactic(auto, unfolding(crate::specs::Coord::pointed_text))]
fn read_pointed(before: &[u8], after: &[u8]) -> Option<u64>
    ensures value { result ≡ pointed_text before.now after.now }
    ensures below { IfSome result (λ n. n < 10 ^ 11) }
{
    let whole = read_whole(before)?;
    let part = read_part(after)?;
    Some(whole + part)
}

// The digits before the point, or all of them where there is none.
#[tactic(auto, unfolding(crate::specs::Coord::whole_text))]
fn read_whole(digits: &[u8]) -> Option<u64>
    ensures value { result ≡ whole_text digits.now }
    ensures below { IfSome result (λ n. n < 10 ^ 10) }
{
    let number = read_digits(digits, 3)?;
    Some(number * UNIT)
}

// The digits after the point: tenths, hundredths and so on.
#[tactic(auto, using(crate::proofs::Digits::part_below), unfolding(crate::specs::Coord::part_text))]
fn read_part(digits: &[u8]) -> Option<u64>
    ensures value { result ≡ part_text digits.now }
    ensures below { IfSome result (λ n. n < 10 ^ 7) }
{
    let number = read_digits(digits, 7)?;
    Some(number * 10u64.pow(7 - digits.len() as u32))
}

/// Appends the written form of a coordinate, given in units of 10^-7 degree.
///
/// It has no trailing zeros after the point, no bare point and no leading zeros but the one
/// digit before the point; 0 is `0`. The size is below 10^10, which every coordinate that was
/// read has.
///
/// # Errors
///
/// Where `out` can't grow; what stood there stays at its front.
#[tactic(auto, using(crate::proofs::CoordLaw::coord_again, crate::proofs::ExtendLaws::extends_steps))]
pub fn write_coord(value: i64, out: &mut Vec<u8>) -> Result<(), AllocError>
    requires { unsigned_abs value < 10 ^ 10 }
    ensures written { OnOk result (out.new.items ≡ out.old.items ++ coord_written value) }
    ensures kept { OnErr result (Extends out.old.items out.new.items) }
    // What is written spells the value.
    ensures law { coord_text (coord_written value) ≡ Some value }
{
    if value < 0 {
        out.push(b'-')?;
    }
    write_size(value.unsigned_abs(), out)?;
    Ok(())
}

// A coordinate without its sign.
#[tactic(auto, using(crate::proofs::ExtendLaws::extends_steps), unfolding(crate::specs::Coord::size_written))]
fn write_size(size: u64, out: &mut Vec<u8>) -> Result<(), AllocError>
    ensures written { OnOk result (out.new.items ≡ out.old.items ++ size_written size) }
    ensures kept { OnErr result (Extends out.old.items out.new.items) }
{
    write_digits(size / UNIT, out)?;
    let part = size % UNIT;
    if part != 0 {
        out.push(b'.')?;
        write_places(part, out)?;
    }
    Ok(())
}

// The digits after the point, from the first to the last that isn't 0. Each step divides by one constant, which is
// cheap: what is left moves up a place in place of the point moving down.
#[tactic(auto, using(crate::proofs::ExtendLaws::extends_steps))]
fn write_places(part: u64, out: &mut Vec<u8>) -> Result<(), AllocError>
    requires { part < 10 ^ 7 }
    ensures written { OnOk result (out.new.items ≡ out.old.items ++ places_of 7 part) }
    ensures kept { OnErr result (Extends out.old.items out.new.items) }
{
    let mut left = part;
    while left != 0 {
        out.push(b'0' + (left * 10 / UNIT) as u8)?;
        left = left * 10 % UNIT;
    }
    Ok(())
}
