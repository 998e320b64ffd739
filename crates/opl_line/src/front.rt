//! What stands at the front of bytes, read up to the separator that ends it.
//!
//! Each function gives a value and the bytes behind its separator, `None` where the bytes end
//! first. So a value and its end are found in one pass.

ghost use Rattle.std.specs.Prelude.{◌≡◌, ◌≤◌, ◌<◌, ◌^◌, length, IfSome, true};
ghost use Rattle.std.specs.Option.{option_map};
ghost use Rattle.std.specs.Str.Parse.{digits_value};
ghost use Rattle.osm_base.specs.Number.{number_text, id_size, id_text};
ghost use Rattle.opl_line.specs.Cut.{is_one_of, before, after};
ghost use Rattle.opl_line.specs.Field.{number_to};
ghost use Rattle.opl_line.specs.Front.{front_digits, behind_digits, ended, is_apart};
ghost use Rattle.opl_line.specs.Line.{is_blank};

use crate::pieces::is_mark;

/// The greatest size of an id: 10^18.
const MOST_ID: u64 = 1_000_000_000_000_000_000;

/// The value of the decimal digits at the front, at most so many of them, their number, and the
/// bytes behind them.
pub fn digits_front(bytes: &[u8], most: usize) -> (u64, usize, &[u8])
    requires { most ≤ 19 }
    ensures value { result.0 ≡ digits_value 10 (front_digits most bytes.now) }
    ensures count { result.1 ≡ length (front_digits most bytes.now) }
    ensures rest { result.2.now ≡ behind_digits most bytes.now }
    ensures below { result.0 < 10 ^ most }
    ensures sharp { result.0 < 10 ^ result.1 }
    ensures short { result.1 ≤ most }
{
    let mut value = 0u64;
    let mut left = most;
    let mut rest = bytes;
    loop {
        let [first, more @ ..] = rest else {
            return (value, most - left, rest);
        };
        if left == 0 || !first.is_ascii_digit() {
            return (value, most - left, rest);
        }
        value = value * 10 + u64::from(*first - b'0');
        left -= 1;
        rest = more;
    }
}

/// The bytes behind the end of a piece, where it ends at once; `None` where it goes on.
pub fn end_front(bytes: &[u8], a: u8, b: u8) -> Option<Option<&[u8]>>
    ensures { option_map (option_map (λ rest. rest.now)) result ≡ ended (is_one_of a b) bytes.now }
{
    match bytes {
        [] => Some(None),
        [first, rest @ ..] => {
            if is_mark(a, b, *first) {
                Some(Some(rest))
            } else {
                None
            }
        }
    }
}

/// The number that 1 to so many digits spell, up to a separator.
#[tactic(auto, using(crate::proofs::Fronts::fronts))]
fn digits_until(bytes: &[u8], most: usize, a: u8, b: u8) -> Option<(u64, Option<&[u8]>)>
    requires most { most ≤ 19 }
    requires first { is_apart a ≡ true }
    requires second { is_apart b ≡ true }
    ensures value { option_map (λ r. r.0) result ≡ number_text most (before (is_one_of a b) bytes.now) }
    ensures rest { IfSome result (λ r. option_map (λ rest. rest.now) r.1 ≡ after (is_one_of a b) bytes.now) }
    ensures below { IfSome result (λ r. r.0 < 10 ^ most) }
{
    let (value, count, behind) = digits_front(bytes, most);
    let rest = end_front(behind, a, b)?;
    if count == 0 {
        return None;
    }
    Some((value, rest))
}

/// The number that 1 to 10 digits spell, up to a limit, and what is behind the blank after it.
#[tactic(auto, unfolding(crate::specs::Field::number_to))]
pub fn number_front(bytes: &[u8], high: u32) -> Option<(u32, Option<&[u8]>)>
    ensures value { option_map (λ r. r.0) result ≡ number_to high (before is_blank bytes.now) }
    ensures rest { IfSome result (λ r. option_map (λ rest. rest.now) r.1 ≡ after is_blank bytes.now) }
{
    let (number, rest) = digits_until(bytes, 10, b' ', b'\t')?;
    if number <= u64::from(high) {
        Some((number as u32, rest))
    } else {
        None
    }
}

// An id without its sign.
fn size_front(bytes: &[u8], a: u8, b: u8) -> Option<(u64, Option<&[u8]>)>
    requires first { is_apart a ≡ true }
    requires second { is_apart b ≡ true }
    ensures value { option_map (λ r. r.0) result ≡ id_size (before (is_one_of a b) bytes.now) }
    ensures rest { IfSome result (λ r. option_map (λ rest. rest.now) r.1 ≡ after (is_one_of a b) bytes.now) }
    ensures high { IfSome result (λ r. r.0 ≤ 10 ^ 18) }
{
    let (size, rest) = digits_until(bytes, 19, a, b)?;
    if 1 <= size && size <= MOST_ID {
        Some((size, rest))
    } else {
        None
    }
}

/// An id, and what is behind the separator after it.
#[tactic(auto, unfolding(osm_base::specs::Number::id_text))]
pub fn id_front(bytes: &[u8], a: u8, b: u8) -> Option<(i64, Option<&[u8]>)>
    requires first { is_apart a ≡ true }
    requires second { is_apart b ≡ true }
    ensures value { option_map (λ r. r.0) result ≡ id_text (before (is_one_of a b) bytes.now) }
    ensures rest { IfSome result (λ r. option_map (λ rest. rest.now) r.1 ≡ after (is_one_of a b) bytes.now) }
{
    match bytes {
        [b'-', digits @ ..] => {
            let (size, rest) = size_front(digits, a, b)?;
            Some((-(size as i64), rest))
        }
        _ => {
            let (size, rest) = size_front(bytes, a, b)?;
            Some((size as i64, rest))
        }
    }
}
