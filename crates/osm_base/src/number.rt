//! Whole numbers as decimal digits.
//!
//! One reader and one writer for all of the format's numbers: ids, versions, changesets, user
//! ids and the two sides of a coordinate's point. Leading zeros are read and never written.

ghost use Rattle.std.specs.Prelude.{◌≡◌, true, ℕ, ◌≤◌, ◌<◌, ◌^◌, ◌++◌, OnOk, OnErr, IfSome, length};
ghost use Rattle.std.specs.Fmt.{decimal};
ghost use Rattle.std.specs.Str.Parse.{digits_value};
ghost use Rattle.std.specs.List.{list_all};
ghost use Rattle.std.specs.Char.{is_ascii_digit};
ghost use Rattle.osm_base.specs.Number.{number_test, number_text};
ghost use Rattle.osm_base.specs.Extends.{Extends};

use itoa::Buffer;
use std::alloc::AllocError;

/// The number that a text of decimal digits spells, leading zeros allowed.
///
/// None exactly where the text isn't 1 to `most` digits; `most` is at most 19, so that the
/// number fits. It is below 10^most, and below 10 to the length of the text: from this callers
/// know that their sums and products fit.
#[tactic(auto, using(crate::proofs::Digits::value_bounds), unfolding(crate::specs::Number::number_text))]
pub fn read_digits(text: &[u8], most: usize) -> Option<u64>
    requires { most ≤ 19 }
    ensures value { result ≡ number_text most text.now }
    ensures below { IfSome result (λ n. n < 10 ^ most) }
    ensures sharp { IfSome result (λ n. n < 10 ^ length text.now) }
    ensures short { IfSome result (λ _. length text.now ≤ most) }
{
    if is_number(text, most) {
        Some(value_of(text))
    } else {
        None
    }
}

fn is_number(text: &[u8], most: usize) -> bool
    ensures { result ≡ number_test most text.now }
{
    1 <= text.len() && text.len() <= most && all_digits(text)
}

fn all_digits(text: &[u8]) -> bool
    ensures { result ≡ list_all is_ascii_digit text.now }
{
    text.iter().all(|digit| digit.is_ascii_digit())
}

fn value_of(text: &[u8]) -> u64
    requires { number_test 19 text.now ≡ true }
    ensures { result ≡ digits_value 10 text.now }
{
    let mut number = 0;
    for digit in text {
        number = number * 10 + u64::from(*digit - b'0');
    }
    number
}

/// Appends the decimal digits of a number, without leading zeros; 0 is `0`.
///
/// # Errors
///
/// Where `out` can't grow; what stood there stays at its front.
pub fn write_digits(number: u64, out: &mut Vec<u8>) -> Result<(), AllocError>
    ensures written { OnOk result (out.new.items ≡ out.old.items ++ decimal number) }
    ensures kept { OnErr result (Extends out.old.items out.new.items) }
{
    let mut buffer = Buffer::new();
    out.extend_from_slice(buffer.format(number).as_bytes())?;
    Ok(())
}
