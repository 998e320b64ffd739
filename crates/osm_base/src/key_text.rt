//! Keys as text: a letter for the kind, then the id, as `n17` or `w-3` (OPL).

ghost use Rattle.std.specs.Prelude.{◌≡◌, ◌++◌, Some, OnOk, OnErr};
ghost use Rattle.osm_base.specs.Extends.{Extends};
ghost use Rattle.osm_base.specs.Number.{kind_letter, letter_of, id_size, id_text, key_text, key_written, IsId};

use crate::key::{Key, Kind};
use crate::number::{read_digits, write_digits};
use std::alloc::AllocError;

/// The greatest size of an id: 10^18.
const MOST_ID: u64 = 1_000_000_000_000_000_000;

/// The key that a text spells.
///
/// None exactly where the text isn't a letter `n`, `w` or `r` and an id text (`read_id`).
#[tactic(auto, unfolding(crate::specs::Number::key_text))]
pub fn read_key(text: &[u8]) -> Option<Key>
    ensures { result ≡ key_text text.now }
{
    if text.is_empty() {
        return None;
    }
    let kind = kind_of(text[0])?;
    let id = read_id(&text[1..])?;
    Some(Key { kind, id })
}

/// The id that a text spells: an optional `-` and 1 to 19 digits.
///
/// None exactly where the text isn't of this form or its value isn't an id, from -10^18 to 10^18
/// other than 0. Leading zeros are taken.
#[tactic(auto, unfolding(crate::specs::Number::id_text))]
pub fn read_id(text: &[u8]) -> Option<i64>
    ensures { result ≡ id_text text.now }
{
    if !text.is_empty() && text[0] == b'-' {
        let size = read_id_size(&text[1..])?;
        Some(-(size as i64))
    } else {
        let size = read_id_size(text)?;
        Some(size as i64)
    }
}

// An id without its sign.
fn read_id_size(text: &[u8]) -> Option<u64>
    ensures { result ≡ id_size text.now }
{
    let size = read_digits(text, 19)?;
    if 1 <= size && size <= MOST_ID {
        Some(size)
    } else {
        None
    }
}

/// The kind that a letter names: `n`, `w` or `r`.
#[tactic(auto, unfolding(crate::specs::Number::kind_letter))]
pub fn kind_of(letter: u8) -> Option<Kind>
    ensures { result ≡ kind_letter letter }
{
    match letter {
        b'n' => Some(Kind::Node),
        b'w' => Some(Kind::Way),
        b'r' => Some(Kind::Relation),
        _ => None,
    }
}

/// Appends the written form of a key: its kind's letter and its id without leading zeros.
///
/// # Errors
///
/// Where `out` can't grow; what stood there stays at its front.
#[tactic(auto, using(crate::proofs::KeyLaw::key_again, crate::proofs::ExtendLaws::extends_steps))]
pub fn write_key(key: Key, out: &mut Vec<u8>) -> Result<(), AllocError>
    ensures written { OnOk result (out.new.items ≡ out.old.items ++ key_written key) }
    ensures kept { OnErr result (Extends out.old.items out.new.items) }
    // What is written spells the key.
    ensures law { IsId key.id → key_text (key_written key) ≡ Some key }
{
    out.push(letter(key.kind))?;
    if key.id < 0 {
        out.push(b'-')?;
    }
    write_digits(key.id.unsigned_abs(), out)?;
    Ok(())
}

fn letter(kind: Kind) -> u8
    ensures { result ≡ letter_of kind }
{
    match kind {
        Kind::Node => b'n',
        Kind::Way => b'w',
        Kind::Relation => b'r',
    }
}
