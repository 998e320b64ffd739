//! Values of fields that take no memory.

ghost use Rattle.std.specs.Prelude.{◌≡◌, nat_le, unsigned_abs, if◌then◌else◌, Some, None};
ghost use Rattle.opl_line.specs.Field.{visible_text, place_text};

use osm_base::read_coord;

/// `V` or `D`.
#[tactic(auto, unfolding(crate::specs::Field::visible_text))]
pub fn read_visible(text: &[u8]) -> Option<bool>
    ensures { result ≡ visible_text text.now }
{
    match text {
        [b'V'] => Some(true),
        [b'D'] => Some(false),
        _ => None,
    }
}

/// Nothing, or a coordinate of at most this size, in units of 10^-7 degree.
#[tactic(auto, unfolding(crate::specs::Field::place_text))]
pub fn read_place(text: &[u8], limit: u32) -> Option<Option<i64>>
    ensures { result ≡ place_text limit text.now }
{
    if text.is_empty() {
        return Some(None);
    }
    let value = read_coord(text)?;
    in_range(value, limit)
}

/// The value as a coordinate, where it is of at most this size.
pub fn in_range(value: i64, limit: u32) -> Option<Option<i64>>
    ensures { result ≡ (if nat_le (unsigned_abs value) limit then Some (Some value) else None) }
{
    if value.unsigned_abs() <= u64::from(limit) {
        Some(Some(value))
    } else {
        None
    }
}
