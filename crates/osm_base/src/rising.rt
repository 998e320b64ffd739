//! Places among keys that rise by rank, found by halving.
ghost use Rattle.std.specs.Prelude.{◌≡◌, ◌≤◌, ◌&&◌, T, length, nat_lt, slice_index_or};
ghost use Rattle.std.specs.Ordering.{is_lt};
ghost use Rattle.osm_base.specs.Rank.{rank_cmp, is_key};
ghost use Rattle.osm_base.specs.RisingKeys.{rises, is_in, place_in};

use crate::key::{Key, rank, same_key};

/// Whether a key comes before another by rank.
pub fn is_before(a: &Key, b: Key) -> bool
    ensures { result ≡ is_lt (rank_cmp a.now b) }
{
    rank(*a, b).is_lt()
}

/// Whether a key stands at a place.
pub fn stands_at(keys: &[Key], place: usize, key: Key) -> bool
    ensures { result ≡ (nat_lt place (length keys.now) && is_key key (slice_index_or keys.now place key)) }
{
    place < keys.len() && same_key(key, keys[place])
}

/// Whether a key is one of keys that rise. It costs about log n comparisons.
pub fn is_among(keys: &[Key], key: Key) -> bool
    requires { T (rises keys.now) }
    ensures { result ≡ is_in key keys.now }
{
    stands_at(keys, place_among(keys, key), key)
}

/// Where a key stands among keys that rise, or would stand. It costs about log n comparisons.
pub fn place_among(keys: &[Key], key: Key) -> usize
    requires { T (rises keys.now) }
    ensures { result ≡ place_in key keys.now }
{
    place_within(keys, 0, keys.len(), key)
}

/// As `place_among`, for a key that goes between two places: only the keys from the first to the second are halved.
pub fn place_within(keys: &[Key], start: usize, end: usize, key: Key) -> usize
    requires rises { T (rises keys.now) }
    requires start { start ≤ place_in key keys.now }
    requires end { place_in key keys.now ≤ end }
    requires within { end ≤ length keys.now }
    ensures { result ≡ place_in key keys.now }
{
    start + keys[start..end].partition_point(|other| is_before(other, key))
}
