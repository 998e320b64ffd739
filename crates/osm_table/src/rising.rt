//! Places among keys that rise by rank.
//!
//! Beside a long list of keys stand posts: every 32nd of them once more, so near to each other that most steps of a search
//! among them meet the processor's cache. What they tell is tried on the keys themselves, so a search is right whatever
//! they are, and one that they lead astray costs a halving of all keys.
ghost use Rattle.std.specs.Prelude.{◌≡◌, ◌≤◌, ◌++◌, ◌∷◌, [], T, true, length};
ghost use Rattle.osm_base.specs.RisingKeys.{rises, place_in};
ghost use Rattle.osm_table.specs.InOrder.{IsPlace};

use osm_base::{Key, is_before, place_within, stands_at};
use std::alloc::{AllocError, Global};

/// How far from a place a key is sought first, on both sides of it: three of four nodes of a way stand so
/// near to the one before them.
const AROUND: usize = 128;

/// How far the keys are apart that are posts too.
const APART: usize = 32;

/// Room for the posts of so many keys.
///
/// # Errors
/// No memory was left.
pub fn room_for_posts(alloc: Global, keys: usize) -> Result<Vec<Key>, AllocError> {
    Ok(Vec::with_capacity(alloc, keys / APART + 1)?)
}

/// Makes the key that comes to a place a post, where it is so far from the last one.
///
/// # Errors
/// No memory was left.
pub fn put_post(posts: &mut Vec<Key>, place: usize, key: Key) -> Result<(), AllocError> {
    if place % APART == 0 {
        posts.push(key)?;
    }
    Ok(())
}

/// The place of a key among keys that rise. The places around `near` are searched first, where the key
/// can only be there, and else it is found by the posts.
pub fn place_around(keys: &[Key], posts: &[Key], near: usize, key: Key) -> Option<usize>
    requires { T (rises keys.now) }
    ensures { IsPlace keys.now key result }
{
    let start = near.saturating_sub(AROUND);
    let end = near.saturating_add(AROUND);
    if is_between(keys, start, end, key) {
        place_between(keys, start, end, key)
    } else {
        place_of(keys, posts, key)
    }
}

/// Whether a key can only stand between two places: the one at the first comes before it, and the one at the second doesn't.
fn is_between(keys: &[Key], start: usize, end: usize, key: Key) -> bool
    requires rises { T (rises keys.now) }
    requires order { start ≤ end }
    ensures start { result ≡ true → start ≤ place_in key keys.now }
    ensures end { result ≡ true → place_in key keys.now ≤ end }
    ensures within { result ≡ true → end ≤ length keys.now }
{
    if end >= keys.len() {
        return false;
    }
    is_before(&keys[start], key) && !is_before(&keys[end], key)
}

/// The place of a key among keys that rise, found by halving: the posts, and then the keys between two
/// of them.
pub fn place_of(keys: &[Key], posts: &[Key], key: Key) -> Option<usize>
    requires { T (rises keys.now) }
    ensures { IsPlace keys.now key result }
{
    let (start, end) = places_by(posts, key);
    if is_between(keys, start, end, key) {
        place_between(keys, start, end, key)
    } else {
        place_between(keys, 0, keys.len(), key)
    }
}

/// Between which places a key would stand by the posts.
fn places_by(posts: &[Key], key: Key) -> (usize, usize)
    ensures { result.0 ≤ result.1 }
{
    let before = posts.partition_point(|post| is_before(post, key));
    let end = before.saturating_mul(APART);
    (end.saturating_sub(APART), end)
}

/// Whether keys that rise do so with another behind them.
pub fn is_behind(keys: &[Key], key: Key) -> bool
    requires { T (rises keys.now) }
    ensures { result ≡ rises (keys.now ++ key ∷ []) }
{
    keys.is_empty() || is_before(&keys[keys.len() - 1], key)
}

/// The place of a key that would go between two places.
fn place_between(keys: &[Key], start: usize, end: usize, key: Key) -> Option<usize>
    requires rises { T (rises keys.now) }
    requires start { start ≤ place_in key keys.now }
    requires end { place_in key keys.now ≤ end }
    requires within { end ≤ length keys.now }
    ensures { IsPlace keys.now key result }
{
    let place = place_within(keys, start, end, key);
    if stands_at(keys, place, key) {
        Some(place)
    } else {
        None
    }
}
