//! Keys among others.
ghost use Rattle.std.specs.Prelude.{◌≡◌, ◌||◌, not, IfOk};
ghost use Rattle.std.specs.List.{filter};
ghost use Rattle.closure.specs.Closure.{has};
ghost use Rattle.osm_base.specs.Rank.{is_key};
ghost use Rattle.osm_base.specs.RisingKeys.{is_in};

use closure::KeySet;
use osm_base::Key;
use std::alloc::{AllocError, Global};

/// The keys that are none of those found.
pub fn others(alloc: Global, keys: &[Key], found: &[Key]) -> Result<Vec<Key>, AllocError>
    ensures { IfOk result (λ rest. rest.items ≡ filter (λ k. not (is_in k found.now)) keys.now) }
{
    let found = KeySet::from_slice(alloc, found)?;
    outside(alloc, keys, &found)
}

fn outside(alloc: Global, keys: &[Key], found: &KeySet) -> Result<Vec<Key>, AllocError>
    ensures { IfOk result (λ rest. rest.items ≡ filter (λ k. not (has is_key found.now k)) keys.now) }
{
    keys.iter()
        .copied()
        .filter(|key| !found.contains(*key))
        .collect(alloc)
}

/// The keys that are among the left ones or the right ones.
pub fn those_of(
    alloc: Global,
    keys: &[Key],
    left: &[Key],
    right: &[Key],
) -> Result<Vec<Key>, AllocError>
    ensures { IfOk result (λ both. both.items ≡ filter (λ k. is_in k left.now || is_in k right.now) keys.now) }
{
    let left = KeySet::from_slice(alloc, left)?;
    let right = KeySet::from_slice(alloc, right)?;
    inside(alloc, keys, &left, &right)
}

fn inside(
    alloc: Global,
    keys: &[Key],
    left: &KeySet,
    right: &KeySet,
) -> Result<Vec<Key>, AllocError>
    ensures { IfOk result (λ both. both.items ≡ filter (λ k. has is_key left.now k || has is_key right.now k) keys.now) }
{
    keys.iter()
        .copied()
        .filter(|key| left.contains(*key) || right.contains(*key))
        .collect(alloc)
}
