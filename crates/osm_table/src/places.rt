//! Where keys stand in a list that is kept beside this.
ghost use Rattle.std.specs.Prelude.{List, ◌≡◌, ◌++◌, ◌∷◌, [], T, Some, IfOk, OnErr, IfSome, IfNone, IsSome, None, false, true, if◌then◌else◌, slice_get};
ghost use Rattle.std.specs.HashMap.{get};
ghost use Rattle.std.specs.List.{swap_remove};
ghost use Rattle.std.specs.Option.{unwrap_or};
ghost use Rattle.osm_base.specs.KeyEq.{eq};
ghost use Rattle.osm_base.specs.RisingKeys.{rises, is_in};
ghost use Rattle.osm_table.specs.InOrder.{IsPlace, AreHashed, AreInPlace, IsPut};

use crate::rising;
use osm_base::{Key, rank, stands_at};
use std::alloc::{AllocError, Global};
use std::collections::HashMap;

/// How the place of a key is found.
#[derive(Drop)]
pub enum Places {
    /// The keys rise. The posts are some of them, from which a search begins.
    Rising { posts: Vec<Key> },
    /// Each key has its place.
    Hashed(HashMap<Key, usize>),
}

impl Places {
    /// The place of a key. It costs one search: about log n comparisons where the keys rise, and else a look-up by hash.
    pub fn place_of(&self, keys: &[Key], key: Key) -> Option<usize>
        requires { AreInPlace keys.now self.now }
        ensures { IsPlace keys.now key result }
    {
        match self {
            Places::Rising { posts } => rising::place_of(keys, posts, key),
            Places::Hashed(places) => places.get(&key).copied(),
        }
    }

    /// As `place_of`, with a place to look at first, which hashes nothing.
    pub fn place_near(&self, keys: &[Key], near: usize, key: Key) -> Option<usize>
        requires { AreInPlace keys.now self.now }
        ensures { IsPlace keys.now key result }
    {
        if stands_at(keys, near, key) {
            return Some(near);
        }
        match self {
            Places::Rising { posts } => rising::place_around(keys, posts, near, key),
            Places::Hashed(places) => places.get(&key).copied(),
        }
    }

    /// The place of a key that is put. There is none for a new key, which has that behind the others from now on.
    /// One that comes behind all others costs one comparison while keys rise, and the first new one that doesn't
    /// has all of them hashed, with room for so many.
    ///
    /// # Errors
    /// No memory was left. The key is new, and has no place.
    pub fn put(&mut self, keys: &[Key], room: usize, key: Key) -> Result<Option<usize>, AllocError>
        requires { AreInPlace keys.now self.old }
        ensures ok { IfOk result (λ place. IsPut keys.now key self.new place) }
        ensures absent { OnErr result (is_in key keys.now ≡ false) }
        ensures kept { OnErr result (AreInPlace keys.now self.new) }
    {
        match self {
            Places::Rising { posts } => {
                if rising::is_behind(keys, key) {
                    rising::put_post(posts, keys.len(), key)?;
                    return Ok(None);
                }
                if let Some(place) = rising::place_of(keys, posts, key) {
                    return Ok(Some(place));
                }
                let mut places = hashed(keys, room, *posts.allocator())?;
                let place = put_hashed(&mut places, keys, key);
                *self = Places::Hashed(places);
                place
            }
            Places::Hashed(places) => put_hashed(places, keys, key),
        }
    }

    /// Takes back the place of a new key that was put, where the list has no room for it.
    pub fn take_back(&mut self, key: Key)
        ensures { (keys : List Key) → is_in key keys ≡ false → AreInPlace (keys ++ key ∷ []) self.old → AreInPlace keys self.new }
    {
        match self {
            Places::Rising { .. } => {}
            Places::Hashed(places) => {
                places.remove(&key);
            }
        }
    }

    /// Makes room for so many keys more, where they are hashed.
    ///
    /// # Errors
    /// No memory was left.
    pub fn reserve(&mut self, more: usize) -> Result<(), AllocError>
        ensures { (keys : List Key) → AreInPlace keys self.old → AreInPlace keys self.new }
    {
        if let Places::Hashed(places) = self {
            places.reserve(more)?;
        }
        Ok(())
    }

    /// Hashes the keys, where they aren't yet.
    ///
    /// # Errors
    /// No memory was left.
    pub fn hash(&mut self, keys: &[Key]) -> Result<(), AllocError>
        requires { AreInPlace keys.now self.old }
        ensures { AreInPlace keys.now self.new }
    {
        if let Places::Rising { posts } = self {
            *self = Places::Hashed(hashed(keys, keys.len(), *posts.allocator())?);
        }
        Ok(())
    }

    /// The same places.
    ///
    /// # Errors
    /// No memory was left.
    pub fn copy(&self) -> Result<Places, AllocError>
        ensures { IfOk result (λ copy. (keys : List Key) → AreInPlace keys self.now → AreInPlace keys copy) }
    {
        match self {
            Places::Rising { posts } => Ok(Places::Rising {
                posts: posts.clone()?,
            }),
            Places::Hashed(places) => Ok(Places::Hashed(places.clone()?)),
        }
    }

    /// Whether the keys stand by rank. Hashed ones are looked over.
    pub fn rise(&self, keys: &[Key]) -> bool
        requires { AreInPlace keys.now self.now }
        ensures { result ≡ true → T (rises keys.now) }
    {
        match self {
            Places::Rising { .. } => true,
            Places::Hashed(_) => rise(keys),
        }
    }
}

/// The places of keys that rise by hash, with room for so many.
fn hashed(keys: &[Key], room: usize, alloc: Global) -> Result<HashMap<Key, usize>, AllocError>
    requires { T (rises keys.now) }
    ensures { IfOk result (λ places. AreHashed keys.now places) }
{
    let mut places = HashMap::with_capacity(alloc, room)?;
    for i in 0..keys.len() {
        places.insert(keys[i], i)?;
    }
    Ok(places)
}

/// As `Places::put`, by one look-up.
fn put_hashed(
    places: &mut HashMap<Key, usize>,
    keys: &[Key],
    key: Key,
) -> Result<Option<usize>, AllocError>
    requires { AreHashed keys.now places.old }
    ensures some { IfOk result (λ place. IfSome place (λ i. (slice_get keys.now i ≡ Some key) × AreHashed keys.now places.new)) }
    ensures none { IfOk result (λ place. IfNone place ((is_in key keys.now ≡ false) × AreHashed (keys.now ++ key ∷ []) places.new)) }
    ensures absent { OnErr result (is_in key keys.now ≡ false) }
    ensures kept { OnErr result (AreHashed keys.now places.new) }
{
    let place = place_or(places, key, keys.len())?;
    if place < keys.len() {
        Ok(Some(place))
    } else {
        Ok(None)
    }
}

/// The place that is kept of a key, which is this one for a new key.
fn place_or(places: &mut HashMap<Key, usize>, key: Key, new: usize) -> Result<usize, AllocError>
    ensures place { IfOk result (λ place. place ≡ unwrap_or (get eq places.old key) new) }
    ensures put { IfOk result (λ place. (q : Key) → get eq places.new q ≡ (if eq key q then Some place else get eq places.old q)) }
    ensures absent { OnErr result (get eq places.old key ≡ None) }
    ensures kept { OnErr result ((q : Key) → get eq places.new q ≡ get eq places.old q) }
{
    match places.entry(key) {
        Ok(entry) => Ok(*entry.or_insert(new)),
        Err(_) => Err(AllocError),
    }
}

/// Takes out a key whose place is hashed. The last key comes into its place, which is answered. It costs a look-up of each.
pub fn take_hashed(places: &mut HashMap<Key, usize>, keys: &mut Vec<Key>, key: Key) -> Option<usize>
    requires { AreHashed keys.old.items places.old }
    ensures some { IfSome result (λ i. (slice_get keys.old.items i ≡ Some key) × (keys.new.items ≡ swap_remove keys.old.items i key)) }
    ensures none { IfNone result ((is_in key keys.old.items ≡ false) × (keys.new.items ≡ keys.old.items)) }
    ensures kept { AreHashed keys.new.items places.new }
{
    let place = places.remove(&key)?;
    keys.swap_remove(place);
    if place < keys.len() {
        set_place(places, keys[place], place);
    }
    Some(place)
}

/// Sets the place of a key that has one.
fn set_place(places: &mut HashMap<Key, usize>, key: Key, place: usize)
    requires { IsSome (get eq places.old key) }
    ensures { (q : Key) → get eq places.new q ≡ (if eq key q then Some place else get eq places.old q) }
{
    if let Some(kept) = places.get_mut(&key) {
        *kept = place;
    }
}

/// Whether each key comes behind the one before it.
fn rise(keys: &[Key]) -> bool
    ensures { result ≡ true → T (rises keys.now) }
{
    for i in 1..keys.len() {
        if !rank(keys[i - 1], keys[i]).is_lt() {
            return false;
        }
    }
    true
}
