//! Who refers to what, beside a told map.
//!
//! The users of a key that is told of stand in a list at the place where the told map has the key, so
//! neither keys nor their hashes are kept a second time. Only the pairs of keys that aren't told of
//! are in an index by hash; a closed map has none. How often a pair is there stands in what is told.
ghost use Rattle.std.specs.Prelude.{◌≡◌, ◌||◌, false, T, length, IfOk, OnOk};
ghost use Rattle.std.specs.List.{list_any};
ghost use Rattle.std.specs.FinMap as fin;
ghost use Rattle.osm_base.specs.Content.{refs_of};
ghost use Rattle.osm_base.specs.RisingKeys.{rises, is_in};
ghost use Rattle.osm_base.specs.declared.key.Key.{Key};
ghost use Rattle.ref_index.specs.declared.pair.Pair.{Pair};
ghost use Rattle.ref_index.specs.Bag.{count, is_pair};
ghost use Rattle.dataset.specs.Exact.{pairs_with, times_key};
ghost use Rattle.dataset.specs.ToldIndex.{AreBeside, is_kept, refs_told};

use crate::pairs::{content_along, index_of, pair_at, references};
use osm_base::{Content, Key, is_among};
use osm_table::{Shared, ToldMap};
use ref_index::{Pair, RefIndex, Users};
use std::alloc::AllocError;
use std::cell::Cell;
use std::marker::Model;

/// Who refers to what in all that is told.
#[derive(Drop)]
pub struct ToldIndex {
    told: Shared<ToldMap>,
    lists: Lists,
}

/// The users of each key of a told map at its place, and the pairs of other keys.
#[derive(Drop)]
struct Lists {
    users: Vec<Users>,
    others: RefIndex,
}

impl Model for ToldIndex {
    ghost use Rattle.osm_table.specs.Told.{ToldValue};
    ghost use Rattle.osm_table.specs.ToldCode.{told_code};
    ghost use Rattle.dataset.specs.ToldIndex.{AreBeside};

    ghost Value = { ToldValue };

    ghost coded = { told_code };

    ghost view = { λ i. i.told };

    ghost invariant = { λ i. AreBeside i.told i.lists.users.items i.lists.others };
}

impl ToldIndex {
    /// The index of what the objects that are told of as living refer to. Costs one search a reference,
    /// and none for one that stands behind the one before it; where they weren't told by rank, one sort of a
    /// list of their keys and one search an object more.
    ///
    /// # Errors
    ///
    /// Where no memory is found.
    pub fn new(told: Shared<ToldMap>) -> Result<ToldIndex, AllocError>
        ensures { IfOk result (λ index. index ≡ told) }
    {
        let lists = lists_of(told.value())?;
        Ok(ToldIndex { told, lists })
    }

    /// The distinct users of a key, by rank. Costs one search for the key and takes no memory.
    pub fn users(&self, of: Key) -> &[Key]
        ensures rises { T (rises result.now) }
        ensures members { (user : Key) → is_in user result.now ≡ is_in of (refs_told self.now user) }
    {
        users_at(self.told.value(), &self.lists, of)
    }

    /// Whether a key is used by another. Costs one search for the key and one by halving, and takes no
    /// memory.
    pub fn is_user(&self, of: Key, user: Key) -> bool
        ensures { result ≡ is_in of (refs_told self.now user) }
    {
        is_among(self.users(of), user)
    }

    /// The same pairs in an index that can change. Costs one look-up a reference.
    ///
    /// # Errors
    ///
    /// Where no memory is found.
    pub fn own(&self) -> Result<RefIndex, AllocError>
        ensures { IfOk result (λ index. (p : Pair) → count index p ≡ times_key p.of (refs_told self.now p.user)) }
    {
        index_of(self.told.value())
    }
}

/// The users of a key. No place is likelier than another, so none is looked at first.
fn users_at<'a>(told: &ToldMap, lists: &'a Lists, of: Key) -> &'a [Key]
    requires { AreBeside told.now lists.now.users.items lists.now.others }
    ensures rises { T (rises result.now) }
    ensures members { (user : Key) → is_in user result.now ≡ is_in of (refs_told told.now user) }
{
    told.sound();
    match told.place_near(told.len(), of) {
        Some(place) => lists.users[place].as_slice(),
        None => lists.others.users(of),
    }
}

/// The lists of all that is told. It goes over the objects once, by rank, so that a user comes behind all
/// that a list has.
fn lists_of(told: &ToldMap) -> Result<Lists, AllocError>
    ensures { IfOk result (λ lists. AreBeside told.now lists.users.items lists.others) }
{
    let keys = told.ordered()?;
    let lists = lists_by(told, keys.as_slice());
    // Dropped by a call: on a way out, the code of all that keys own would be written out.
    drop(keys);
    lists
}

/// As `lists_of`, by the keys by rank.
fn lists_by(told: &ToldMap, keys: &[Key]) -> Result<Lists, AllocError>
    requires { keys.now ≡ fin.keys told.now.told }
    ensures { IfOk result (λ lists. AreBeside told.now lists.users.items lists.others) }
{
    let mut lists = empty_lists(told)?;
    put_objects(&mut lists, told, keys).and(Ok(lists))
}

/// Puts all objects into empty lists, by rank.
fn put_objects(lists: &mut Lists, told: &ToldMap, keys: &[Key]) -> Result<(), AllocError>
    requires places { length lists.old.users.items ≡ length told.now.order }
    requires none { (p : Pair) → is_kept told.now lists.old.users.items lists.old.others p ≡ false }
    requires keys { keys.now ≡ fin.keys told.now.told }
    ensures { OnOk result (AreBeside told.now lists.new.users.items lists.new.others) }
{
    let at = Cell::new(0);
    let mut near = 0;
    for key in keys {
        near = put_object(lists, told, &at, near, *key)?;
    }
    Ok(())
}

/// An empty list for each key.
fn empty_lists(told: &ToldMap) -> Result<Lists, AllocError>
    ensures places { IfOk result (λ lists. length lists.users.items ≡ length told.now.order) }
    ensures none { IfOk result (λ lists. (p : Pair) → is_kept told.now lists.users.items lists.others p ≡ false) }
{
    let alloc = told.alloc();
    let mut users = Vec::with_capacity(alloc, told.len())?;
    for _ in 0..told.len() {
        users.push(Users::new(alloc))?;
    }
    Ok(Lists {
        users,
        others: RefIndex::new(alloc),
    })
}

/// Puts an object in as the user of all that it refers to, and answers where the next reference is sought
/// first. The object is sought as in `content_along`.
fn put_object(
    lists: &mut Lists,
    told: &ToldMap,
    at: &Cell<usize>,
    near: usize,
    key: Key,
) -> Result<usize, AllocError>
    requires { length lists.old.users.items ≡ length told.now.order }
    ensures places { OnOk result (length lists.new.users.items ≡ length told.now.order) }
    ensures kept { OnOk result ((p : Pair) → is_kept told.now lists.new.users.items lists.new.others p ≡ (list_any (is_pair p) (pairs_with key (refs_told told.now key)) || is_kept told.now lists.old.users.items lists.old.others p)) }
{
    match content_along(told, at, key) {
        Some(content) => put_content(lists, told, near, key, content),
        None => Ok(near),
    }
}

/// As `put_object`, for its content.
fn put_content(
    lists: &mut Lists,
    told: &ToldMap,
    near: usize,
    user: Key,
    content: &Content,
) -> Result<usize, AllocError>
    requires { length lists.old.users.items ≡ length told.now.order }
    ensures places { OnOk result (length lists.new.users.items ≡ length told.now.order) }
    ensures kept { OnOk result ((p : Pair) → is_kept told.now lists.new.users.items lists.new.others p ≡ (list_any (is_pair p) (pairs_with user (refs_of content.now)) || is_kept told.now lists.old.users.items lists.old.others p)) }
{
    let mut near = near;
    for i in 0..references(content) {
        near = put_pair(lists, told, near, pair_at(user, content, i))?;
    }
    Ok(near)
}

/// Puts the user of a pair into the list of its key, and answers the place behind that key: a way's
/// nodes often stand in a row.
fn put_pair(lists: &mut Lists, told: &ToldMap, near: usize, pair: Pair) -> Result<usize, AllocError>
    requires { length lists.old.users.items ≡ length told.now.order }
    ensures places { OnOk result (length lists.new.users.items ≡ length told.now.order) }
    ensures kept { OnOk result ((p : Pair) → is_kept told.now lists.new.users.items lists.new.others p ≡ (is_pair p pair || is_kept told.now lists.old.users.items lists.old.others p)) }
{
    told.sound();
    match told.place_near(near, pair.of) {
        Some(place) => {
            lists.users[place].put(pair.user)?;
            Ok(place.saturating_add(1))
        }
        None => {
            lists.others.add(pair)?;
            Ok(near)
        }
    }
}
