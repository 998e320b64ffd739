//! The users of each key. A key that nobody uses has no list.
ghost use Rattle.std.specs.Prelude.{◌≡◌, ◌&&◌, ◌||◌, not, T, [], IsTrue, IfOk, OnOk, OnErr};
ghost use Rattle.osm_base.specs.RisingKeys.{rises};
ghost use Rattle.ref_index.specs.declared.pair.Pair.{Pair};
ghost use Rattle.ref_index.specs.Bag.{is_pair};
ghost use Rattle.ref_index.specs.Users.{users_of, is_listed};

use crate::users::Users;
use osm_base::Key;
use std::alloc::{AllocError, Global};
use std::collections::HashMap;

/// The users of a key. Costs one look-up by hash.
pub fn list_at(lists: &HashMap<Key, Users>, of: Key) -> &[Key]
    ensures rises { T (rises result.now) }
    ensures users { result.now ≡ users_of lists.now.entries of }
{
    match lists.get(&of) {
        Some(users) => users.as_slice(),
        None => &[],
    }
}

/// Puts a user into the list of a key, and answers whether it is new there. Costs one look-up by
/// hash.
///
/// A key without a list gets one. Its first user takes no block, so an empty list never stays.
///
/// # Errors
///
/// Where no memory is found. Then each list is as it was.
pub fn list_user(
    alloc: Global,
    lists: &mut HashMap<Key, Users>,
    of: Key,
    user: Key,
) -> Result<bool, AllocError>
    ensures first { IfOk result (λ first. first ≡ not (is_listed lists.old.entries (record { of = of; user = user }))) }
    ensures ok { OnOk result ((q : Pair) → is_listed lists.new.entries q ≡ (is_pair q (record { of = of; user = user }) || is_listed lists.old.entries q)) }
    ensures err { OnErr result ((q : Pair) → is_listed lists.new.entries q ≡ is_listed lists.old.entries q) }
{
    let users = lists.entry(of)?.or_insert(Users::new(alloc));
    let first = users.put(user)?;
    Ok(first)
}

/// Takes a user out of the list of a key, and the list with the last of them. Costs one look-up by
/// hash, and one more where the list goes.
pub fn unlist_user(lists: &mut HashMap<Key, Users>, of: Key, user: Key)
    ensures { (q : Pair) → is_listed lists.new.entries q ≡ (not (is_pair q (record { of = of; user = user })) && is_listed lists.old.entries q) }
{
    if take_user(lists, of, user) {
        lists.remove(&of);
    }
}

/// Takes a user out of the list of a key, and answers whether nobody is left there.
fn take_user(lists: &mut HashMap<Key, Users>, of: Key, user: Key) -> bool
    ensures taken { (q : Pair) → is_listed lists.new.entries q ≡ (not (is_pair q (record { of = of; user = user })) && is_listed lists.old.entries q) }
    ensures empty { IsTrue result → users_of lists.new.entries of ≡ [] }
{
    match lists.get_mut(&of) {
        Some(users) => {
            users.take(user);
            users.as_slice().is_empty()
        }
        None => false,
    }
}
