//! The index: a bag of pairs, with the users of each key in a list.
ghost use Rattle.std.specs.Prelude.{◌≡◌, ◌+◌, ◌<◌, OnOk, OnErr, T, if◌then◌else◌, nat_lt};
ghost use Rattle.std.specs.FinMap as map;
ghost use Rattle.osm_base.specs.declared.key.Key.{Key};
ghost use Rattle.ref_index.specs.declared.pair.Pair.{Pair};
ghost use Rattle.ref_index.specs.Bag.{count, is_pair};
ghost use Rattle.osm_base.specs.RisingKeys.{rises, is_in};
ghost use Rattle.ref_index.specs.Repeats.{AreRepeats, times_there};

use crate::lists::{list_at, list_user, unlist_user};
use crate::pair::Pair;
use crate::repeats::{count_again, number_of, set_number};
use crate::users::Users;
use osm_base::{Key, is_among};
use std::alloc::{AllocError, Global};
use std::collections::HashMap;
use std::marker::Model;

/// A bag of pairs that lends the users of each key.
///
/// A pair is there where its user is in the list of its key. Most are there once, and `repeats` says
/// how often the others are.
#[derive(Drop)]
pub struct RefIndex {
    alloc: Global,
    lists: HashMap<Key, Users>,
    repeats: HashMap<Pair, u64>,
}

impl Model for RefIndex {
    ghost use Rattle.ref_index.specs.Bag.{Bag};
    ghost use Rattle.ref_index.specs.BagCode.{bag_code};
    ghost use Rattle.ref_index.specs.Repeats.{AreRepeats, bag_of};

    ghost Value = { Bag };

    ghost coded = { bag_code };

    ghost view = { λ r. bag_of r.repeats.entries r.lists.entries };

    ghost invariant = { λ r. AreRepeats r.repeats.entries r.lists.entries };
}

impl RefIndex {
    /// An index without pairs.
    pub fn new(alloc: Global) -> Self
        ensures { result ≡ map.empty }
    {
        RefIndex {
            alloc,
            lists: HashMap::new(alloc),
            repeats: HashMap::new(alloc),
        }
    }

    /// Adds a pair once more.
    ///
    /// A pair that comes for the first time costs one look-up by hash and takes no entry of its own.
    /// One that is there already costs two, and takes an entry the second time. The pair is also
    /// sought in the list of its key: with u users about log u comparisons, and for the first of a
    /// kind one move of the keys behind it.
    ///
    /// # Errors
    ///
    /// Where no memory is found, or where the pair would be there 2^64 times. Then nothing changes.
    pub fn add(&mut self, pair: Pair) -> Result<(), AllocError>
        ensures ok { OnOk result ((p : Pair) → count self.new p ≡ (if is_pair p pair then 1 else 0) + count self.old p) }
        ensures err { OnErr result (self.new ≡ self.old) }
    {
        add(self.alloc, &mut self.lists, &mut self.repeats, pair)?;
        Ok(())
    }

    /// Takes a pair that is there, once. It needs no memory.
    ///
    /// A pair that is there more than once costs two look-ups by hash. One that is there once costs
    /// one, or two where its key has no other user, and one more while any pair is there more than
    /// once. It is also sought in the list of its key, and leaves it, as `add` puts it there.
    pub fn take(&mut self, pair: Pair)
        requires { 0 < count self.old pair }
        ensures { (p : Pair) → (if is_pair p pair then 1 else 0) + count self.new p ≡ count self.old p }
    {
        take(&mut self.lists, &mut self.repeats, pair);
    }

    /// The distinct users of a key, by rank. Costs one look-up by hash and takes no memory.
    pub fn users(&self, of: Key) -> &[Key]
        ensures rises { T (rises result.now) }
        ensures members { (user : Key) → is_in user result.now ≡ nat_lt 0 (count self.now (record { of = of; user = user })) }
    {
        list_at(&self.lists, of)
    }

    /// Whether a key is used by another. Costs one look-up by hash and a search by halving, and takes no memory.
    pub fn is_user(&self, of: Key, user: Key) -> bool
        ensures { result ≡ nat_lt 0 (count self.now (record { of = of; user = user })) }
    {
        is_among(self.users(of), user)
    }
}

/// Adds a pair, or leaves the bag as it was. Costs one look-up by hash, and two where the pair is
/// there already.
fn add(
    alloc: Global,
    lists: &mut HashMap<Key, Users>,
    repeats: &mut HashMap<Pair, u64>,
    pair: Pair,
) -> Result<(), AllocError>
    requires repeats { AreRepeats repeats.old.entries lists.old.entries }
    ensures repeats { AreRepeats repeats.new.entries lists.new.entries }
    ensures ok { OnOk result ((q : Pair) → times_there repeats.new.entries lists.new.entries q ≡ (if is_pair q pair then 1 else 0) + times_there repeats.old.entries lists.old.entries q) }
    ensures err { OnErr result ((q : Pair) → times_there repeats.new.entries lists.new.entries q ≡ times_there repeats.old.entries lists.old.entries q) }
{
    let first = list_user(alloc, lists, pair.of, pair.user)?;
    if !first {
        count_again(repeats, pair)?;
    }
    Ok(())
}

fn take(lists: &mut HashMap<Key, Users>, repeats: &mut HashMap<Pair, u64>, pair: Pair)
    requires repeats { AreRepeats repeats.old.entries lists.old.entries }
    requires there { 0 < times_there repeats.old.entries lists.old.entries pair }
    ensures repeats { AreRepeats repeats.new.entries lists.new.entries }
    ensures count { (q : Pair) → (if is_pair q pair then 1 else 0) + times_there repeats.new.entries lists.new.entries q ≡ times_there repeats.old.entries lists.old.entries q }
{
    let number = number_of(repeats, pair);
    if number == 1 {
        unlist_user(lists, pair.of, pair.user);
    } else if number == 2 {
        repeats.remove(&pair);
    } else {
        set_number(repeats, pair, number - 1);
    }
}
