//! Keys of objects and their order.
//!
//! A key is a kind and an id. Ids that a server gave are positive; negative ids name objects
//! that no server knows yet. The rank order puts nodes before ways before relations, within a
//! kind positive ids rising and then -1, -2 and on: it is the order of everything that is
//! written, and of the upload's creates.
//!
//! Clauses speak of keys by the rank order alone. `==` answers as it does (`rank_ties`), and only
//! equal keys tie (`rank_exact`), so a hashed map by `==` is a finite map by rank.

ghost use Rattle.std.specs.Prelude.{◌≡◌};
ghost use Rattle.std.proofs.Common.{rules};
ghost use Rattle.std.specs.Cmp.{partial_order_from_own_ties};
ghost use Rattle.std.specs.Cmp.Rules.{comparing};
ghost use Rattle.std.specs.Hash as fed;
ghost use Rattle.std.specs.Ordering.{nat_cmp, on, then_cmp, as_partial_cmp};
ghost use Rattle.osm_base.specs.KeyHash.{key_group};
ghost use Rattle.osm_base.specs.RankLaws.{rank_total, rank_ties, eq_decides};
ghost use Rattle.osm_base.specs.Rank.{rank_cmp, is_key, kind_place, side, size};

use std::cmp::Ordering;
use std::hash::{Hash, Hasher};

/// What an object of the map is (API 0.6).
#[derive(Clone, Copy, Debug, PartialEq, Eq)]
pub enum Kind {
    Node,
    Way,
    Relation,
}

/// An object's kind and its id.
///
/// An id is from -10^18 to 10^18 other than 0 wherever a text or a table gives it; the type
/// itself holds any `i64`, and the order is total over all of them.
///
/// Four ids that follow each other are hashed alike: a hashed map keeps them in one group, and so
/// finds an object's neighbours in the cache line that it has just read.
#[derive(Clone, Copy, Debug, PartialEq, Eq)]
pub struct Key {
    pub kind: Kind,
    pub id: i64,
}

impl Kind {
    // Nodes before ways before relations.
    fn place(self) -> u8
        ensures { result ≡ kind_place self }
    {
        match self {
            Kind::Node => 0,
            Kind::Way => 1,
            Kind::Relation => 2,
        }
    }
}

// Positive ids before negative ones.
fn side_of(id: i64) -> u8
    ensures { result ≡ side id }
{
    if id < 0 { 1 } else { 0 }
}

// How far an id is along its side.
fn size_of_id(id: i64) -> u64
    ensures { result ≡ size id }
{
    if id < 0 { (-1 - id) as u64 } else { id as u64 }
}

// The group of four ids that a key is in, with its side and its kind.
fn group_of(key: Key) -> u64
    ensures { result ≡ key_group key }
{
    let side = u64::from(side_of(key.id));
    let place = u64::from(key.kind.place());
    size_of_id(key.id) / 4 * 8 + side * 4 + place
}

impl Hash for Key {
    ghost hash_input = { λ key. fed.u64 (key_group key) };

    ghost respects_eq = { (fed.same_Alike (λ key. fed.u64 (key_group key)) eq_decides).fed };

    fn hash<H: Hasher>(&self, state: &mut H) {
        state.write_u64(group_of(*self));
    }
}

impl Ord for Key {
    ghost cmp = { rank_cmp };

    ghost total = { rank_total };

    ghost matches_partial_cmp = { Prim.search (comparing, rules) };

    ghost matches_eq = { rank_ties };

    fn cmp(&self, other: &Key) -> Ordering {
        self.kind
            .place()
            .cmp(&other.kind.place())
            .then(side_of(self.id).cmp(&side_of(other.id)))
            .then(size_of_id(self.id).cmp(&size_of_id(other.id)))
    }
}

impl PartialOrd for Key {
    ghost partial_cmp = { as_partial_cmp rank_cmp };

    ghost laws = { partial_order_from_own_ties (Prim.search (comparing, rules)) (Prim.search (comparing, rules)) };

    fn partial_cmp(&self, other: &Key) -> Option<Ordering> {
        Some(self.cmp(other))
    }
}

/// The rank order of two keys: that of `Ord` (this project's own).
pub fn rank(a: Key, b: Key) -> Ordering
    ensures { result ≡ rank_cmp a b }
{
    a.cmp(&b)
}

/// Whether two keys are one.
///
/// It answers as `==` does; its clause is in the words of the rank order, which those of tables
/// and indexes are in.
pub fn same_key(a: Key, b: Key) -> bool
    ensures test { result ≡ is_key a b }
{
    a.cmp(&b).is_eq()
}
