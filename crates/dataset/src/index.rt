//! The index of a data set.
ghost use Rattle.std.specs.Prelude.{◌≡◌, ◌+◌, ◌≤◌, ℕ, not, T, nat_lt, IfOk, OnOk, OnErr};
ghost use Rattle.osm_base.specs.RisingKeys.{rises, is_in};
ghost use Rattle.osm_base.specs.declared.key.Key.{Key};
ghost use Rattle.osm_table.specs.Told.{table_told};
ghost use Rattle.ref_index.specs.declared.pair.Pair.{Pair};
ghost use Rattle.ref_index.specs.Bag.{count, times};
ghost use Rattle.dataset.specs.Exact.{IsExact, pairs_by, times_key};
ghost use Rattle.dataset.specs.Index.{count_kept};
ghost use Rattle.dataset.specs.Sides.{side};
ghost use Rattle.dataset.specs.ToldIndex.{refs_told};

use crate::edit::Edit;
use crate::pairs::{keep_pairs, lead_pairs};
use crate::told_index::ToldIndex;
use osm_base::Key;
use osm_table::{Shared, ToldMap};
use ref_index::RefIndex;
use std::alloc::{AllocError, Global};
use std::mem::replace;

/// Who refers to what. As long as no reference comes or goes behind a first download it stands beside
/// the told map; the first edit that moves one makes it an index of its own.
#[derive(Drop)]
pub enum Index {
    Own(RefIndex),
    Told(ToldIndex),
}

impl Index {
    /// An index without pairs.
    pub fn new(alloc: Global) -> Index
        ensures { (p : Pair) → count_kept result p ≡ 0 }
    {
        Index::Own(RefIndex::new(alloc))
    }

    /// An index of what the objects that are told of as living refer to. Costs one search a reference at
    /// most, and beside the told map 24 bytes a key and the blocks of those that several use. Where they
    /// weren't told by rank, it sorts a list of their keys and costs one search an object more.
    ///
    /// # Errors
    ///
    /// Where no memory is found.
    pub fn told(told: Shared<ToldMap>) -> Result<Index, AllocError>
        ensures { IfOk result (λ index. (next : ℕ) → IsExact (table_told told.told next) (count_kept index)) }
    {
        Ok(Index::Told(ToldIndex::new(told)?))
    }

    /// The distinct users of a key, by rank. Costs one search for the key and takes no memory.
    pub fn users(&self, of: Key) -> &[Key]
        ensures rises { T (rises result.now) }
        ensures members { (user : Key) → is_in user result.now ≡ nat_lt 0 (count_kept self.now (record { of = of; user = user })) }
    {
        match self {
            Index::Own(index) => index.users(of),
            Index::Told(index) => index.users(of),
        }
    }

    /// Whether a key is used by another. Costs one search for the key and one by halving, and takes no
    /// memory.
    pub fn is_user(&self, of: Key, user: Key) -> bool
        ensures { result ≡ nat_lt 0 (count_kept self.now (record { of = of; user = user })) }
    {
        match self {
            Index::Own(index) => index.is_user(of, user),
            Index::Told(index) => index.is_user(of, user),
        }
    }

    /// Leads the index by one side of edits: their pairs come, and those of the other side, which are
    /// there, go. Costs one look-up a pair that moves. The first pair that does behind a first
    /// download costs what the told map refers to, once; edits that move none leave the index beside it.
    ///
    /// # Errors
    ///
    /// Where no memory is found. Then each pair is there as often as it was.
    pub fn lead(&mut self, edits: &[Edit], forth: bool) -> Result<(), AllocError>
        requires { (p : Pair) → times p (pairs_by (side (not forth)) edits.now) ≤ count_kept self.old p }
        ensures ok { OnOk result ((p : Pair) → times p (pairs_by (side (not forth)) edits.now) + count_kept self.new p ≡ times p (pairs_by (side forth) edits.now) + count_kept self.old p) }
        ensures err { OnErr result ((p : Pair) → count_kept self.new p ≡ count_kept self.old p) }
    {
        match self {
            Index::Own(index) => lead_pairs(index, edits, forth),
            Index::Told(told) => {
                if keep_pairs(edits) {
                    return Ok(());
                }
                let index = own_led(told, edits, forth)?;
                // Dropped by a call: on the way out, the code of all that an index owns would be written out.
                drop(replace(self, Index::Own(index)));
                Ok(())
            }
        }
    }
}

/// The pairs of a told map in an index of its own, led by one side of edits.
fn own_led(told: &ToldIndex, edits: &[Edit], forth: bool) -> Result<RefIndex, AllocError>
    requires { (p : Pair) → times p (pairs_by (side (not forth)) edits.now) ≤ times_key p.of (refs_told told.now p.user) }
    ensures { IfOk result (λ index. (p : Pair) → times p (pairs_by (side (not forth)) edits.now) + count index p ≡ times p (pairs_by (side forth) edits.now) + times_key p.of (refs_told told.now p.user)) }
{
    let mut index = told.own()?;
    lead_pairs(&mut index, edits, forth).and(Ok(index))
}
