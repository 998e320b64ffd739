//! How often the pairs are there that are there more than once, as those of a closed way with its
//! first node are. Any other pair has no number.
ghost use Rattle.std.specs.Prelude.{◌≡◌, ◌+◌, Some, OnOk, OnErr, IsSome};
ghost use Rattle.std.specs.HashMap.{get};
ghost use Rattle.ref_index.specs.declared.pair.Pair.{Pair};
ghost use Rattle.ref_index.specs.Bag.{pair_eq};
ghost use Rattle.ref_index.specs.Repeats.{SetsNumber, number_of};

use crate::pair::Pair;
use std::alloc::AllocError;
use std::collections::HashMap;

/// How often a listed pair is there. Costs one look-up by hash, and none where no pair has a number.
pub fn number_of(repeats: &HashMap<Pair, u64>, pair: Pair) -> u64
    ensures { result ≡ number_of repeats.now.entries pair }
{
    if repeats.is_empty() {
        return 1;
    }
    match repeats.get(&pair) {
        Some(number) => *number,
        None => 1,
    }
}

/// Counts a listed pair once more. Costs one look-up by hash.
///
/// # Errors
///
/// Where no memory is found, or where the pair would be there 2^64 times. Then nothing changes.
pub fn count_again(repeats: &mut HashMap<Pair, u64>, pair: Pair) -> Result<(), AllocError>
    ensures ok { OnOk result (SetsNumber repeats.old.entries repeats.new.entries pair (Some (number_of repeats.old.entries pair + 1))) }
    ensures err { OnErr result ((q : Pair) → get pair_eq repeats.new q ≡ get pair_eq repeats.old q) }
{
    let number = repeats.entry(pair)?.or_insert(1);
    if *number == u64::MAX {
        return Err(AllocError);
    }
    *number += 1;
    Ok(())
}

/// Gives a pair that has a number another. Costs one look-up by hash.
pub fn set_number(repeats: &mut HashMap<Pair, u64>, pair: Pair, number: u64)
    requires { IsSome (get pair_eq repeats.old pair) }
    ensures { SetsNumber repeats.old.entries repeats.new.entries pair (Some number) }
{
    if let Some(there) = repeats.get_mut(&pair) {
        *there = number;
    }
}
