//! Keys in the order of tables.
ghost use Rattle.std.specs.Prelude.{◌≡◌, IfOk};
ghost use Rattle.osm_base.specs.Order.{ranked};

use crate::key::Key;
use std::alloc::AllocError;

/// The keys by rank, each once. Sorts them once.
///
/// # Errors
/// No memory was left.
pub fn ranked(keys: Vec<Key>) -> Result<Vec<Key>, AllocError>
    ensures { IfOk result (λ ks. ks.items ≡ ranked keys.items) }
{
    let mut ranked = keys;
    ranked.sort()?;
    ranked.dedup();
    Ok(ranked)
}
