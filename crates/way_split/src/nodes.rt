//! The nodes of a way as keys.
ghost use Rattle.std.specs.Prelude.{◌≡◌, IfOk, ℤ, ◌<◌, length, slice_index_or, pos};
ghost use Rattle.osm_base.specs.Content.{node};
ghost use Rattle.tool_api.specs.Checks.{is_named};
ghost use Rattle.tool_api.specs.Upkeep.{is_among};

use osm_base::{Key, node_key};
use std::alloc::{AllocError, Global};
use tool_api::{KeySet, node_keys};

/// The key of the node at a place.
pub fn node_at(ids: &[i64], i: usize) -> Key
    requires { i < length ids.now }
    ensures { result ≡ node (slice_index_or ids.now i (pos 0)) }
{
    node_key(ids[i])
}

/// The keys of nodes, each found at once. Each is hashed once.
///
/// # Errors
/// No memory was left.
pub fn node_set(alloc: Global, ids: &[i64]) -> Result<KeySet, AllocError>
    ensures { IfOk result (λ set. (id : ℤ) → is_named set (node id) ≡ is_among ids.now id) }
{
    let keys = node_keys(alloc, ids)?;
    KeySet::from_vec(keys)
}
