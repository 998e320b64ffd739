//! The nodes of ways.
ghost use Rattle.std.specs.Prelude.{◌≡◌, map, IfOk};
ghost use Rattle.osm_base.specs.Content.{node};
ghost use Rattle.tool_api.specs.Combine.{last_in};
ghost use Rattle.tool_api.specs.Upkeep.{first_in};

use osm_base::{Key, node_key};
use std::alloc::{AllocError, Global};

/// The keys of the nodes with these ids, in their order.
///
/// # Errors
/// No memory was left.
pub fn node_keys(alloc: Global, ids: &[i64]) -> Result<Vec<Key>, AllocError>
    ensures { IfOk result (λ keys. keys.items ≡ map node ids.now) }
{
    ids.iter().map(|id| node_key(*id)).collect(alloc)
}

/// The first of the references.
pub fn first_in(refs: &[i64]) -> Option<i64>
    ensures { result ≡ first_in refs.now }
{
    refs.first().copied()
}

/// The last of the references.
pub fn last_in(refs: &[i64]) -> Option<i64>
    ensures { result ≡ last_in refs.now }
{
    refs.last().copied()
}
