//! Keys without repeats.
ghost use Rattle.std.specs.Prelude.{◌≡◌, IfOk};
ghost use Rattle.tool_api.specs.Distinct.{distinct};

use closure::KeySet;
use osm_base::Key;
use std::alloc::{AllocError, Global};

/// Each of the keys once, in the order in which it comes first. It hashes each key once.
///
/// # Errors
/// No memory was left.
pub fn distinct(alloc: Global, keys: &[Key]) -> Result<Vec<Key>, AllocError>
    ensures { IfOk result (λ once. once.items ≡ distinct keys.now) }
{
    let mut once = KeySet::new(alloc);
    once.put_all(keys)?;
    Ok(once.into_vec())
}
