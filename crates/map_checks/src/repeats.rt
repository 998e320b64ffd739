//! Equal references side by side.
ghost use Rattle.std.specs.Prelude.{◌≡◌, IfOk};
ghost use Rattle.tool_api.specs.Findings.{has_repeat, is_repeated};
ghost use Rattle.tool_api.specs.Squeeze.{squeezed};

use dataset::DataSet;
use osm_base::Key;
use std::alloc::{AllocError, Global};
use tool_api::refs_at;

/// Whether two equal references stand side by side. It walks them up to the first two.
pub fn has_repeat(refs: &[i64]) -> bool
    ensures { result ≡ has_repeat refs.now }
{
    for i in 1..refs.len() {
        if refs[i - 1] == refs[i] {
            return true;
        }
    }
    false
}

/// Whether the key's object lives as a way with such two. One look-up, and a walk of a way's references.
pub fn is_repeated(ds: &DataSet, key: Key) -> bool
    ensures { result ≡ is_repeated ds.now key }
{
    has_repeat(refs_at(ds, key))
}

/// The references without each that equals the one just before it.
///
/// # Errors
/// No memory was left.
pub fn squeezed(alloc: Global, refs: &[i64]) -> Result<Vec<i64>, AllocError>
    ensures { IfOk result (λ left. left.items ≡ squeezed refs.now) }
{
    let mut left = Vec::from_slice(alloc, refs)?;
    left.dedup();
    Ok(left)
}
