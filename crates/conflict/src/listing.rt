//! The objects in conflict.
ghost use Rattle.std.specs.Prelude.{◌≡◌, IfOk};
ghost use Rattle.conflict.specs.Listed.{conflict_keys};

use dataset::DataSet;
use osm_base::Keys;
use std::alloc::AllocError;
use std::cell::Cell;
use tool_api::in_conflict;

/// The keys of the objects in conflict, by rank. It is one pass over the entries where they lie: keys that stand by rank
/// aren't sorted, and none is looked up that came behind the one before it.
///
/// # Errors
/// No memory was left.
pub fn conflicts(ds: &DataSet) -> Result<Keys, AllocError>
    ensures { IfOk result (λ keys. keys ≡ conflict_keys ds.now) }
{
    let keys = ds.ordered()?;
    let near = Cell::new(0);
    let found = keys
        .as_slice()
        .iter()
        .copied()
        .filter(|key| in_conflict(ds.entry_along(&near, *key)))
        .collect(ds.alloc())?;
    Ok(Keys::from_vec(found))
}
