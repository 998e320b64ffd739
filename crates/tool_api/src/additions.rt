//! New objects in drafts.
ghost use Rattle.std.specs.Prelude.{◌≡◌, ◌+◌, ◌≤◌, ◌<◌, ◌^◌, OnOk};
ghost use Rattle.osm_table.specs.Table.{TableValue};
ghost use Rattle.dataset.specs.Draft.{drafted};
ghost use Rattle.tool_api.specs.Changes.{added, new_key};

use dataset::Draft;
use osm_base::{Content, Key, Kind};
use osm_table::{Base, Entry};
use std::alloc::AllocError;

/// The key of the new object with a number.
pub fn new_key(kind: Kind, number: u64) -> Key
    requires low { 1 ≤ number }
    requires high { number < 2 ^ 63 }
    ensures { result ≡ new_key kind number }
{
    Key {
        kind,
        id: -(number as i64),
    }
}

/// Puts a new object into the draft, and raises the number.
///
/// # Errors
/// No memory was left.
pub fn add_new(draft: &mut Draft, content: Content) -> Result<(), AllocError>
    requires low { 1 ≤ draft.old.next }
    requires high { draft.old.next < 2 ^ 63 }
    ensures added { OnOk result ((t : TableValue) → drafted draft.new t ≡ added (drafted draft.old t) content) }
    ensures next { OnOk result (draft.new.next ≡ draft.old.next + 1) }
{
    let number = draft.next();
    let key = new_key(content.kind(), number);
    draft.set_next(number + 1);
    draft.put(
        key,
        Some(Entry::Known {
            base: Base::New,
            mine: Some(content),
            conflict: None,
        }),
    )
}
