//! What is left of objects that are deleted.
ghost use Rattle.std.specs.Prelude.{◌≡◌, Option, OnOk, IfOk};
ghost use Rattle.std.specs.FinMap as map;
ghost use Rattle.osm_base.specs.declared.content.Content.{Content};
ghost use Rattle.osm_table.specs.declared.entry.Entry.TheVariants.{Known};
ghost use Rattle.dataset.specs.Draft.{drafted};
ghost use Rattle.tool_api.specs.Changes.{changed, deleted, delete};

use dataset::{DataSet, Draft};
use osm_base::Key;
use osm_table::{Base, Conflict, Entry, Shared};
use std::alloc::AllocError;

fn deleted(entry: Entry) -> Option<Entry>
    ensures { result ≡ deleted entry }
{
    match entry {
        Entry::Incomplete => Some(Entry::Incomplete),
        Entry::Known {
            base,
            mine,
            conflict,
        } => {
            // Dropped by calls: on a way out, the code of all that they own would be written out.
            drop(mine);
            deleted_known(base, conflict)
        }
    }
}

fn deleted_known(base: Base, conflict: Option<Shared<Conflict>>) -> Option<Entry>
    ensures { (mine : Option Content) → result ≡ deleted (Known base mine conflict) }
{
    if let Base::New = &base {
        drop(base);
        drop(conflict);
        return None;
    }
    Some(Entry::Known {
        base,
        mine: None,
        conflict,
    })
}

fn deleted_at(ds: &DataSet, key: Key) -> Result<Option<Entry>, AllocError>
    ensures { IfOk result (λ left. left ≡ delete ds.now key) }
{
    match ds.entry(key) {
        None => Ok(None),
        Some(entry) => Ok(deleted(entry.to_entry()?)),
    }
}

/// Puts into the draft what is left of each of the keys when it is deleted. A look-up and a copy each.
///
/// # Errors
/// No memory was left; then the draft has some of them.
pub fn delete_all(ds: &DataSet, keys: &[Key], draft: &mut Draft) -> Result<(), AllocError>
    ensures { OnOk result (drafted draft.new ds.now ≡ changed (drafted draft.old ds.now) (delete ds.now) keys.now) }
{
    for key in keys {
        delete_one(ds, *key, draft)?;
    }
    Ok(())
}

/// As `delete_all`, for one key.
fn delete_one(ds: &DataSet, key: Key, draft: &mut Draft) -> Result<(), AllocError>
    ensures { OnOk result (draft.new ≡ record { puts = map.insert draft.old.puts key (delete ds.now key); next = draft.old.next }) }
{
    let after = deleted_at(ds, key)?;
    draft.put(key, after)
}
