//! What living objects refer to.
ghost use Rattle.std.specs.Prelude.{◌≡◌, ◌++◌, ◌∷◌, [], OnOk, filter};
ghost use Rattle.std.specs.Option.{option_copied};
ghost use Rattle.osm_base.specs.Rank.{is_key};
ghost use Rattle.dataset.specs.Draft.{drafted};
ghost use Rattle.closure.specs.Closure.{has};
ghost use Rattle.merge_tool.specs.Drafts.{NamesEnter};
ghost use Rattle.merge_tool.specs.Walks.{is_lost};
ghost use Rattle.merge_tool.specs.Passes.{is_there};

use crate::entries::is_lost;
use dataset::{DataSet, Draft};
use osm_base::Key;
use osm_table::{EntryParts, SharedEntry, Told};
use std::alloc::AllocError;

/// Sees to it that what is named is there: it enters as Incomplete where it isn't there or is gone on both sides. The
/// lost ones are appended to `out`, since they may come back. Two look-ups at most for each name.
///
/// # Errors
/// No memory was left.
pub fn name_all(
    ds: &DataSet,
    draft: &mut Draft,
    names: &[Key],
    out: &mut Vec<Key>,
) -> Result<(), AllocError>
    ensures entries { OnOk result (NamesEnter ds.now (has is_key names.now) draft.old draft.new) }
    ensures lost { OnOk result (out.new.items ≡ out.old.items ++ filter (is_lost (drafted draft.old ds.now)) names.now) }
    ensures number { OnOk result (draft.new.next ≡ draft.old.next) }
{
    for key in names {
        name(ds, draft, *key, out)?;
    }
    Ok(())
}

fn name(ds: &DataSet, draft: &mut Draft, key: Key, out: &mut Vec<Key>) -> Result<(), AllocError>
    ensures entries { OnOk result (NamesEnter ds.now (λ q. is_key q key) draft.old draft.new) }
    ensures lost { OnOk result (out.new.items ≡ out.old.items ++ filter (is_lost (drafted draft.old ds.now)) (key ∷ [])) }
    ensures number { OnOk result (draft.new.next ≡ draft.old.next) }
{
    let entry = draft.entry(ds, key);
    if is_there(entry) {
        Ok(())
    } else if is_lost(entry) {
        out.push(key)?;
        Ok(())
    } else {
        draft.put_shared(key, Some(SharedEntry::told(ds.alloc(), Told::Mentioned)?))?;
        Ok(())
    }
}

/// Whether an object lives, or no more is known than that it is at the server.
fn is_there(entry: Option<&SharedEntry>) -> bool
    ensures { result ≡ is_there (option_copied entry.entry) }
{
    entry.is_some_and(|entry| match entry.parts() {
        EntryParts::Incomplete => true,
        EntryParts::Known { mine, .. } => mine.is_some(),
    })
}
