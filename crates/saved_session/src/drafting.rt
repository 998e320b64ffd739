//! The draft that makes a read table out of the one that is there.

ghost use Rattle.std.specs.Prelude.{◌≡◌, OnOk, IfOk, T};
ghost use Rattle.std.specs.FinMap.Entries.{is_sorted};
ghost use Rattle.osm_base.specs.Rank.{rank_cmp};
ghost use Rattle.osm_table.specs.Table.{keys_by_rank, with_entry, without_entry};
ghost use Rattle.dataset.specs.Draft.{drafted};
ghost use Rattle.saved_session.specs.Drafting.{with_all, without_all};
ghost use Rattle.saved_session.specs.Reading.{table_of};

use crate::keyed::KeyedTable;
use dataset::{DataSet, Draft};
use osm_base::Key;
use osm_table::{KeyedEntries, SharedEntry};
use std::alloc::AllocError;

#[tactic(auto, using(dataset::proofs::Changes::drafted_put))]
fn take_out(ds: &DataSet, draft: &mut Draft, key: Key) -> Result<(), AllocError>
    ensures { OnOk result (drafted draft.new ds.now ≡ without_entry (drafted draft.old ds.now) key) }
{
    draft.put(key, None)
}

#[tactic(auto, using(dataset::proofs::Changes::drafted_put))]
fn put_in(ds: &DataSet, draft: &mut Draft, key: Key, entry: &SharedEntry) -> Result<(), AllocError>
    ensures { OnOk result (drafted draft.new ds.now ≡ with_entry (drafted draft.old ds.now) key entry.now) }
{
    draft.put_shared(key, Some(entry.copy()?))
}

fn take_all_out(ds: &DataSet, draft: &mut Draft, keys: &[Key]) -> Result<(), AllocError>
    ensures { OnOk result (drafted draft.new ds.now ≡ without_all keys.now (drafted draft.old ds.now)) }
{
    for key in keys {
        take_out(ds, draft, *key)?;
    }
    Ok(())
}

/// Takes all keys of the table out.
fn empty_out(ds: &DataSet, draft: &mut Draft) -> Result<(), AllocError>
    ensures { OnOk result (drafted draft.new ds.now ≡ without_all (keys_by_rank ds.now) (drafted draft.old ds.now)) }
{
    let keys = ds.ordered()?;
    take_all_out(ds, draft, keys.as_slice())
}

fn put_all_in(ds: &DataSet, draft: &mut Draft, entries: &KeyedEntries) -> Result<(), AllocError>
    ensures { OnOk result (drafted draft.new ds.now ≡ with_all entries.now (drafted draft.old ds.now)) }
{
    for i in 0..entries.len() {
        let (key, entry) = entries.entry_at(i);
        put_in(ds, draft, key, entry)?;
    }
    Ok(())
}

/// The draft whose table is the one that was read: all keys go, and those that were read come. The entries are shared with it.
///
/// # Errors
/// No memory was left.
pub fn draft_of(ds: &DataSet, saved: &KeyedTable) -> Result<Draft, AllocError>
    requires { T (is_sorted rank_cmp saved.now.entries) }
    ensures { IfOk result (λ draft. drafted draft ds.now ≡ table_of (record { next = saved.now.next; entries = saved.now.entries })) }
{
    let mut draft = Draft::with_capacity(ds, saved.entries.len())?;
    empty_out(ds, &mut draft)?;
    put_all_in(ds, &mut draft, &saved.entries)?;
    draft.set_next(saved.next);
    Ok(draft)
}
