//! A saved table, read.
ghost use Rattle.std.specs.Prelude.{◌≡◌, IfOk, T};
ghost use Rattle.std.specs.FinMap.Entries.{is_sorted};
ghost use Rattle.osm_base.specs.Rank.{rank_cmp};
ghost use Rattle.dataset.specs.Diff.{diff};
ghost use Rattle.dataset.specs.Patch.{StandsBefore, after_of};
ghost use Rattle.dataset.specs.Sound.{IsSound};
ghost use Rattle.opl_file.specs.Cut.{lines_of};
ghost use Rattle.saved_session.specs.Reading.{table_of};
ghost use Rattle.saved_session.specs.Resumed.{Resumes, patch_to, saved_patch, within};
ghost use Rattle.saved_session.specs.Told.{StandsIn};

use crate::drafting::draft_of;
use crate::fault::SavedFault;
use crate::keyed::KeyedTable;
use crate::lines::read_table;
use crate::soundness::first_unsound;
use dataset::{DataSet, Patch};
use std::alloc::AllocError;

/// The difference to a table that was read. Into a session without objects it costs a step for each entry; into another one look-up
/// of each as well, and of each key that goes.
fn patch_to_saved(ds: &DataSet, saved: &KeyedTable) -> Result<Patch, AllocError>
    requires { T (is_sorted rank_cmp saved.now.entries) }
    ensures { IfOk result (λ patch. patch ≡ diff ds.now (table_of (record { next = saved.now.next; entries = saved.now.entries }))) }
{
    if ds.len() == 0 {
        return ds.patch_of_entries(&saved.entries, saved.next);
    }
    let draft = draft_of(ds, saved)?;
    let patch = ds.patch_of(&draft);
    // Dropped by a call: on a way out, all that it owns would be written out.
    drop(draft);
    patch
}

/// The difference to a table that was read, where it is sound and within the limit.
fn patch_within(ds: &DataSet, saved: &KeyedTable, limit: u64) -> Result<Patch, SavedFault>
    requires { T (is_sorted rank_cmp saved.now.entries) }
    ensures { Resumes result (patch_to ds.now (within limit (table_of (record { next = saved.now.next; entries = saved.now.entries })))) }
{
    match first_unsound(saved)? {
        Some(key) => Err(SavedFault::Unsound { key }),
        None => {
            if limit < saved.entries.len() as u64 {
                Err(SavedFault::TableFull)
            } else {
                Ok(patch_to_saved(ds, saved)?)
            }
        }
    }
}

/// The difference from the table of a data set to the one of a text. Costs the bytes, a step for each object, and for each of its
/// references a search, or none where it stands behind the one before it. No key is hashed, but where the data set has objects: then
/// each key of both costs a look-up more.
///
/// # Errors
/// The first line that can't stand in its place; else the least key whose entry breaks a condition of a sound table; else that
/// there are more entries than the limit; or no memory was left.
#[tactic(auto, unfolding(crate::specs::Resumed::saved_table, crate::specs::Resumed::saved_patch))]
pub fn read_saved(ds: &DataSet, bytes: &[u8], limit: u64) -> Result<Patch, SavedFault>
    // It is the difference by the definition, or the fault.
    ensures value { Resumes result (saved_patch limit ds.now bytes.now) }
    // It leads to a sound table.
    ensures stands { IfOk result (λ patch. StandsBefore patch ds.now) }
    ensures sound { IfOk result (λ patch. IsSound (after_of patch ds.now)) }
    // The saved session of that table stands in the lines.
    ensures saved { IfOk result (λ patch. StandsIn (after_of patch ds.now) (lines_of bytes.now)) }
{
    let saved = read_table(ds.alloc(), bytes)?;
    let table = KeyedTable::new(ds.alloc(), saved)?;
    patch_within(ds, &table, limit)
}
