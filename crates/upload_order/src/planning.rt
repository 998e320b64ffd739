//! The plan, or why there is none.
ghost use Rattle.std.specs.Prelude.{◌≡◌, IfOk, List, ℤ};
ghost use Rattle.std.specs.List.{filter};
ghost use Rattle.osm_table.specs.Table.{keys_by_rank};
ghost use Rattle.upload_order.specs.Kinds.{at_key};
ghost use Rattle.upload_order.specs.Part.{changed_keys};
ghost use Rattle.upload_order.specs.Plan.{made};
ghost use Rattle.upload_order.specs.Refused.{is_open, upload, Gives};
ghost use Rattle.upload_order.specs.Run.{run_from, Ended, AreFresh};
ghost use Rattle.upload_order.specs.World.{World, IsSoundWorld, Holds, Alone, AcceptsSoundly, IsEdited};

use crate::change::Changes;
use crate::marking::marked;
use crate::order::{Order, order_of};
use crate::part::{Part, part_of};
use crate::refusal::PlanRefusal;
use crate::refused::{loose_refusal, open_refusal, stuck_refusal};
use crate::sending::changes_of;
use dataset::DataSet;
use osm_base::Key;
use std::alloc::{AllocError, Global};

/// The changes that bring the edits to the server, in an order in which it can take them; or why
/// nothing is sent.
///
/// Looks at each entry once, where it lies if the keys lie by rank, and else sorts the keys and looks each up. Beside that it
/// costs what is sent, a step of log n for each object, reference and user; and where something that is sent refers to an
/// Incomplete object the references of those that refer to it too, a look-up each.
///
/// # Errors
/// Answers the first refusal that holds, or that no memory was left.
pub fn plan(ds: &DataSet) -> Result<Changes, PlanRefusal>
    // It is the plan by the definition, or the refusal.
    ensures value { Gives result (upload ds.now) }
    // Each sound server that has the bases, and nothing else that refers to what is deleted, accepts each prefix
    // whatever ids it picks, is sound after each change, and has the edited data after the last.
    ensures accepted { IfOk result (λ cs. (w : World) → IsSoundWorld w → Holds w ds.now → Alone w ds.now → AcceptsSoundly ds.now w cs (IsEdited ds.now w)) }
    // The same for a list of picks.
    ensures runs { IfOk result (λ cs. (w : World) (picks : List ℤ) → IsSoundWorld w → Holds w ds.now → Alone w ds.now → AreFresh w ds.now cs picks → (v : World) × (run_from 1 w cs picks ≡ Ended v) × IsEdited ds.now w v) }
{
    ds.sound();
    planned(ds)
}

fn planned(ds: &DataSet) -> Result<Changes, PlanRefusal>
    ensures { Gives result (upload ds.now) }
{
    let marks = marked(ds)?;
    let planned = planned_of(ds, &marks.open, &marks.changed);
    // Dropped by a call: on each way out the drops of its lists would be written out.
    drop(marks);
    planned
}

/// As `planned`, where it is known what is in conflict and what is changed.
fn planned_of(ds: &DataSet, conflicts: &[Key], changed: &[Key]) -> Result<Changes, PlanRefusal>
    requires conflicts { conflicts.now ≡ filter (at_key ds.now is_open) (keys_by_rank ds.now) }
    requires changed { changed.now ≡ changed_keys ds.now }
    ensures { Gives result (upload ds.now) }
{
    let alloc = ds.alloc();
    if let Some(refusal) = open_refusal(conflicts) {
        return Err(refusal);
    }
    if let Some(refusal) = loose_refusal(alloc, ds, changed)? {
        return Err(refusal);
    }
    let Order { order, stuck } = relations(alloc, ds, changed)?;
    if let Some(refusal) = stuck_refusal(stuck) {
        return Err(refusal);
    }
    let changes = changes_of(alloc, ds, changed, &order)?;
    Ok(changes)
}

/// The rising relations, in the order in which they can be made, and those that can't.
fn relations(alloc: Global, ds: &DataSet, changed: &[Key]) -> Result<Order, AllocError>
    requires { changed.now ≡ changed_keys ds.now }
    ensures order { IfOk result (λ o. o.order.items ≡ (made ds.now).order) }
    ensures stuck { IfOk result (λ o. o.stuck.items ≡ (made ds.now).stuck) }
{
    let relations = part_of(alloc, ds, changed, Part::RisingRelations)?;
    let order = order_of(alloc, ds, &relations)?;
    Ok(order)
}
