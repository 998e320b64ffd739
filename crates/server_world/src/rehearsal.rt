//! The rehearsal of an upload.
ghost use Rattle.std.specs.Prelude.{◌≡◌, Ok, IfOk, length};
ghost use Rattle.upload_order.specs.Refused.{upload};
ghost use Rattle.server_world.specs.declared.rehearsal.Rehearsal.TheVariants.{Accepted};
ghost use Rattle.server_world.specs.Bases.{of_bases};
ghost use Rattle.server_world.specs.Rehearsed.{rehearsed};

use crate::asked::keys_met;
use crate::sending::{Sent, send_from};
use crate::starts::Starts;
use crate::world::World;
use dataset::DataSet;
use std::alloc::AllocError;
use upload_order::{Changes, WorldRefusal};

/// What becomes of changes at a server.
#[derive(Clone, Copy)]
pub enum Rehearsal {
    /// All are accepted, and so many there are.
    Accepted(u64),
    /// This change, counted from 1, is the first that is refused.
    Refused { change: u64, why: WorldRefusal },
}

/// Sends changes to a server that has the bases of the data set and picks the least free id for each new object, up to the
/// first that is refused.
///
/// No server of all bases is made: it has the objects that the changes meet. So it costs a look at each entry, where it lies if
/// the keys lie by rank, and what the changes cost: for each object that they meet a sort, three look-ups and what its base
/// refers to. Where objects are made, also a look-up for each id of the table and that server at most.
///
/// # Errors
/// No memory was left.
pub fn rehearse(ds: &DataSet, changes: &Changes) -> Result<Rehearsal, AllocError>
    // It is the answer of the definition.
    ensures value { IfOk result (λ r. r ≡ rehearsed ds.now 0 (of_bases ds.now) changes.now) }
    // The plan of the data set is accepted, whether what was downloaded agrees or not.
    ensures plan { IfOk result (λ r. upload ds.now ≡ Ok changes.now → r ≡ Accepted (length changes.now)) }
{
    ds.sound();
    let keys = keys_met(ds, changes.as_slice())?;
    let mut world = World::of_those(ds, &keys)?;
    let mut starts = Starts::new();
    let mut accepted = 0;
    for change in changes.as_slice() {
        match send_from(&mut world, ds, &mut starts, change)? {
            Sent::Taken(_) => accepted += 1,
            Sent::Refused(why) => {
                return Ok(Rehearsal::Refused {
                    change: accepted + 1,
                    why,
                });
            }
        }
    }
    Ok(Rehearsal::Accepted(accepted))
}
