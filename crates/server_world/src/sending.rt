//! One change after the other, each with the least free id.
ghost use Rattle.std.specs.Prelude.{◌≡◌, IfOk, OnOk, OnErr};
ghost use Rattle.upload_order.specs.World.{IsFresh};
ghost use Rattle.server_world.specs.Free.{free_id, IsFreeId};
ghost use Rattle.server_world.specs.Sent.{pick_for, answer_to, after_sent};
ghost use Rattle.server_world.specs.Starts.{AreStarts};

use crate::free::{fits_memory, free_from};
use crate::refusal::WorldFault;
use crate::starts::Starts;
use crate::world::World;
use dataset::DataSet;
use osm_base::Kind;
use std::alloc::AllocError;
use upload_order::{Change, WorldRefusal};

/// What a world answers to a change that is sent.
#[derive(Clone, Copy)]
pub enum Sent {
    /// It is taken. An object that it makes has this id; at each other change it is 0.
    Taken(i64),
    /// It is refused, and the world stays as it is.
    Refused(WorldRefusal),
}

impl World {
    /// Sends a change, with the least id that is free in the world and in the table, if it makes an object.
    ///
    /// It costs what `accept` costs, and three look-ups. To pick an id costs what `free_id` does, for each from the least that
    /// doesn't stand in the world up to it. Beside that the search costs a look-up for each id that stands in the world, once
    /// for all sends, whatever their tables.
    ///
    /// # Errors
    /// No memory was left, as where the world or the table has more objects than memory may have room for, 2^58. Nothing has
    /// changed then. There is always an id, and a version after the one that a change names.
    pub fn send(&mut self, ds: &DataSet, change: &Change) -> Result<Sent, AllocError>
        // The id or the refusal is that of the definition.
        ensures answer { IfOk result (λ sent. sent ≡ answer_to self.old ds.now change.now) }
        ensures ok { OnOk result (self.new ≡ after_sent self.old ds.now change.now) }
        // The id is new to the world and to the table.
        ensures fresh { OnOk result (IsFresh self.old ds.now change.now (pick_for self.old ds.now change.now)) }
        ensures err { OnErr result (self.new ≡ self.old) }
    {
        let mut starts = self.starts();
        send_from(self, ds, &mut starts, change)
    }
}

/// Sends a change, and seeks its id from the start of its kind, which moves up to that id.
///
/// # Errors
/// No memory was left. The world hasn't changed then.
pub fn send_from(
    world: &mut World,
    ds: &DataSet,
    starts: &mut Starts,
    change: &Change,
) -> Result<Sent, AllocError>
    requires starts { AreStarts world.old ds.now starts.old }
    ensures starts { OnOk result (AreStarts world.new ds.now starts.new) }
    ensures answer { IfOk result (λ sent. sent ≡ answer_to world.old ds.now change.now) }
    ensures ok { OnOk result (world.new ≡ after_sent world.old ds.now change.now) }
    ensures fresh { OnOk result (IsFresh world.old ds.now change.now (pick_for world.old ds.now change.now)) }
    ensures err { OnErr result (world.new ≡ world.old) }
{
    let picked = pick(world, ds, starts, change)?;
    match world.accept(change, picked) {
        Ok(()) => Ok(Sent::Taken(picked)),
        Err(WorldFault::Refused(why)) => Ok(Sent::Refused(why)),
        Err(WorldFault::Memory) => Err(AllocError),
    }
}

/// The id for a change: the least free one, if it makes an object.
fn pick(
    world: &World,
    ds: &DataSet,
    starts: &mut Starts,
    change: &Change,
) -> Result<i64, AllocError>
    requires starts { AreStarts world.now ds.now starts.old }
    ensures starts { OnOk result (AreStarts world.now ds.now starts.new) }
    ensures value { IfOk result (λ picked. picked ≡ pick_for world.now ds.now change.now) }
    ensures fresh { OnOk result (IsFresh world.now ds.now change.now (pick_for world.now ds.now change.now)) }
{
    match change {
        Change::Create { key, .. } => pick_id(world, ds, starts, key.kind),
        _ => Ok(0),
    }
}

fn pick_id(world: &World, ds: &DataSet, starts: &mut Starts, kind: Kind) -> Result<i64, AllocError>
    requires starts { AreStarts world.now ds.now starts.old }
    ensures starts { OnOk result (AreStarts world.now ds.now starts.new) }
    ensures value { IfOk result (λ picked. picked ≡ free_id world.now ds.now kind) }
    ensures fresh { OnOk result (IsFreeId world.now ds.now kind (free_id world.now ds.now kind)) }
{
    if !fits_memory(world, ds) {
        return Err(AllocError);
    }
    let id = free_from(world, ds, kind, starts.at(kind));
    starts.set(kind, id);
    Ok(id as i64)
}
