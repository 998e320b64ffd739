//! Ids that are free.
ghost use Rattle.std.specs.Prelude.{◌≡◌, ◌≤◌, is_some, pos, IsTrue};
ghost use Rattle.osm_table.specs.Table.{entry_of};
ghost use Rattle.server_world.specs.Free.{is_taken, free_id, last_id, FitsMemory, IsStart};

use crate::starts::LAST_ID;
use crate::world::World;
use dataset::DataSet;
use osm_base::{Key, Kind};

impl World {
    /// The least positive id of the kind that stands neither in the world nor in the table; the greatest id, where all
    /// below it stand. Costs a look-up in the world for each id up to it, and a look at it where it lies in the table if the
    /// keys lie by rank, else a look-up there too.
    pub fn free_id(&self, kind: Kind, ds: &DataSet) -> i64
        ensures { result ≡ free_id self.now ds.now kind }
    {
        free_from(self, ds, kind, 1) as i64
    }
}

/// The least free id, of which it is known that it isn't below `from`. Ids of the table that lie by rank cost a look each where
/// they lie, all others a look-up in the table; and each costs one in the world.
pub fn free_from(world: &World, ds: &DataSet, kind: Kind, from: u64) -> u64
    requires { IsStart world.now ds.now kind from }
    ensures value { pos result ≡ free_id world.now ds.now kind }
    ensures start { IsStart world.now ds.now kind result }
{
    let mut id = from;
    let mut near = 0;
    while id < LAST_ID && is_taken(world, ds, &mut near, kind, id) {
        id += 1;
    }
    id
}

/// Whether an id stands in the world or in the table, where it is sought first at the place behind the last one that was found.
pub fn is_taken(world: &World, ds: &DataSet, near: &mut usize, kind: Kind, id: u64) -> bool
    requires { id ≤ last_id }
    ensures { result ≡ is_taken world.now ds.now kind id }
{
    let key = Key {
        kind,
        id: id as i64,
    };
    world.get(key).is_some() || has_entry(ds, near, key)
}

/// As many objects as memory may have room for, 2^58: each takes more than 32 bytes, and there are fewer than 2^63.
const MOST_OBJECTS: usize = 288_230_376_151_711_744;

/// Whether memory may have room for the world and the table. Where it has, ids don't run out.
pub fn fits_memory(world: &World, ds: &DataSet) -> bool
    ensures { IsTrue result → FitsMemory world.now ds.now }
{
    world.len() <= MOST_OBJECTS && ds.len() <= MOST_OBJECTS
}

fn has_entry(ds: &DataSet, near: &mut usize, key: Key) -> bool
    ensures { result ≡ is_some (entry_of ds.now key) }
{
    match ds.entry_near(*near, key) {
        None => false,
        Some((behind, _)) => {
            *near = behind;
            true
        }
    }
}
