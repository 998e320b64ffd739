//! The objects of a world.
ghost use Rattle.std.specs.Prelude.{◌≡◌, ◌<◌, ◌≤◌, Some, is_some, IfOk, OnOk, OnErr};
ghost use Rattle.std.specs.List.{IsDistinct, find};
ghost use Rattle.std.specs.Map.{keys_of};
ghost use Rattle.std.specs.Option.{option_copied, option_map};
ghost use Rattle.std.specs.FinMap as fin;
ghost use Rattle.std.specs.HashMap.{spare, Updates};
ghost use Rattle.osm_base.specs.KeyEq.{eq};
ghost use Rattle.upload_order.specs.Kinds.{content_refers};
ghost use Rattle.server_world.specs.Free.{last_id};
ghost use Rattle.server_world.specs.Starts.{key_at, IsStartOf, AreStartsOf};

use crate::entry::WorldEntry;
use crate::pairs::{add_object, take_object};
use crate::starts::{LAST_ID, Starts};
use osm_base::{Key, Keys, Kind};
use ref_index::RefIndex;
use std::alloc::{AllocError, Global};
use std::collections::HashMap;
use std::marker::Model;

/// Objects by key, who refers to what, and where free ids are sought.
///
/// Clauses see the map by rank. The index holds the references of each object. Something stands under each id below the
/// starts.
#[derive(Drop)]
pub struct Objects {
    alloc: Global,
    entries: HashMap<Key, WorldEntry>,
    index: RefIndex,
    starts: Starts,
}

impl Model for Objects {
    ghost use Rattle.std.specs.FinMap as fin;
    ghost use Rattle.server_world.specs.Codes.{Objects, objects_code};
    ghost use Rattle.server_world.specs.Kept.{IsKept};

    ghost Value = { Objects };

    ghost coded = { objects_code };

    ghost view = { λ o. fin.from_entries o.entries.entries };

    ghost invariant = { λ o. IsKept (fin.from_entries o.entries.entries) o.index o.starts };
}

impl Objects {
    /// No objects. It takes no memory.
    pub fn new(alloc: Global) -> Objects
        ensures { result ≡ fin.empty }
    {
        Objects {
            alloc,
            entries: HashMap::new(alloc),
            index: RefIndex::new(alloc),
            starts: Starts::new(),
        }
    }

    /// What stands of a key. One look-up.
    pub fn get(&self, key: Key) -> Option<&WorldEntry>
        ensures { option_copied result ≡ fin.get self.now key }
    {
        self.entries.get(&key)
    }

    /// The least object whose content refers to the key. One look-up.
    pub fn first_user(&self, key: Key) -> Option<Key>
        ensures { result ≡ option_map (λ e. e.0) (find (λ e. content_refers e.1.content key) (fin.entries self.now)) }
    {
        self.index.users(key).first().copied()
    }

    /// How many there are.
    pub fn len(&self) -> usize
        ensures { result ≡ fin.len self.now }
    {
        self.entries.len()
    }

    /// Their keys by rank. It sorts them once, so n keys cost n log n steps.
    ///
    /// # Errors
    /// No memory was left.
    pub fn keys(&self) -> Result<Keys, AllocError>
        ensures { IfOk result (λ keys. keys ≡ fin.keys self.now) }
    {
        let mut keys = keys(self.alloc, &self.entries)?;
        keys.sort()?;
        Ok(Keys::from_vec(keys))
    }

    /// For each kind the least id under which nothing stands, from where an id that is free in a table too can be
    /// sought. The search goes on where it ended at the last call: objects stay.
    pub fn starts(&mut self) -> Starts
        ensures starts { AreStartsOf self.old result }
        ensures unchanged { self.new ≡ self.old }
    {
        self.starts = Starts {
            node: self.start(Kind::Node),
            way: self.start(Kind::Way),
            relation: self.start(Kind::Relation),
        };
        self.starts
    }

    fn start(&self, kind: Kind) -> u64
        ensures { IsStartOf self.now kind result }
    {
        let mut id = self.starts.at(kind);
        while id < LAST_ID && self.has(kind, id) {
            id += 1;
        }
        id
    }

    fn has(&self, kind: Kind, id: u64) -> bool
        requires { id ≤ last_id }
        ensures { result ≡ is_some (fin.get self.now (key_at kind id)) }
    {
        let key = Key {
            kind,
            id: id as i64,
        };
        self.get(key).is_some()
    }

    /// Sets what stands of a key. Costs the references of what stood and of what comes.
    ///
    /// # Errors
    /// No memory was left, and nothing has changed.
    pub fn put(&mut self, key: Key, entry: WorldEntry) -> Result<(), AllocError>
        ensures ok { OnOk result (self.new ≡ fin.insert self.old key entry) }
        ensures err { OnErr result (self.new ≡ self.old) }
    {
        self.entries.reserve(1)?;
        add_object(&mut self.index, key, Some(&entry))?;
        take_object(&mut self.index, key, self.entries.get(&key));
        set(&mut self.entries, key, entry);
        Ok(())
    }
}

/// Sets what stands of a key, where there is room.
fn set(entries: &mut HashMap<Key, WorldEntry>, key: Key, entry: WorldEntry)
    requires { 0 < spare entries.old }
    ensures { Updates eq entries.old entries.new key (Some entry) }
{
    match entries.insert(key, entry) {
        Ok(_) => {}
        Err(_) => unreachable!(),
    }
}

fn keys(alloc: Global, entries: &HashMap<Key, WorldEntry>) -> Result<Vec<Key>, AllocError>
    ensures listed { IfOk result (λ keys. keys.items ≡ keys_of entries.now.entries) }
    ensures unique { IfOk result (λ _. IsDistinct eq (keys_of entries.now.entries)) }
{
    entries.keys().copied().collect(alloc)
}
