//! A server that takes changes one at a time.
ghost use Rattle.std.specs.Prelude.{◌≡◌, ◌+◌, pos, true, [], map, not, is_some, IfOk, OnOk, OnErr};
ghost use Rattle.std.specs.FinMap as fin;
ghost use Rattle.std.specs.List.{find};
ghost use Rattle.std.specs.Option.{option_copied, option_map};
ghost use Rattle.osm_base.specs.Content.{node};
ghost use Rattle.upload_order.specs.declared.change.Change.TheVariants.{Create, Modify, Delete};
ghost use Rattle.upload_order.specs.Rename.{called, is_positive};
ghost use Rattle.upload_order.specs.World.{stands, content_at, reaches, bad_ref, on_content, user_of, refusal, after};
ghost use Rattle.upload_order.specs.declared.world.WorldRefusal.TheVariants.{Used};
ghost use Rattle.server_world.specs.Answer.{Answers};
ghost use Rattle.server_world.specs.Starts.{AreStartsOf};

use crate::entry::WorldEntry;
use crate::names::{Names, put_named, with_id};
use crate::objects::Objects;
use crate::refusal::WorldFault;
use crate::starts::Starts;
use osm_base::{Content, Key, Keys, Member, fits, node_key};
use renamed_content::{Renaming, renamed};
use std::alloc::{AllocError, Global};
use std::marker::Model;
use upload_order::{Change, WorldRefusal};

/// What a server has: objects, each with a version and a content or none, and the ids that were picked for placeholders.
#[derive(Drop)]
pub struct World {
    alloc: Global,
    objects: Objects,
    names: Names,
}

impl Model for World {
    ghost use Rattle.upload_order.specs.World.{World};
    ghost use Rattle.server_world.specs.Codes.{world_code};

    ghost Value = { World };

    ghost coded = { world_code };

    ghost view = { λ w. record { entries = w.objects; names = w.names } };
}

impl World {
    /// A world without objects and names. It takes no memory.
    pub fn new(alloc: Global) -> World
        ensures { result ≡ record { entries = fin.empty; names = [] } }
    {
        World::of_objects(alloc, Objects::new(alloc))
    }

    /// A world of these objects, without names.
    pub(crate) fn of_objects(alloc: Global, objects: Objects) -> World
        ensures { result ≡ record { entries = objects; names = [] } }
    {
        World {
            alloc,
            objects,
            names: Names::new(alloc),
        }
    }

    /// What stands of a key. One look-up.
    pub fn get(&self, key: Key) -> Option<&WorldEntry>
        ensures { option_copied result ≡ stands self.now key }
    {
        self.objects.get(key)
    }

    /// The key that a key of a change means: the name of a placeholder, if it has one, and else itself. One look-up.
    pub fn called(&self, key: Key) -> Key
        ensures { result ≡ called self.now.names key }
    {
        self.names.key(key)
    }

    /// How many objects there are, the deleted ones too.
    pub(crate) fn len(&self) -> usize
        ensures { result ≡ fin.len self.now.entries }
    {
        self.objects.len()
    }

    /// The keys of all objects by rank, the deleted ones too: those of the entries, in their order. What stands of each
    /// is lent by `get`. It sorts the keys once, so n objects cost n log n steps.
    ///
    /// # Errors
    /// No memory was left.
    pub fn keys(&self) -> Result<Keys, AllocError>
        ensures { IfOk result (λ keys. keys ≡ fin.keys self.now.entries) }
    {
        self.objects.keys()
    }

    /// Starts of the search for free ids, whatever the table is. Costs three look-ups, and one for each id that stands in
    /// the world, once for all calls.
    pub(crate) fn starts(&mut self) -> Starts
        ensures starts { AreStartsOf self.old.entries result }
        ensures unchanged { self.new ≡ self.old }
    {
        self.objects.starts()
    }

    /// Sets what stands of a key, as if it had always been there. Costs the references of what stood and of what comes.
    ///
    /// # Errors
    /// No memory was left, and nothing has changed.
    pub fn put(&mut self, key: Key, entry: WorldEntry) -> Result<(), AllocError>
        requires { is_positive key.id ≡ true }
        ensures ok { OnOk result (self.new ≡ record { entries = fin.insert self.old.entries key entry; names = self.old.names }) }
        ensures err { OnErr result (self.new ≡ self.old) }
    {
        self.objects.put(key, entry)
    }

    /// Takes a change, or refuses it. `picked` is the id of a created object, and is read at no other change.
    ///
    /// A change costs what it refers to, a look-up each, and what its object referred to before. A deletion that is
    /// refused costs no walk: the least user is at hand.
    ///
    /// # Errors
    /// The refusal, exactly where there is one; or no memory was left. Nothing has changed then.
    pub fn accept(&mut self, change: &Change, picked: i64) -> Result<(), WorldFault>
        ensures answer { Answers result (refusal self.old change.now picked) }
        ensures ok { OnOk result (self.new ≡ after self.old change.now picked) }
        ensures err { OnErr result (self.new ≡ self.old) }
    {
        if let Some(refusal) = self.refusal(change, picked) {
            return Err(WorldFault::Refused(refusal));
        }
        self.take(change, picked)?;
        Ok(())
    }

    fn refusal(&self, change: &Change, picked: i64) -> Option<WorldRefusal>
        ensures { result ≡ refusal self.now change.now picked }
    {
        match change {
            Change::Create { key, content } => self.create_refusal(*key, content, picked),
            Change::Modify {
                key,
                version,
                content,
            } => self.modify_refusal(*key, *version, content),
            Change::Delete { key, version } => self.delete_refusal(*key, *version),
        }
    }

    fn create_refusal(&self, key: Key, content: &Content, picked: i64) -> Option<WorldRefusal>
        ensures { result ≡ refusal self.now (Create key content.now) picked }
    {
        if self.get(with_id(key, picked)).is_some() {
            return Some(WorldRefusal::Exists);
        }
        self.content_refusal(content)
    }

    fn modify_refusal(&self, key: Key, version: u32, content: &Content) -> Option<WorldRefusal>
        ensures { result ≡ refusal self.now (Modify key version content.now) (pos 0) }
    {
        let Some(entry) = self.get(self.names.key(key)) else {
            return Some(WorldRefusal::Missing);
        };
        if entry.version() != u64::from(version) {
            return Some(WorldRefusal::OldVersion {
                has: entry.version(),
            });
        }
        self.content_refusal(content)
    }

    fn delete_refusal(&self, key: Key, version: u32) -> Option<WorldRefusal>
        ensures { result ≡ refusal self.now (Delete key version) (pos 0) }
    {
        let key = self.names.key(key);
        let Some(entry) = self.get(key) else {
            return Some(WorldRefusal::Missing);
        };
        if entry.content().is_none() {
            return Some(WorldRefusal::Missing);
        }
        if entry.version() != u64::from(version) {
            return Some(WorldRefusal::OldVersion {
                has: entry.version(),
            });
        }
        self.user_refusal(key)
    }

    fn user_refusal(&self, key: Key) -> Option<WorldRefusal>
        ensures { result ≡ option_map Used (user_of self.now key) }
    {
        self.objects.first_user(key).map(WorldRefusal::Used)
    }

    fn content_refusal(&self, content: &Content) -> Option<WorldRefusal>
        ensures { result ≡ on_content self.now content.now }
    {
        if !fits(content) {
            return Some(WorldRefusal::Unfit);
        }
        self.bad_ref(content).map(WorldRefusal::BadRef)
    }

    /// The first reference that has no name, or under whose name no content stands.
    fn bad_ref(&self, content: &Content) -> Option<Key>
        ensures { result ≡ bad_ref self.now content.now }
    {
        match content {
            Content::Node { .. } => None,
            Content::Way { refs, .. } => self.bad_node(refs.as_slice()),
            Content::Relation { members, .. } => self.bad_member(members.as_slice()),
        }
    }

    fn bad_node(&self, ids: &[i64]) -> Option<Key>
        ensures { result ≡ find (λ r. not (reaches self.now r)) (map node ids.now) }
    {
        for id in ids {
            let key = node_key(*id);
            if !self.reaches(key) {
                return Some(key);
            }
        }
        None
    }

    fn bad_member(&self, members: &[Member]) -> Option<Key>
        ensures { result ≡ find (λ r. not (reaches self.now r)) (map (λ m. m.key) members.now) }
    {
        for member in members {
            if !self.reaches(member.key) {
                return Some(member.key);
            }
        }
        None
    }

    fn reaches(&self, key: Key) -> bool
        ensures { result ≡ reaches self.now key }
    {
        match self.names.meant(key) {
            None => false,
            Some(key) => self.has_content(key),
        }
    }

    /// Whether an object stands under the key, and isn't deleted. One look-up.
    pub(crate) fn has_content(&self, key: Key) -> bool
        ensures { result ≡ is_some (content_at self.now key) }
    {
        match self.get(key) {
            None => false,
            Some(entry) => entry.content().is_some(),
        }
    }

    /// Does what an accepted change says.
    fn take(&mut self, change: &Change, picked: i64) -> Result<(), AllocError>
        ensures ok { OnOk result (self.new ≡ after self.old change.now picked) }
        ensures err { OnErr result (self.new ≡ self.old) }
    {
        match change {
            Change::Create { key, content } => {
                let content = renamed(self.alloc, content, &self.names)?;
                let entry = WorldEntry::new(1, Some(content));
                put_named(&mut self.objects, &mut self.names, *key, picked, entry)
            }
            Change::Modify {
                key,
                version,
                content,
            } => {
                let content = renamed(self.alloc, content, &self.names)?;
                let entry = WorldEntry::new(version_after(*version), Some(content));
                self.objects.put(self.names.key(*key), entry)
            }
            Change::Delete { key, version } => {
                let entry = WorldEntry::new(version_after(*version), None);
                self.objects.put(self.names.key(*key), entry)
            }
        }
    }
}

/// The version after one that a change names.
fn version_after(version: u32) -> u64
    ensures { result ≡ version + 1 }
{
    u64::from(version) + 1
}
