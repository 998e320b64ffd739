//! Placeholders, and the ids that were picked for them.
ghost use Rattle.std.specs.Prelude.{◌≡◌, ◌<◌, ◌++◌, ◌∷◌, [], Some, OnOk, OnErr};
ghost use Rattle.std.specs.Vec.{vec_len, vec_capacity};
ghost use Rattle.std.specs.FinMap as fin;
ghost use Rattle.std.specs.HashMap.{spare, Updates};
ghost use Rattle.osm_base.specs.KeyEq.{eq};
ghost use Rattle.upload_order.specs.Rename.{id_meant, meant, with_id, is_positive, named};

use crate::entry::WorldEntry;
use crate::objects::Objects;
use osm_base::Key;
use renamed_content::Renaming;
use std::alloc::{AllocError, Global};
use std::collections::HashMap;
use std::marker::Model;

/// Names in the order in which they were given, with the last id of each placeholder.
///
/// Clauses see the newest first.
#[derive(Drop)]
pub struct Names {
    given: Vec<(Key, i64)>,
    ids: HashMap<Key, i64>,
}

impl Model for Names {
    ghost use Rattle.std.specs.Prelude.{reverse};
    ghost use Rattle.upload_order.specs.Rename.{Names};
    ghost use Rattle.server_world.specs.Codes.{names_code};
    ghost use Rattle.server_world.specs.Named.{FindsNames};

    ghost Value = { Names };

    ghost coded = { names_code };

    ghost view = { λ n. reverse n.given.items };

    ghost invariant = { λ n. FindsNames n.given.items n.ids.entries };
}

impl Names {
    /// No names. It takes no memory.
    pub fn new(alloc: Global) -> Names
        ensures { result ≡ [] }
    {
        Names {
            given: Vec::new(alloc),
            ids: HashMap::new(alloc),
        }
    }

    /// The id that was last picked for a placeholder. One look-up.
    fn named(&self, key: Key) -> Option<i64>
        ensures { result ≡ named self.now key }
    {
        self.ids.get(&key).copied()
    }

    fn id_meant(&self, key: Key) -> Option<i64>
        ensures { result ≡ id_meant self.now key }
    {
        if is_positive(key.id) {
            return Some(key.id);
        }
        self.named(key)
    }

    /// What a key of a change means: itself, or the name of a placeholder, if it has one.
    pub fn meant(&self, key: Key) -> Option<Key>
        ensures { result ≡ meant self.now key }
    {
        match self.id_meant(key) {
            None => None,
            Some(id) => Some(with_id(key, id)),
        }
    }
}

impl Renaming for Names {
    ghost use Rattle.upload_order.specs.Rename.{called};

    ghost key_named = { called };

    /// What a key of a change means, or itself.
    fn key(&self, key: Key) -> Key {
        match self.id_meant(key) {
            None => key,
            Some(id) => with_id(key, id),
        }
    }
}

fn is_positive(id: i64) -> bool
    ensures { result ≡ is_positive id }
{
    0 < id
}

/// The key of the same kind with this id.
pub fn with_id(key: Key, id: i64) -> Key
    ensures { result ≡ with_id key id }
{
    Key { kind: key.kind, id }
}

/// Puts an object under the id that was picked for a placeholder, and names it.
///
/// # Errors
/// No memory was left, and nothing has changed.
pub fn put_named(
    objects: &mut Objects,
    names: &mut Names,
    key: Key,
    id: i64,
    entry: WorldEntry,
) -> Result<(), AllocError>
    ensures objects { OnOk result (objects.new ≡ fin.insert objects.old (with_id key id) entry) }
    ensures names { OnOk result (names.new ≡ (key, id) ∷ names.old) }
    ensures objects_err { OnErr result (objects.new ≡ objects.old) }
    ensures names_err { OnErr result (names.new ≡ names.old) }
{
    names.given.reserve(1)?;
    names.ids.reserve(1)?;
    objects.put(with_id(key, id), entry)?;
    push_name(&mut names.given, &mut names.ids, key, id);
    Ok(())
}

/// Adds a name, where there is room for one.
fn push_name(given: &mut Vec<(Key, i64)>, ids: &mut HashMap<Key, i64>, key: Key, id: i64)
    requires given { vec_len given.old < vec_capacity given.old }
    requires ids { 0 < spare ids.old }
    ensures given { given.new.items ≡ given.old.items ++ (key, id) ∷ [] }
    ensures ids { Updates eq ids.old ids.new key (Some id) }
{
    match ids.insert(key, id) {
        Ok(_) => {}
        Err(_) => unreachable!(),
    }
    match given.push((key, id)) {
        Ok(()) => {}
        Err(_) => unreachable!(),
    }
}
