//! What the objects of a file are called in the table.
ghost use Rattle.std.specs.Prelude.{◌≡◌, ◌≤◌, ◌^◌, IfOk};
ghost use Rattle.tool_api.specs.Import.{new_keys};
ghost use Rattle.import_tool.specs.Known.{Names, called, has};

use indexmap::IndexMap;
use osm_base::{Key, Keys};
use renamed_content::Renaming;
use std::alloc::{AllocError, Global};
use tool_api::{NewObject, new_key};

/// The new key of each key of a file.
#[derive(Drop)]
pub struct NewKeys {
    keys: IndexMap<Key, Key>,
}

impl NewKeys {
    /// The new keys of the objects, which are numbered from `next` on.
    ///
    /// # Errors
    /// No memory was left.
    pub fn new(alloc: Global, objects: &[NewObject], next: u64) -> Result<NewKeys, AllocError>
        requires low { 1 ≤ next }
        requires high { next ≤ 10 ^ 18 }
        ensures { IfOk result (λ names. Names next objects.now names.keys.entries) }
    {
        let mut keys = IndexMap::new(alloc);
        keys.reserve(objects.len())?;
        for i in (0..objects.len()).rev() {
            let object = &objects[i];
            let new = new_key(object.content.kind(), next + i as u64);
            keys.insert(object.key, new)?;
        }
        Ok(NewKeys { keys })
    }

    /// Whether the key is one of the file's new objects. One look-up.
    pub fn has(&self, key: Key) -> bool
        ensures { result ≡ has self.now.keys.entries key }
    {
        self.keys.get(&key).is_some()
    }
}

impl Renaming for NewKeys {
    ghost key_named = { λ names. called names.keys.entries };

    fn key(&self, key: Key) -> Key {
        match self.keys.get(&key) {
            None => key,
            Some(new) => *new,
        }
    }
}

/// The new keys of the objects in order, numbered from `next` on.
///
/// # Errors
/// No memory was left.
pub fn new_keys(alloc: Global, objects: &[NewObject], next: u64) -> Result<Keys, AllocError>
    requires low { 1 ≤ next }
    requires high { next ≤ 10 ^ 18 }
    ensures { IfOk result (λ keys. keys ≡ new_keys next objects.now) }
{
    let mut keys = Keys::new(alloc);
    let mut number = next;
    for object in objects {
        keys.push(new_key(object.content.kind(), number))?;
        number += 1;
    }
    Ok(keys)
}
