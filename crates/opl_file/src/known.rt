//! What tells whether a key is among those of a file so far.
//!
//! Nearly every file stands in rank order. There a key is new where it comes after the last one,
//! so beside the objects nothing is kept. The first key that doesn't rise has all keys hashed
//! once, and from then on each is looked up.
ghost use Rattle.std.specs.Prelude.{◌≡◌, ◌∷◌, ◌++◌, [], false, not, if◌then◌else◌, List, T, IfOk, OnOk, OnErr};
ghost use Rattle.std.specs.HashSet.{contains};
ghost use Rattle.std.specs.List.{fold};
ghost use Rattle.osm_base.specs.KeyEq.{eq};
ghost use Rattle.osm_base.specs.RisingKeys.{rises};
ghost use Rattle.osm_base.specs.declared.key.Key.{Key};
ghost use Rattle.opl_line.specs.declared.object.OplObject.{OplObject};
ghost use Rattle.opl_file.specs.Objects.{has_key, keys_of};
ghost use Rattle.opl_file.specs.Known.{Knows, finds, Finds};

use crate::Objects;
use opl_line::OplObject;
use osm_base::{Key, rank};
use std::alloc::{AllocError, Global};
use std::collections::HashSet;

/// How the keys so far are known.
#[derive(Drop)]
pub(crate) enum Known {
    /// They strictly rise by rank.
    Rising,
    /// They are those of the set.
    Hashed(HashSet<Key>),
}

impl Known {
    /// Notes a key behind those of the objects where none of them has it, and tells whether it did.
    ///
    /// It costs one comparison while the keys rise, and one look-up by hash later. The first key
    /// that doesn't rise costs one look-up for each object.
    ///
    /// # Errors
    ///
    /// Want of memory; the keys are then known as before.
    pub(crate) fn note(
        &mut self,
        alloc: Global,
        objects: &Objects,
        key: Key,
    ) -> Result<bool, AllocError>
        requires { Knows self.old (keys_of objects.now) }
        ensures new { IfOk result (λ new. new ≡ not (has_key objects.now key)) }
        ensures ok { IfOk result (λ new. Knows self.new (if new then keys_of objects.now ++ key ∷ [] else keys_of objects.now)) }
        ensures err { OnErr result (Knows self.new (keys_of objects.now)) }
    {
        match self {
            Known::Rising if comes_last(objects, key) => Ok(true),
            Known::Rising => {
                let mut keys = hashed(alloc, objects)?;
                let new = keys.insert(key)?;
                *self = Known::Hashed(keys);
                Ok(new)
            }
            Known::Hashed(keys) => Ok(keys.insert(key)?),
        }
    }

    /// Forgets a key that came last, and is that of none of the objects before it.
    pub(crate) fn forget(&mut self, key: Key)
        ensures { (objects : List OplObject) → has_key objects key ≡ false → Knows self.old (keys_of objects ++ key ∷ []) → Knows self.new (keys_of objects) }
    {
        match self {
            Known::Rising => {}
            Known::Hashed(keys) => {
                keys.remove(&key);
            }
        }
    }
}

// Whether the keys still rise with this one behind them.
fn comes_last(objects: &Objects, key: Key) -> bool
    requires { T (rises (keys_of objects.now)) }
    ensures { result ≡ rises (keys_of objects.now ++ key ∷ []) }
{
    match objects.last() {
        None => true,
        Some(last) => rank(last.key, key).is_lt(),
    }
}

// The keys of the objects, each hashed once.
fn hashed(alloc: Global, objects: &Objects) -> Result<HashSet<Key>, AllocError>
    ensures { IfOk result (λ set. Finds (contains eq set) (keys_of objects.now)) }
{
    let mut keys = HashSet::new(alloc);
    for batch in objects.batches() {
        hash_all(&mut keys, batch)?;
    }
    Ok(keys)
}

fn hash_all(keys: &mut HashSet<Key>, objects: &[OplObject]) -> Result<(), AllocError>
    ensures { OnOk result ((k : Key) → contains eq keys.new k ≡ fold (finds k) (contains eq keys.old k) (keys_of objects.now)) }
{
    for object in objects {
        keys.insert(object.key)?;
    }
    Ok(())
}
