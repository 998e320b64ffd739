//! The objects so far, of which no two have one key.
ghost use Rattle.std.specs.Prelude.{◌≡◌, ◌∷◌, ◌++◌, [], not, if◌then◌else◌, IfOk, OnErr};

use crate::Objects;
use crate::known::Known;
use opl_line::OplObject;
use std::alloc::{AllocError, Global};
use std::marker::Model;

/// Objects of distinct keys.
#[derive(Drop)]
pub(crate) struct Collected {
    alloc: Global,
    objects: Objects,
    known: Known,
}

impl Model for Collected {
    ghost use Rattle.std.specs.Prelude.{List};
    ghost use Rattle.opl_line.specs.declared.object.OplObject.{OplObject};
    ghost use Rattle.opl_file.specs.Objects.{keys_of};
    ghost use Rattle.opl_file.specs.Known.{Knows};

    ghost Value = { List OplObject };

    ghost view = { λ collected. collected.objects };

    ghost invariant = { λ collected. Knows collected.known (keys_of collected.objects) };
}

impl Collected {
    ghost use Rattle.opl_file.specs.Objects.{has_key};

    pub(crate) fn new(alloc: Global) -> Collected
        ensures { result ≡ [] }
    {
        Collected {
            alloc,
            objects: Objects::new(alloc),
            known: Known::Rising,
        }
    }

    /// Adds an object at the end, where none of its key is there, and tells whether it did.
    ///
    /// In a file in rank order it costs one comparison and no look-up. The first object that
    /// doesn't come after the last one costs a look-up by hash for each object so far, and from
    /// then on each costs one.
    pub(crate) fn add(&mut self, object: OplObject) -> Result<bool, AllocError>
        ensures added { IfOk result (λ added. added ≡ not (has_key self.old object.key)) }
        ensures ok { IfOk result (λ added. self.new ≡ (if added then self.old ++ object ∷ [] else self.old)) }
        ensures err { OnErr result (self.new ≡ self.old) }
    {
        let key = object.key;
        if !self.known.note(self.alloc, &self.objects, key)? {
            return Ok(false);
        }
        if self.objects.push(object).is_err() {
            self.known.forget(key);
            return Err(AllocError);
        }
        Ok(true)
    }

    pub(crate) fn objects(&self) -> &Objects
        ensures { result.now ≡ self.now }
    {
        &self.objects
    }

    pub(crate) fn into_objects(self) -> Objects
        ensures { result ≡ self }
    {
        self.objects
    }
}
