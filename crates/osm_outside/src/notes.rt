//! What a shelf notes of its reads. It stands in proofs alone: it has no bytes, and nothing is done at run time.
ghost use Rattle.std.specs.Prelude.{◌≡◌, [], ◌∷◌, ◌++◌, List};
ghost use Rattle.std.specs.Borrow.{ftrue};
ghost use Rattle.osm_outside.specs.Outside.{Note};

use crate::Sink;
use std::marker::Model;

/// The notes, in the order of the reads.
#[derive(Drop)]
pub(crate) struct Notes {
    pub ghost list: { List Note },
}

impl Model for Notes {
    ghost also_owns = { λ _. ftrue };
}

impl Notes {
    /// No note.
    pub(crate) fn new() -> Notes
        ensures { result.list ≡ [] }
    {
        Notes {}
    }

    /// One note more: the file of that name is begun, and this is what the sink has taken.
    pub(crate) fn with<K: Sink>(&self, _name: &[u8], _out: &K) -> Notes
        ensures { result.list ≡ self.now.list ++ (_name.now, K.taken _out.now) ∷ [] }
    {
        Notes {}
    }
}
