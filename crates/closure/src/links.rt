//! What keys lead to.
ghost use Rattle.std.specs.Prelude.{◌≡◌, ◌++◌, List, OnOk};
ghost use Rattle.osm_base.specs.declared.key.Key.{Key};

use osm_base::Key;
use std::alloc::AllocError;

/// What each key leads to. A key that leads to fewer makes a walk cheaper: leave out here what the
/// walk isn't to reach.
pub trait Links {
    ghost next: { Self → Key → List Key };

    /// Appends the keys that a key leads to. A key may stand there more than once.
    ///
    /// # Errors
    /// No memory was left.
    fn append(&self, key: Key, out: &mut Vec<Key>) -> Result<(), AllocError>
        ensures { OnOk result (out.new.items ≡ out.old.items ++ next self.now key) };
}
