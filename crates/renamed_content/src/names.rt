//! What keys are called.
ghost use Rattle.std.specs.Prelude.{◌≡◌};
ghost use Rattle.osm_base.specs.declared.key.Key.{Key};

use osm_base::Key;

/// What each key is called from now on.
pub trait Renaming {
    ghost key_named: { Self → Key → Key };

    /// What the key is called. Of a node the id alone counts where a way refers to it.
    fn key(&self, key: Key) -> Key
        ensures { result ≡ key_named self.now key };
}
