//! A key of tags as a list of them holds it.
ghost use Rattle.std.specs.Prelude.{◌≡◌};

use osm_base::Text;
use std::marker::Model;

/// A key of tags.
#[derive(Drop)]
pub struct TagKey {
    text: Text,
}

impl Model for TagKey {
    ghost use Rattle.std.specs.Prelude.{List, ℕ};

    ghost Value = { List ℕ };

    ghost view = { λ key. key.text };
}

impl TagKey {
    pub(crate) fn new(text: Text) -> TagKey
        ensures { result ≡ text }
    {
        TagKey { text }
    }

    /// The key as a text.
    pub fn text(&self) -> &Text
        ensures { result.now ≡ self.now }
    {
        &self.text
    }

    /// The bytes of the key.
    pub fn as_bytes(&self) -> &[u8]
        ensures { result.now ≡ self.now }
    {
        self.text.as_bytes()
    }
}
