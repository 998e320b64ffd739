//! What a world has of one object.
ghost use Rattle.std.specs.Prelude.{◌≡◌};
ghost use Rattle.std.specs.Option.{option_copied};

use osm_base::Content;
use std::marker::Model;

/// The version of an object, and its content, if it isn't deleted. A change names a version of 32 bits, so the one after it has room.
#[derive(Drop)]
pub struct WorldEntry {
    version: u64,
    content: Option<Content>,
}

impl Model for WorldEntry {
    ghost use Rattle.upload_order.specs.World.{WorldEntry};
    ghost use Rattle.server_world.specs.Codes.{entry_code};

    ghost Value = { WorldEntry };

    ghost coded = { entry_code };

    ghost view = { λ e. record { version = e.version; content = e.content } };
}

impl WorldEntry {
    /// An object in this version.
    pub fn new(version: u64, content: Option<Content>) -> WorldEntry
        ensures { result ≡ record { version = version; content = content } }
    {
        WorldEntry { version, content }
    }

    /// The version.
    pub fn version(&self) -> u64
        ensures { result ≡ self.now.version }
    {
        self.version
    }

    /// The content: none where the object is deleted.
    pub fn content(&self) -> Option<&Content>
        ensures { option_copied result ≡ self.now.content }
    {
        self.content.as_ref()
    }
}
