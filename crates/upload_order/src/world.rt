//! Why a world doesn't take a change.
ghost use Rattle.std.specs.Prelude.{◌≡◌};
ghost use Rattle.upload_order.specs.World.{number_of};

use osm_base::Key;

/// Why a world refuses a change.
#[derive(Clone, Copy)]
pub enum WorldRefusal {
    /// The key that was picked stands already.
    Exists,
    /// The object doesn't stand, or it is to be deleted and has no content.
    Missing,
    /// The object has another version than the change names.
    OldVersion { has: u64 },
    /// The content refers to this key, which has no name or stands without a content.
    BadRef(Key),
    /// The object is to be deleted, and this is the least whose content refers to it, itself included.
    Used(Key),
    /// The content is outside the limits of API 0.6.
    Unfit,
}

impl WorldRefusal {
    /// The number in a reply.
    pub fn number(&self) -> u8
        ensures { result ≡ number_of self.now }
    {
        match self {
            WorldRefusal::Exists => 1,
            WorldRefusal::Missing => 2,
            WorldRefusal::OldVersion { .. } => 3,
            WorldRefusal::BadRef(_) => 4,
            WorldRefusal::Used(_) => 5,
            WorldRefusal::Unfit => 6,
        }
    }
}
