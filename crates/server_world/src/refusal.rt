//! Why a change isn't taken.
use std::alloc::AllocError;
use upload_order::WorldRefusal;

/// Why a change wasn't taken.
#[derive(Drop)]
pub enum WorldFault {
    /// The world refuses it.
    Refused(WorldRefusal),
    /// No memory was left.
    Memory,
}

impl From<AllocError> for WorldFault {
    ghost use Rattle.std.specs.Prelude.{◌≡◌};
    ghost use Rattle.server_world.specs.declared.refusal.WorldFault.TheVariants.{Memory};

    ghost from_gives = { λ _ e. e ≡ Memory };

    fn from(_: AllocError) -> WorldFault {
        WorldFault::Memory
    }
}
