//! Why no steps are read.
ghost use Rattle.std.specs.Prelude.{◌≡◌};

pub use opl_file::Unread;
use std::alloc::{AllocError, AllocFailed};

/// Why a script has no steps.
#[derive(Drop)]
pub enum ScriptFault {
    /// The first line outside the grammar, numbered from 1.
    BadLine(u64),

    /// No memory was left.
    Memory,
}

impl From<AllocError> for ScriptFault {
    ghost use Rattle.edit_script.specs.declared.fault.ScriptFault.TheVariants.{Memory};

    ghost from_gives = { λ _ e. e ≡ Memory };

    fn from(_: AllocError) -> ScriptFault {
        ScriptFault::Memory
    }
}

impl<T: Drop> From<AllocFailed<T>> for ScriptFault {
    ghost use Rattle.edit_script.specs.declared.fault.ScriptFault.TheVariants.{Memory};

    ghost from_gives = { λ _ e. e ≡ Memory };

    fn from(_: AllocFailed<T>) -> ScriptFault {
        ScriptFault::Memory
    }
}
