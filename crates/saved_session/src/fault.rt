//! Why no session was read.

ghost use Rattle.std.specs.Prelude.{◌≡◌};

use osm_base::Key;
use std::alloc::{AllocError, AllocFailed};
use thiserror::Error;

/// Why a text gives no table. The first that holds is given.
#[derive(Error, Debug, Drop)]
pub enum SavedFault {
    /// The first line, counted from 1, that can't stand in its place, or the number after the last where the text ends too early.
    #[error("line {line} is no line of a saved session")]
    BadSaved { line: u64 },

    /// The least key whose entry breaks a condition of a sound table.
    #[error("an object of the saved session doesn't fit the others")]
    Unsound { key: Key },

    /// There are more entries than the limit.
    #[error("the saved session has too many objects")]
    TableFull,

    /// No memory was left.
    #[error("out of memory")]
    Memory,
}

impl From<AllocError> for SavedFault {
    ghost use Rattle.saved_session.specs.declared.fault.SavedFault.TheVariants.{Memory};

    ghost from_gives = { λ _ e. e ≡ Memory };

    fn from(_: AllocError) -> SavedFault {
        SavedFault::Memory
    }
}

impl<T: Drop> From<AllocFailed<T>> for SavedFault {
    ghost use Rattle.saved_session.specs.declared.fault.SavedFault.TheVariants.{Memory};

    ghost from_gives = { λ _ e. e ≡ Memory };

    fn from(_: AllocFailed<T>) -> SavedFault {
        SavedFault::Memory
    }
}
