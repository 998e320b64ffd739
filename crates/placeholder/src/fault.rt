//! Why answers are not taken.
use osm_base::Key;
use std::alloc::AllocError;
use upload_order::PlanRefusal;

/// Why answers are not taken.
#[derive(Drop)]
pub enum ConfirmFault {
    /// Nothing was sent, since the table is refused. It never says that no memory was left.
    Plan { refusal: PlanRefusal },
    /// The answer with this number, counted from 1, isn't one to its change, or there is no such change. Of a file it is the
    /// number of the line.
    WrongAnswer { number: u64 },
    /// Something stands in the table under the id that an object got.
    IdTaken { key: Key },
    /// No memory was left.
    Memory,
}

impl From<AllocError> for ConfirmFault {
    ghost use Rattle.std.specs.Prelude.{◌≡◌};
    ghost use Rattle.placeholder.specs.declared.fault.ConfirmFault.TheVariants.{Memory};

    ghost from_gives = { λ _ e. e ≡ Memory };

    fn from(_: AllocError) -> ConfirmFault {
        ConfirmFault::Memory
    }
}
