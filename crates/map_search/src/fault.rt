//! Why no query is read.
ghost use Rattle.std.specs.Prelude.{◌≡◌};
ghost use Rattle.map_search.specs.Answers.{fault_of_field};

use opl_line::LineAnswer;
use std::alloc::{AllocError, AllocFailed};
use thiserror::Error;

/// Why a line gives no query.
#[derive(Error, Debug, Drop)]
pub enum QueryFault {
    /// Its words aren't a query.
    #[error("not a query")]
    BadQuery,

    /// No memory was left.
    #[error("out of memory")]
    Memory,
}

impl From<AllocError> for QueryFault {
    ghost use Rattle.map_search.specs.declared.fault.QueryFault.TheVariants.{Memory};

    ghost from_gives = { λ _ e. e ≡ Memory };

    fn from(_: AllocError) -> QueryFault {
        QueryFault::Memory
    }
}

impl<T: Drop> From<AllocFailed<T>> for QueryFault {
    ghost use Rattle.map_search.specs.declared.fault.QueryFault.TheVariants.{Memory};

    ghost from_gives = { λ _ e. e ≡ Memory };

    fn from(_: AllocFailed<T>) -> QueryFault {
        QueryFault::Memory
    }
}

impl From<LineAnswer> for QueryFault {
    ghost from_gives = { λ answer e. e ≡ fault_of_field answer };

    fn from(answer: LineAnswer) -> QueryFault {
        match answer {
            LineAnswer::Bad(_) => QueryFault::BadQuery,
            LineAnswer::Memory => QueryFault::Memory,
        }
    }
}
