//! Why a line is no object.

ghost use Rattle.std.specs.Prelude.{◌≡◌};
ghost use Rattle.opl_line.specs.declared.fault.LineAnswer.TheVariants.{Memory};
ghost use Rattle.opl_line.specs.Fault.{number_of};

use std::alloc::{AllocError, AllocFailed};

/// What is wrong with a line: its first fault from the left.
#[derive(Clone, Copy)]
pub enum LineFault {
    /// The line doesn't begin with `n`, `w` or `r`.
    BadStart,
    /// What stands behind the first letter isn't an id.
    BadId,
    /// A field's letter stands twice.
    FieldTwice,
    /// No field begins with this letter, or `d` is neither `V` nor `D`.
    UnknownField,
    /// A version, changeset or user id isn't a number in range.
    BadNumber,
    /// A user name, key, value or role isn't a text.
    BadText,
    /// A time isn't a date and time of the years 1 to 9999 in UTC.
    BadTime,
    /// A coordinate isn't in degrees with at most 7 places, or is out of range.
    BadCoordinate,
    /// A visible node lacks a coordinate.
    NoLocation,
    /// An object that a server has lacks its version.
    NoVersion,
    /// Tags aren't pairs of a key and a value, or a key is empty or stands twice.
    BadTags,
    /// The nodes of a way are no list of references.
    BadRefs,
    /// The members of a relation are no list of members.
    BadMembers,
    /// The field belongs to objects of another kind.
    WrongField,
    /// A negative id in a file of objects that a server has.
    NegativeId,
}

impl LineFault {
    /// The number by which the fault is told to a user: 1 for `BadStart` to 15 for `NegativeId`.
    pub fn number(self) -> u8
        ensures { result ≡ number_of self }
    {
        match self {
            LineFault::BadStart => 1,
            LineFault::BadId => 2,
            LineFault::FieldTwice => 3,
            LineFault::UnknownField => 4,
            LineFault::BadNumber => 5,
            LineFault::BadText => 6,
            LineFault::BadTime => 7,
            LineFault::BadCoordinate => 8,
            LineFault::NoLocation => 9,
            LineFault::NoVersion => 10,
            LineFault::BadTags => 11,
            LineFault::BadRefs => 12,
            LineFault::BadMembers => 13,
            LineFault::WrongField => 14,
            LineFault::NegativeId => 15,
        }
    }
}

/// Why no object was read.
#[derive(Drop)]
pub enum LineAnswer {
    /// The line has this fault.
    Bad(LineFault),
    /// Memory ran out.
    Memory,
}

impl From<AllocError> for LineAnswer {
    ghost from_gives = { λ _ e. e ≡ Memory };

    fn from(_e: AllocError) -> LineAnswer {
        LineAnswer::Memory
    }
}

impl<T: Drop> From<AllocFailed<T>> for LineAnswer {
    ghost from_gives = { λ _ e. e ≡ Memory };

    fn from(_e: AllocFailed<T>) -> LineAnswer {
        LineAnswer::Memory
    }
}
