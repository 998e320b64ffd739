//! Why a word or a line of a file that isn't OPL's gives nothing.
ghost use Rattle.std.specs.Prelude.{◌≡◌};
ghost use Rattle.opl_file.specs.Unread.{unread_line, unread_text};
ghost use Rattle.opl_file.specs.declared.unread.Unread.TheVariants.{Memory};

use opl_line::LineAnswer;
use osm_base::TextFault;
use std::alloc::AllocError;

/// Why a word or a line gives nothing.
#[derive(Clone, Copy)]
pub enum Unread {
    /// It is outside the grammar, or can't stand where it does.
    Outside,
    /// No memory was left.
    Memory,
}

impl From<AllocError> for Unread {
    ghost from_gives = { λ _ e. e ≡ Memory };

    fn from(_: AllocError) -> Unread {
        Unread::Memory
    }
}

impl From<LineAnswer> for Unread {
    ghost from_gives = { λ answer e. e ≡ unread_line answer };

    fn from(answer: LineAnswer) -> Unread {
        match answer {
            LineAnswer::Bad(_) => Unread::Outside,
            LineAnswer::Memory => Unread::Memory,
        }
    }
}

impl From<TextFault> for Unread {
    ghost from_gives = { λ fault e. e ≡ unread_text fault };

    fn from(fault: TextFault) -> Unread {
        match fault {
            TextFault::BadText => Unread::Outside,
            TextFault::Memory => Unread::Memory,
        }
    }
}
