//! Why a file isn't taken.
ghost use Rattle.std.specs.Prelude.{◌≡◌};
ghost use Rattle.opl_file.specs.declared.fault.FileAnswer.TheVariants.{Memory};

use opl_line::LineFault;
use std::alloc::{AllocError, AllocFailed};

/// What is wrong with a file. Lines are numbered from 1.
#[derive(Clone, Copy)]
pub enum FileFault {
    /// The line is neither skipped nor an object.
    Line { line: u64, fault: LineFault },
    /// The line's key stands in an earlier line.
    Twice { line: u64 },
    /// The line has more than 16,777,216 bytes without its LF.
    LineTooLong { line: u64 },
    /// The file has more bytes than the reader's limit.
    FileTooLong,
}

/// Why no objects are given.
#[derive(Drop)]
pub enum FileAnswer {
    /// The file has this fault.
    Bad(FileFault),
    /// No memory was left.
    Memory,
}

impl From<AllocError> for FileAnswer {
    ghost from_gives = { λ _ e. e ≡ Memory };

    fn from(_error: AllocError) -> FileAnswer {
        FileAnswer::Memory
    }
}
