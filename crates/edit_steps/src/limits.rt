//! How much a session reads and holds.
ghost use Rattle.std.specs.Prelude.{◌≡◌};
ghost use Rattle.command_line.specs.Words.{value_of};
ghost use Rattle.edit_steps.specs.Limits.{limits_of};

use command_line::CommandLine;

/// How much a session reads and holds.
#[derive(Clone, Copy)]
pub struct Limits {
    /// Bytes of a script.
    pub script: usize,

    /// Bytes of a file.
    pub file: u64,

    /// Objects of the table.
    pub objects: u64,
}

impl Limits {
    /// The limits that a command line asks for. A script has 16 MiB at most, whatever it asks for.
    pub fn of(line: &CommandLine) -> Limits
        ensures { result ≡ limits_of (value_of line.now) }
    {
        Limits {
            script: 16_777_216,
            file: line.max_file,
            objects: line.max_objects,
        }
    }
}
