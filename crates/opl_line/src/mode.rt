//! What a file is read for.

ghost use Rattle.std.specs.Prelude.{◌≡◌};
ghost use Rattle.opl_line.specs.Field.{is_allowed};

/// What a line is read for.
#[derive(Clone, Copy)]
pub enum Mode {
    /// Objects that a server has: no id is negative.
    Download,
    /// Objects that a file brings: negative ids name those that no server knows yet.
    Import,
}

/// Whether an id may stand in a file of the mode.
pub fn is_allowed(mode: Mode, id: i64) -> bool
    ensures { result ≡ is_allowed mode id }
{
    match mode {
        Mode::Import => true,
        Mode::Download => id >= 0,
    }
}
