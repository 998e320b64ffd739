// A folder, whose files are opened by name.
ghost use Rattle.std.specs.Prelude.{◌≡◌, ◌≢◌, ℕ, List, None, Some, IfOk, IfErr, IfSome};
ghost use Rattle.std.specs.IoError.{error_kind};
ghost use Rattle.std.specs.declared.option.Option.{Option};
ghost use Rattle.osm_outside.specs.Outside.{Shelved, held};
ghost use Rattle.osm_outside.specs.Folder.{Opens};

use crate::Files;
use std::fs;
use std::io::{self, Cursor, ErrorKind, Read};

/// Files that are opened by name and read through what std calls a reader.
pub trait Folder {
    /// An open file.
    type File: Read + Drop;

    /// The files, where the folder tells them.
    ghost files: { Self → Option Shelved };

    /// Whether opening may fail at that name, but for there being no such file.
    ghost may_fail: { Self → List ℕ → Type 0 };

    /// Opens the file of that name at its first byte.
    ///
    /// # Errors
    ///
    /// Of the kind `NotFound` only where there is no file of that name, and of another kind only
    /// at a name at which opening may fail.
    fn open(&self, name: &str) -> io::Result<Self::File>
        ensures opened { IfOk result (λ file. IfSome (files self.now) (λ list. Opens (held list name.now) (Self.File.remaining file))) }
        ensures missing { IfErr result (λ e. error_kind e ≡ ErrorKind.NotFound → IfSome (files self.now) (λ list. held list name.now ≡ None)) }
        ensures failed { IfErr result (λ e. error_kind e ≢ ErrorKind.NotFound → may_fail self.now name.now) };
}

// The working folder. It tells no files, so that this opens the file of that name is what a
// reader has to believe. Opening may fail at each name.
impl Folder for HostRuntime {
    type File = fs::File;

    ghost files = { λ folder. None };

    ghost may_fail = { λ folder name. Unit {0} };

    fn open(&self, name: &str) -> io::Result<fs::File> {
        fs::open(self, name)
    }
}

// Files in memory as a folder, which tells them. Opening copies the file, so it may fail at each
// name that there is, for want of memory.
impl Folder for Files {
    type File = Cursor<Vec<u8>>;

    ghost files = { λ files. Some files };

    ghost may_fail = { λ files name. held files name ≢ None };

    fn open(&self, name: &str) -> io::Result<Cursor<Vec<u8>>> {
        match self.find(name.as_bytes()) {
            None => Err(io::Error::from(ErrorKind::NotFound)),
            Some(i) => {
                let bytes = self.whole(i)?;
                Ok(Cursor::new(bytes))
            }
        }
    }
}
