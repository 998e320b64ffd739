// The shelf and the sink of a program: over a folder, and over a writer.
ghost use Rattle.std.specs.Prelude.{◌≡◌, ◌∷◌, ◌++◌, [], None, is_some, false, IsTrue, IsErr, IfOk, IfSome, not};
ghost use Rattle.std.specs.Str.{IsUtf8};
ghost use Rattle.std.specs.Io.KnownBytes.{Appends};
ghost use Rattle.osm_outside.specs.Folder.{rest_of};
ghost use Rattle.osm_outside.specs.Outside.{held, answered, Begins, HasCause, AppendsFront};

use crate::notes::Notes;
use crate::outside::counted_fault;
use crate::{Failed, Folder, Shelf, Sink};
use std::io::{ErrorKind, Read, Write};

/// The files of a folder, by name. Of a program it is the working folder, which the runtime opens.
///
/// A name that doesn't exist is no file. One that can't be opened for another reason, as a name
/// that isn't UTF-8, is a fault, and so is a folder at its first read. A call of the system that
/// was interrupted is a fault too. Where the folder tells its files, so does the shelf.
#[derive(Drop)]
pub struct HostShelf<F: Folder> {
    folder: F,
    file: Option<F::File>,
    faults: u64,
    notes: Notes,
}

impl<F: Folder> HostShelf<F> {
    /// The files that this folder opens.
    pub fn new(folder: F) -> HostShelf<F>
        ensures told { ⟦<HostShelf<F> as Shelf>⟧.told result ≡ F.files folder }
        ensures begun { ⟦<HostShelf<F> as Shelf>⟧.begun result ≡ false }
        ensures noted { ⟦<HostShelf<F> as Shelf>⟧.noted result ≡ [] }
        ensures faults { ⟦<HostShelf<F> as Shelf>⟧.faults result ≡ 0 }
    {
        HostShelf {
            folder,
            file: None,
            faults: 0,
            notes: Notes::new(),
        }
    }
}

impl<F: Folder> Shelf for HostShelf<F> {
    ghost told = { λ shelf. F.files shelf.folder };

    ghost rest = { λ shelf. rest_of F.File.remaining shelf.file };

    ghost begun = { λ shelf. is_some shelf.file };

    ghost noted = { λ shelf. shelf.notes.list };

    ghost faults = { λ shelf. shelf.faults };

    // A file that isn't there is no fault: a call fails only at a name that isn't UTF-8, or at
    // which the folder says that opening may fail.
    fn begin<K: Sink>(&mut self, name: &[u8], out: &K) -> Result<bool, Failed>
        ensures told { F.files self.new.folder ≡ F.files self.old.folder }
        ensures begun { is_some self.new.file ≡ answered result }
        ensures noted { self.new.notes.list ≡ self.old.notes.list ++ (name.now, K.taken out.now) ∷ [] }
        ensures found { IfOk result (λ found. IfSome (F.files self.old.folder) (λ files. Begins (held files name.now) found (rest_of F.File.remaining self.new.file))) }
        ensures cause { HasCause self.old.faults self.new.faults result }
        ensures failed { IsErr result → IsUtf8 name.now → F.may_fail self.old.folder name.now }
    {
        self.file = None;
        self.notes = self.notes.with(name, out);
        let Ok(name) = str::from_utf8(name) else {
            return Err(counted_fault(&mut self.faults));
        };
        match self.folder.open(name) {
            Ok(file) => {
                self.file = Some(file);
                Ok(true)
            }
            Err(error) if error.kind() == ErrorKind::NotFound => Ok(false),
            Err(_) => Err(counted_fault(&mut self.faults)),
        }
    }

    fn next(&mut self, into: &mut [u8]) -> Result<usize, Failed> {
        let Some(file) = &mut self.file else {
            unreachable!();
        };
        match file.read(into) {
            Ok(count) => Ok(count),
            Err(_) => Err(counted_fault(&mut self.faults)),
        }
    }
}

/// A sink over any writer, flushed after each piece.
///
/// A write that takes nothing of what is left of a piece is a fault, and so is one that was
/// interrupted. The bytes taken are those that the writer holds, where it tells them; standard
/// output tells none.
#[derive(Drop)]
pub struct HostSink<W> {
    inner: W,
    faults: u64,
}

impl<W: Write> HostSink<W> {
    /// A sink that writes to this writer.
    pub fn new(inner: W) -> HostSink<W>
        ensures taken { ⟦<HostSink<W> as Sink>⟧.taken result ≡ W.contents inner }
        ensures faults { ⟦<HostSink<W> as Sink>⟧.faults result ≡ 0 }
    {
        HostSink { inner, faults: 0 }
    }

    /// The writer, with all that the sink took.
    pub fn into_inner(self) -> W
        ensures { W.contents result ≡ ⟦<HostSink<W> as Sink>⟧.taken self }
    {
        self.inner
    }
}

impl<W: Write> Sink for HostSink<W> {
    ghost taken = { λ sink. W.contents sink.inner };

    ghost faults = { λ sink. sink.faults };

    fn put(&mut self, piece: &[u8]) -> Result<(), Failed> {
        if write_whole(&mut self.inner, piece) {
            return Ok(());
        }
        Err(counted_fault(&mut self.faults))
    }
}

// Writes all of the piece and flushes, and tells whether that went well.
fn write_whole<W: Write>(to: &mut W, piece: &[u8]) -> bool
    ensures ok { IsTrue result → Appends (W.contents to.old) (W.contents to.new) piece.now }
    ensures err { IsTrue (not result) → AppendsFront (W.contents to.old) (W.contents to.new) piece.now }
{
    let mut rest = piece;
    while !rest.is_empty() {
        match to.write(rest) {
            Ok(0) | Err(_) => return false,
            Ok(count) => rest = &rest[count..],
        }
    }
    to.flush().is_ok()
}

#[cfg(test)]
mod tests {
    use super::*;
    use crate::{Calls, Files, MemorySink};
    use std::io;
    use std::test::Fail;

    // What the next write of a fake writer does.
    #[derive(Clone, Copy, Debug, PartialEq, Eq)]
    enum Writing {
        OneByte,
        Nothing,
        Failure,
    }

    // Counts the bytes that it took, and the flushes.
    #[derive(Drop)]
    struct FakeWriter {
        first: Writing,
        later: Writing,
        count: u64,
        flushed: u64,
    }

    impl Write for FakeWriter {
        fn write(&mut self, bytes: &[u8]) -> io::Result<usize> {
            let now = self.first;
            self.first = self.later;
            match now {
                Writing::Nothing => Ok(0),
                Writing::Failure => Err(io::Error::from(ErrorKind::Interrupted)),
                Writing::OneByte => match bytes.first() {
                    None => Ok(0),
                    Some(_) => {
                        self.count = self.count.saturating_add(1);
                        Ok(1)
                    }
                },
            }
        }

        fn flush(&mut self) -> io::Result<()> {
            self.flushed = self.flushed.saturating_add(1);
            Ok(())
        }
    }

    #[test]
    fn sink_writes_until_a_write_takes_nothing(rt: HostRuntime) -> Result<(), Fail> {
        use Writing::{Failure, Nothing, OneByte};
        for (first, later, piece, want, count, flushed) in [
            (OneByte, OneByte, "abc", Ok(()), 3, 1),
            (OneByte, Nothing, "abc", Err(Failed), 1, 0),
            (OneByte, Failure, "abc", Err(Failed), 1, 0),
            (Failure, OneByte, "abc", Err(Failed), 0, 0),
            (Nothing, Nothing, "", Ok(()), 0, 1),
        ] {
            let writer = FakeWriter {
                first,
                later,
                count: 0,
                flushed: 0,
            };
            let mut sink = HostSink::new(writer);
            assert_eq!(rt;
                sink.put(piece.as_bytes()),
                want,
                "{first:?}, then {later:?}"
            );
            assert_eq!(rt; sink.inner.count, count, "{first:?}, then {later:?}");
            assert_eq!(rt; sink.inner.flushed, flushed, "{first:?}, then {later:?}");
            assert_eq!(rt;
                sink.faults,
                want.is_err() as u64,
                "{first:?}, then {later:?}"
            );
        }
        Ok(())
    }

    #[test]
    fn shelf_has_faults_and_missing_files(rt: HostRuntime) -> Result<(), Fail> {
        let mut shelf = HostShelf::new(rt.clone()?);
        let out = MemorySink::new(rt.alloc(), Calls::new(rt.alloc()));
        assert_eq!(rt; shelf.begin(b"no such file", &out), Ok(false));
        assert_eq!(rt; shelf.begin(b"", &out), Ok(false));
        assert_eq!(rt; shelf.faults, 0);
        assert_eq!(rt; shelf.begin(&[255], &out), Err(Failed), "not UTF-8");
        assert_eq!(rt; shelf.faults, 1);
        let mut buffer = [0u8; 4];
        let folder = shelf.begin(b".", &out);
        let read = if folder == Ok(true) {
            shelf.next(&mut buffer).is_ok()
        } else {
            folder.is_ok()
        };
        assert!(rt; !read, "a folder is no file");
        assert_eq!(rt; shelf.faults, 2);
        Ok(())
    }

    #[test]
    fn shelf_reads_files_of_a_folder_in_memory(rt: HostRuntime) -> Result<(), Fail> {
        let mut files = Files::new(rt.alloc());
        files.push(b"town.opl", b"abc")?;
        let mut shelf = HostShelf::new(files);
        let out = MemorySink::new(rt.alloc(), Calls::new(rt.alloc()));
        assert_eq!(rt; shelf.begin(b"city.opl", &out), Ok(false));
        let mut front = [0u8; 2];
        let mut back = [0u8; 2];
        let begun = shelf.begin(b"town.opl", &out);
        let reads = if begun == Ok(true) {
            [
                shelf.next(&mut front),
                shelf.next(&mut back),
                shelf.next(&mut [0u8; 2]),
            ]
        } else {
            [begun.map(|_| 0); 3]
        };
        assert_eq!(rt; reads, [Ok(2), Ok(1), Ok(0)]);
        assert_eq!(rt; (front, back[0]), (*b"ab", b'c'));
        assert_eq!(rt; shelf.faults, 0);
        Ok(())
    }

    #[test]
    fn sink_hands_its_writer_back(rt: HostRuntime) -> Result<(), Fail> {
        let mut sink = HostSink::new(Vec::new(rt.alloc()));
        assert_eq!(rt; sink.put(b"ab"), Ok(()));
        assert_eq!(rt; sink.put(b"cd"), Ok(()));
        assert_eq!(rt; sink.into_inner().as_slice(), b"abcd".as_slice());
        Ok(())
    }
}
