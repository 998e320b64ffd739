//! A file, read in pieces.
ghost use Rattle.std.specs.Prelude.{◌+◌, ◌^◌, ◌<◌, vec_len};

use crate::lines::Lines;
use crate::{FileAnswer, FileFault, Objects};
use opl_line::Mode;
use std::alloc::{AllocError, Global};

/// Reads a file's objects from its bytes as they come.
#[derive(Drop)]
pub struct Reader {
    lines: Lines,
    // how many bytes may still come
    room: u64,
    too_long: bool,
    failed: bool,
    ghost counted: { lines.count + vec_len lines.unfinished + room < 2 ^ 64 },
}

impl Reader {
    ghost use Rattle.std.specs.Prelude.{◌≡◌, ◌++◌, [], List, ℕ, Ok, Err, true, false, is_err, OnOk, IsErr, IfSome, MatchResult};
    ghost use Rattle.opl_file.specs.Reading.{objects_of, finished_of};
    ghost use Rattle.opl_file.specs.Answers.{Refuses};
    ghost use Rattle.opl_file.specs.Feeding.{reads_on, lends_on, has_failed};

    /// A reader for a file of at most `limit` bytes.
    #[tactic(auto, unfolding(crate::specs::Feeding::reads_on, crate::specs::Feeding::lends_on, crate::specs::Feeding::has_failed, crate::specs::Reading::objects_of, crate::specs::Reading::finished_of))]
    pub fn new(alloc: Global, mode: Mode, limit: u64) -> Reader
        ensures reads { (bytes : List ℕ) → reads_on result bytes ≡ objects_of mode limit bytes }
        ensures lends { (bytes : List ℕ) → lends_on result bytes ≡ finished_of mode limit bytes }
        ensures failed { has_failed result ≡ false }
    {
        Reader {
            lines: Lines::new(alloc, mode),
            room: limit,
            too_long: false,
            failed: false,
        }
    }

    /// Takes the next bytes of the file. How a file is cut into pieces plays no part. It costs
    /// what the bytes cost; after the first bad line they are only counted.
    ///
    /// # Errors
    ///
    /// Want of memory, and from then on each call answers that.
    #[tactic(auto, unfolding(crate::specs::Feeding::has_failed))]
    pub fn feed(&mut self, piece: &[u8]) -> Result<(), AllocError>
        ensures reads { OnOk result ((more : List ℕ) → reads_on self.new more ≡ reads_on self.old (piece.now ++ more)) }
        ensures lends { OnOk result ((more : List ℕ) → lends_on self.new more ≡ lends_on self.old (piece.now ++ more)) }
        ensures failed { has_failed self.new ≡ is_err result }
        ensures stays { has_failed self.old ≡ true → IsErr result }
    {
        if self.failed {
            return Err(AllocError);
        }
        let answer = self.take(piece);
        self.failed = answer.is_err();
        answer
    }

    // Counts the bytes, and takes them in while the file isn't too long.
    fn take(&mut self, piece: &[u8]) -> Result<(), AllocError>
        ensures reads { OnOk result ((more : List ℕ) → reads_on self.new more ≡ reads_on self.old (piece.now ++ more)) }
        ensures lends { OnOk result ((more : List ℕ) → lends_on self.new more ≡ lends_on self.old (piece.now ++ more)) }
    {
        if self.too_long {
            return Ok(());
        }
        let length = piece.len() as u64;
        if self.room < length {
            self.too_long = true;
            return Ok(());
        }
        self.room -= length;
        self.lines.take(piece)?;
        Ok(())
    }

    /// The objects of the lines that stand before the first bad one and whose LF was fed. It
    /// takes no memory. Of a file that is too long, and after want of memory, it tells nothing.
    #[tactic(auto, unfolding(crate::specs::Feeding::lends_on))]
    pub fn so_far(&self) -> &Objects
        ensures { IfSome (lends_on self.now []) (λ objects. result.now ≡ objects) }
    {
        self.lines.so_far()
    }

    /// The objects of the whole file in order.
    ///
    /// # Errors
    ///
    /// [`FileFault::FileTooLong`] where more than `limit` bytes were fed, else the fault of the
    /// first bad line; or want of memory.
    #[tactic(auto, unfolding(crate::specs::Feeding::reads_on, crate::specs::Feeding::has_failed))]
    pub fn finish(self) -> Result<Objects, FileAnswer>
        ensures read { MatchResult result (λ objects. reads_on self [] ≡ Ok objects) (Refuses (reads_on self [])) }
        ensures failed { has_failed self ≡ true → result ≡ Err FileAnswer.Memory }
    {
        if self.failed {
            return Err(FileAnswer::Memory);
        }
        if self.too_long {
            return Err(FileAnswer::Bad(FileFault::FileTooLong));
        }
        self.lines.finish()
    }
}
