//! The lines of a file, taken in as their bytes come.
ghost use Rattle.std.specs.Prelude.{◌≡◌, ◌≤◌, false, vec_len};
ghost use Rattle.opl_file.specs.Cut.{has_lf};

use crate::collected::Collected;
use crate::line::{LINE_LIMIT, first_line, take_line, take_split_line};
use crate::{FileAnswer, FileFault, Objects};
use opl_line::{Mode, Pool};
use std::alloc::{AllocError, Global};

/// What was read of a file's lines, up to the first bad one.
#[derive(Drop)]
pub(crate) struct Lines {
    mode: Mode,
    // how many lines were finished
    count: u64,
    // the bytes of the line that no LF has ended yet
    unfinished: Vec<u8>,
    objects: Collected,
    fault: Option<FileFault>,
    pool: Pool,
    ghost unbroken: { has_lf unfinished.items ≡ false },
    ghost bounded: { vec_len unfinished ≤ 16777216 },
}

impl Lines {
    ghost use Rattle.std.specs.Prelude.{◌+◌, ◌^◌, ◌<◌, ◌≤◌, ◌++◌, ◌∷◌, [], List, ℕ, None, vec_len, length, OnOk, IfOk};
    ghost use Rattle.opl_file.specs.Cut.{cut, lines_of};
    ghost use Rattle.opl_file.specs.Reading.{objects_from, before_fault};
    ghost use Rattle.opl_file.specs.Answers.{Gives};
    ghost use Rattle.opl_file.specs.Feeding.{lines_read_on, lines_lend_on};

    #[tactic(auto, unfolding(crate::specs::Feeding::lines_read_on, crate::specs::Feeding::lines_lend_on))]
    pub(crate) fn new(alloc: Global, mode: Mode) -> Lines
        ensures reads { (bytes : List ℕ) → lines_read_on result bytes ≡ objects_from mode 1 [] (lines_of bytes) }
        ensures lends { (bytes : List ℕ) → lines_lend_on result bytes ≡ before_fault mode 1 [] (cut bytes).ended }
        ensures room { result.count + vec_len result.unfinished ≡ 0 }
    {
        Lines {
            mode,
            count: 0,
            unfinished: Vec::new(alloc),
            objects: Collected::new(alloc),
            fault: None,
            pool: Pool::new(alloc),
        }
    }

    /// Takes the next bytes in. On Err nothing is said of what was read.
    pub(crate) fn take(&mut self, piece: &[u8]) -> Result<(), AllocError>
        requires { self.old.count + vec_len self.old.unfinished + length piece.now < 2 ^ 64 }
        ensures reads { OnOk result ((more : List ℕ) → lines_read_on self.new more ≡ lines_read_on self.old (piece.now ++ more)) }
        ensures lends { OnOk result ((more : List ℕ) → lines_lend_on self.new more ≡ lines_lend_on self.old (piece.now ++ more)) }
        ensures room { self.new.count + vec_len self.new.unfinished ≤ self.old.count + vec_len self.old.unfinished + length piece.now }
    {
        let mut rest = piece;
        while !rest.is_empty() {
            rest = self.take_front(rest)?;
        }
        Ok(())
    }

    // Takes in the bytes up to the first LF and gives what follows it.
    fn take_front<'p>(&mut self, bytes: &'p [u8]) -> Result<&'p [u8], AllocError>
        requires some { 0 < length bytes.now }
        requires room { self.old.count + vec_len self.old.unfinished + length bytes.now < 2 ^ 64 }
        ensures reads { IfOk result (λ rest. (more : List ℕ) → lines_read_on self.new (rest.now ++ more) ≡ lines_read_on self.old (bytes.now ++ more)) }
        ensures lends { IfOk result (λ rest. (more : List ℕ) → lines_lend_on self.new (rest.now ++ more) ≡ lines_lend_on self.old (bytes.now ++ more)) }
        ensures shorter { IfOk result (λ rest. length rest.now < length bytes.now) }
        ensures room { IfOk result (λ rest. self.new.count + vec_len self.new.unfinished + length rest.now ≤ self.old.count + vec_len self.old.unfinished + length bytes.now) }
        ensures bound { self.new.count + vec_len self.new.unfinished ≤ self.old.count + vec_len self.old.unfinished + length bytes.now }
    {
        if self.fault.is_some() {
            return Ok(&[]);
        }
        let (front, after) = first_line(bytes);
        match after {
            None => {
                self.keep(front)?;
                Ok(&[])
            }
            Some(rest) => {
                self.end_line(front)?;
                Ok(rest)
            }
        }
    }

    // Keeps bytes of the unfinished line. It is a fault as soon as the line has too many.
    fn keep(&mut self, front: &[u8]) -> Result<(), AllocError>
        requires unbroken { has_lf front.now ≡ false }
        requires good { self.old.fault ≡ None }
        requires room { self.old.count + vec_len self.old.unfinished + length front.now < 2 ^ 64 }
        ensures reads { OnOk result ((more : List ℕ) → lines_read_on self.new more ≡ lines_read_on self.old (front.now ++ more)) }
        ensures lends { OnOk result ((more : List ℕ) → lines_lend_on self.new more ≡ lines_lend_on self.old (front.now ++ more)) }
        ensures room { self.new.count + vec_len self.new.unfinished ≤ self.old.count + vec_len self.old.unfinished + length front.now }
    {
        if LINE_LIMIT < self.unfinished.len() + front.len() {
            self.fault = Some(FileFault::LineTooLong {
                line: self.count + 1,
            });
            return Ok(());
        }
        self.unfinished.extend_from_slice(front)?;
        Ok(())
    }

    // Takes in the line that ends with these bytes, an LF behind them.
    fn end_line(&mut self, front: &[u8]) -> Result<(), AllocError>
        requires unbroken { has_lf front.now ≡ false }
        requires good { self.old.fault ≡ None }
        requires room { self.old.count + vec_len self.old.unfinished + length front.now + 1 < 2 ^ 64 }
        ensures reads { OnOk result ((more : List ℕ) → lines_read_on self.new more ≡ lines_read_on self.old (front.now ++ 10 ∷ more)) }
        ensures lends { OnOk result ((more : List ℕ) → lines_lend_on self.new more ≡ lines_lend_on self.old (front.now ++ 10 ∷ more)) }
        ensures room { self.new.count + vec_len self.new.unfinished ≤ self.old.count + 1 }
    {
        let number = self.count + 1;
        let answer = take_split_line(
            self.mode,
            number,
            &mut self.pool,
            &mut self.objects,
            &mut self.unfinished,
            front,
        );
        self.count = number;
        self.unfinished.clear();
        match answer {
            Ok(()) => Ok(()),
            Err(answer) => {
                let FileAnswer::Bad(fault) = answer else {
                    return Err(AllocError);
                };
                self.fault = Some(fault);
                Ok(())
            }
        }
    }

    /// The objects of the lines that an LF has ended, before the first bad one.
    pub(crate) fn so_far(&self) -> &Objects
        ensures { result.now ≡ lines_lend_on self.now [] }
    {
        self.objects.objects()
    }

    /// The objects of all lines, the unfinished one among them.
    pub(crate) fn finish(self) -> Result<Objects, FileAnswer>
        requires { self.count + vec_len self.unfinished < 2 ^ 64 }
        ensures { Gives (λ objects. objects) result (lines_read_on self []) }
    {
        let Lines {
            mode,
            count,
            unfinished,
            mut objects,
            fault,
            mut pool,
        } = self;
        if let Some(fault) = fault {
            return Err(FileAnswer::Bad(fault));
        }
        if unfinished.is_empty() {
            return Ok(objects.into_objects());
        }
        match take_line(mode, count + 1, &mut pool, &mut objects, &unfinished) {
            Ok(()) => Ok(objects.into_objects()),
            Err(answer) => Err(answer),
        }
    }
}
