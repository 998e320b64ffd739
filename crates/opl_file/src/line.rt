//! One line of a file: where it ends, and what it adds.
ghost use Rattle.std.specs.Prelude.{◌≡◌, ◌+◌, ◌^◌, ◌<◌, ◌++◌, ◌∷◌, false, length, vec_len, OnErr, MatchOption};
ghost use Rattle.opl_file.specs.Cut.{has_lf, lines_of};
ghost use Rattle.opl_file.specs.Reading.{taken};
ghost use Rattle.opl_file.specs.Answers.{Gives};

use crate::collected::Collected;
use crate::{FileAnswer, FileFault};
use memchr::memchr;
use opl_line::{LineAnswer, LineKind, Mode, Pool, read_line};

/// How many bytes a line may have without its LF.
pub(crate) const LINE_LIMIT: usize = 16_777_216;

/// The bytes up to the first LF, and those that follow it, where there is one. The bytes are walked up to the LF.
pub(crate) fn first_line(bytes: &[u8]) -> (&[u8], Option<&[u8]>)
    ensures front { has_lf result.0.now ≡ false }
    ensures parts { MatchOption result.1 (result.0.now ≡ bytes.now) (λ rest. bytes.now ≡ result.0.now ++ 10 ∷ rest.now) }
{
    match memchr(b'\n', bytes) {
        None => (bytes, None),
        Some(end) => {
            let (front, _) = bytes.split_at(end);
            let (_, rest) = bytes.split_at(end + 1);
            (front, Some(rest))
        }
    }
}

/// The first line, and the bytes behind its LF. The bytes are walked up to the LF.
pub fn next_line(bytes: &[u8]) -> (&[u8], &[u8])
    requires { 0 < length bytes.now }
    ensures lines { lines_of bytes.now ≡ result.0.now ∷ lines_of result.1.now }
    ensures shorter { length result.1.now < length bytes.now }
{
    let (line, after) = first_line(bytes);
    match after {
        None => (line, &[]),
        Some(rest) => (line, rest),
    }
}

/// Takes a whole line in.
#[tactic(auto, unfolding(crate::specs::Reading::taken))]
pub(crate) fn take_line(
    mode: Mode,
    number: u64,
    pool: &mut Pool,
    objects: &mut Collected,
    line: &[u8],
) -> Result<(), FileAnswer>
    ensures taken { Gives (λ _. objects.new) result (taken mode number objects.old line.now) }
    ensures err { OnErr result (objects.new ≡ objects.old) }
{
    if LINE_LIMIT < line.len() {
        return Err(FileAnswer::Bad(FileFault::LineTooLong { line: number }));
    }
    match read_line(pool, line, mode) {
        Err(LineAnswer::Memory) => Err(FileAnswer::Memory),
        Err(LineAnswer::Bad(fault)) => Err(FileAnswer::Bad(FileFault::Line {
            line: number,
            fault,
        })),
        Ok(LineKind::Skipped) => Ok(()),
        Ok(LineKind::Object(object)) => {
            if objects.add(object)? {
                Ok(())
            } else {
                Err(FileAnswer::Bad(FileFault::Twice { line: number }))
            }
        }
    }
}

/// Takes in a line whose front was kept. Without one it is read in place.
#[tactic(auto, unfolding(crate::specs::Reading::taken))]
pub(crate) fn take_split_line(
    mode: Mode,
    number: u64,
    pool: &mut Pool,
    objects: &mut Collected,
    kept: &mut Vec<u8>,
    back: &[u8],
) -> Result<(), FileAnswer>
    requires { vec_len kept.old + length back.now < 2 ^ 64 }
    ensures taken { Gives (λ _. objects.new) result (taken mode number objects.old (kept.old.items ++ back.now)) }
    ensures err { OnErr result (objects.new ≡ objects.old) }
{
    if kept.is_empty() {
        return take_line(mode, number, pool, objects, back);
    }
    if LINE_LIMIT < kept.len() + back.len() {
        return Err(FileAnswer::Bad(FileFault::LineTooLong { line: number }));
    }
    kept.extend_from_slice(back)?;
    take_line(mode, number, pool, objects, kept.as_slice())
}
