//! The answers of a file.
ghost use Rattle.std.specs.Prelude.{◌≡◌, [], IfOk};
ghost use Rattle.answer_file.specs.Answers.{answers_of};

use crate::line::answer_of;
use edit_script::{Unread, is_skipped, next_line};
use opl_line::freed;
use placeholder::Answer;
use std::alloc::{AllocError, Global};

/// What a file answers, up to the first line that gives no answer.
#[derive(Drop)]
pub(crate) struct FileAnswers {
    /// The answers, in order.
    pub(crate) answers: Vec<Answer>,
    /// The line of each, counted from 1.
    pub(crate) lines: Vec<u64>,
    /// The first line that gives no answer, where there is one.
    pub(crate) wrong: Option<u64>,
}

/// The answers of a file. The bytes are walked once.
///
/// # Errors
/// No memory was left.
pub(crate) fn read_answers(alloc: Global, bytes: &[u8]) -> Result<FileAnswers, AllocError>
    ensures answers { IfOk result (λ file. file.answers.items ≡ (answers_of bytes.now).answers) }
    ensures lines { IfOk result (λ file. file.lines.items ≡ (answers_of bytes.now).lines) }
    ensures wrong { IfOk result (λ file. file.wrong ≡ (answers_of bytes.now).wrong) }
{
    let mut answers = Vec::new(alloc);
    let mut lines = Vec::new(alloc);
    let wrong = read_onto(bytes, &mut answers, &mut lines)?;
    Ok(FileAnswers {
        answers,
        lines,
        wrong,
    })
}

/// Appends the answers of a file, and the line of each, and tells the first line that gives no answer.
fn read_onto(
    bytes: &[u8],
    answers: &mut Vec<Answer>,
    lines: &mut Vec<u64>,
) -> Result<Option<u64>, AllocError>
    requires answers { answers.old.items ≡ [] }
    requires lines { lines.old.items ≡ [] }
    ensures { IfOk result (λ wrong. answers_of bytes.now ≡ record { answers = answers.new.items; lines = lines.new.items; wrong = wrong }) }
{
    let mut count = 0u64;
    let mut rest = bytes;
    while !rest.is_empty() {
        let (text, after) = next_line(rest);
        count += 1;
        rest = after;
        let line = freed(text);
        if is_skipped(line) {
            continue;
        }
        match answer_of(line) {
            Ok(answer) => {
                answers.push(answer)?;
                lines.push(count)?;
            }
            Err(Unread::Memory) => return Err(AllocError),
            Err(Unread::Outside) => return Ok(Some(count)),
        }
    }
    Ok(None)
}
