//! What a line of a script is.
ghost use Rattle.std.specs.Prelude.{◌≡◌, ◌<◌, length, false, IfOk};
ghost use Rattle.std.specs.List.{list_all};
ghost use Rattle.opl_line.specs.Line.{is_blank};
ghost use Rattle.edit_script.specs.Answers.{Gives};
ghost use Rattle.edit_script.specs.Order.{IsMeantLine};
ghost use Rattle.edit_script.specs.Script.{has_outer_blank, is_skipped, kind_of_line, line_of};

use crate::fault::Unread;
use crate::forms::act_of;
use crate::step::Act;
pub use opl_file::next_line;
use opl_line::{freed, is_blank};
use opl_text::Pool;

/// A line of the grammar.
#[derive(Drop)]
pub enum ScriptLine {
    /// Nothing to do.
    Skipped,
    /// Something to do.
    Asks(Act),
}

/// What the line is, with or without a CR at its end.
pub fn line_of(pool: &mut Pool, line: &[u8]) -> Result<ScriptLine, Unread>
    ensures value { Gives result (line_of line.now) }
    ensures meant { IfOk result IsMeantLine }
{
    kind_of_line(pool, freed(line))
}

#[tactic(auto, unfolding(crate::specs::Script::kind_of_line))]
fn kind_of_line(pool: &mut Pool, line: &[u8]) -> Result<ScriptLine, Unread>
    ensures value { Gives result (kind_of_line line.now) }
    ensures meant { IfOk result IsMeantLine }
{
    if is_skipped(line) {
        return Ok(ScriptLine::Skipped);
    }
    if has_outer_blank(line) {
        return Err(Unread::Outside);
    }
    let act = act_of(pool, line)?;
    Ok(ScriptLine::Asks(act))
}

/// Whether it is nothing but blanks, or a comment.
pub fn is_skipped(line: &[u8]) -> bool
    ensures value { result ≡ is_skipped line.now }
    ensures some { result ≡ false → 0 < length line.now }
{
    all_blank(line) || line[0] == b'#'
}

fn all_blank(line: &[u8]) -> bool
    ensures { result ≡ list_all is_blank line.now }
{
    line.iter().all(|byte| is_blank(*byte))
}

/// Whether a blank stands before its first word or behind its last.
pub fn has_outer_blank(line: &[u8]) -> bool
    requires { 0 < length line.now }
    ensures { result ≡ has_outer_blank line.now }
{
    is_blank(line[0]) || is_blank(line[line.len() - 1])
}
