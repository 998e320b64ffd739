//! Whole sessions to run, as text: what each reads, which of its calls fails, and what it has to give.
//!
//! A bundle is a text of cases ([`read_cases`]). A line that begins with `= ` directs, every other line is a line of what
//! was begun last:
//!
//! - `= case NAME` begins a case,
//! - `= word WORD` gives it a word; without any they are `editor` and `script`,
//! - `= file NAME` begins a file of its shelf,
//! - `= fill COUNT` puts so many `#` into the file,
//! - `= no-tools` hands in no tool, and `= poor` those for adding and tagging, and before them one for tagging that never
//!   finds memory,
//! - `= expect STATUS` begins what it has to give: the words of its status, and in the lines after it what it writes,
//! - `= shelf CALL STATUS` and `= sink CALL STATUS` begin what it has to give where that call of the shelf or the sink
//!   fails, counted from 1.
//!
//! In a line `\t`, `\r` and `\\` stand for a tab, a CR and a backslash, and a backslash at its end leaves out the LF.
//!
//! It promises that the shelf of a case has no file under a name that no file of the case has. It knows nothing of what is
//! run: who runs a case makes its shelf and sink ([`shelf_of`], [`sink_of`]) and has the outcome compared ([`tell`]).
#![tactic(auto)]

mod bundle;
mod case;
mod shelving;
mod telling;

pub use bundle::read_cases;
pub use case::{Case, CaseFile, Failing, Run, Tools};
pub use shelving::{shelf_of, sink_of};
pub use telling::{tell, words_of};
