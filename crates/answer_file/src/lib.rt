//! The text of a server's answers, and what it makes of a table.
//!
//! A server's answers to an upload come as a file: for each change in order one line, `create n-1 n50 v1`, `modify w5 v4` or
//! `delete r9 v2`. `confirm_file` reads them and gives the difference to the confirmed table, exactly as `specs/Answers` says, or
//! the number of the first line that is wrong. `specs/Lines` says which answer a line gives, and `specs/ByLine` what a file
//! answers, line by line. The text of a server's answers, as `specs/Text` writes it, is taken, and the upload goes on from the
//! table that they make: `specs/Resumed` says when a file is such a text and how an upload goes on, and the clauses `taken` and
//! `resumed` of `confirm_file` promise it. It stands on `edit_script` for lines and words, and on `placeholder` for what answers
//! make of a table.
#![tactic(auto)]

mod confirming;
mod laws;
mod line;
mod reading;

pub use confirming::confirm_file;
pub use laws::{answers_by_line, text_is_confirmed};
