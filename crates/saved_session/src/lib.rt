//! Saved sessions: the whole table as text, and back.
//!
//! `write_saved` appends the text of a table, exactly as `specs/Saved` has it, and three calls append its pieces for who sends
//! it on the way. `read_saved` gives the difference from a table to the one of a text, or why there is none. What a text tells is
//! said by `specs/Told`: the one table whose saved session stands in its lines, or the first line with which none goes on. How
//! it is found stands in `specs/Resumed`, `specs/Reading` (which line may stand where) and `specs/SoundTest` (when a table is
//! sound), for the proof of the code. The lines before the first that begins with `session ` and all behind `session end` are
//! skipped, so a whole output of the editor may be read. It stands on `opl_line` for objects, on `opl_file` for lines and on
//! `dataset` for the difference.
#![tactic(auto)]

mod drafting;
mod fault;
mod heads;
mod keyed;
mod law;
mod lines;
mod place;
mod reading;
mod soundness;
mod steps;
mod words;
mod writing;

pub use fault::SavedFault;
pub use law::{
    entry_is_told, entry_text_is_told, lines_are_told, read_is_saved, saved_is_read,
    saved_table_is_told, test_is_exact, text_is_told,
};
pub use reading::read_saved;
pub use writing::{write_saved, write_saved_end, write_saved_entry, write_saved_head};
