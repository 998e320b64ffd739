//! Files of map objects, read in pieces.
//!
//! A [`Reader`] is fed a file's bytes as they come, however they are cut, and gives the file's
//! objects in order or its one fault: what it gives is stated for the whole file
//! (`specs/Reading`), and `feed` says how each piece brings it nearer. It keeps the objects so
//! far and one unfinished line, and reads a line that lies whole in a piece in place. Where the
//! file isn't in rank order it keeps the objects' keys too. Files that aren't OPL's, as scripts, are
//! cut by `next_line`, and `Unread` says why one of their lines gives nothing. It stands on `opl_line` for one line,
//! and on `memchr` for the ends of lines.
//!
//! For who changes it: `Lines` has the state of the lines and all that reads them, `Reader` adds
//! the limit of the file and the want of memory. What `Lines` keeps true of itself is that its
//! unfinished line has no LF; so the next LF ends that line.
#![tactic(auto)]

mod collected;
mod fault;
mod known;
mod law;
mod line;
mod lines;
mod objects;
mod reader;
mod unread;

pub use fault::{FileAnswer, FileFault};
pub use law::{lines_are_told, same_for_any_pieces};
pub use line::next_line;
pub use objects::Objects;
pub use reader::Reader;
pub use unread::Unread;
