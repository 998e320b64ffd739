//! Lines of OPL, the text format that `osmium` reads and writes: an object of the map a line.
//!
//! `read_line` gives what a line is (skipped, an object, or its first fault from the left) and
//! `write_line` appends an object's one written form. Both are exact: the format is the relation
//! `Spells` of specs/Spelling, the order of the faults stands in specs/Field and specs/Line, and
//! the written form of an object spells it again. docs/OPL.md says the same for mappers.
//!
//! Each field has one definition and one function of the same name (`version_into`). A new field
//! wants a letter in `letter.rt`, a place in `Fields`, its function, its line in `by_byte` of
//! `specs/Told` (the law `field_is_told` makes that table all that has to be known of fields), and its
//! value in `Spelling`.
//! A line is read from the left, and no list of pieces is made. A function named for a `front` gives
//! a value and the bytes behind the separator that ends it, so value and end are found in one pass:
//! numbers in `front.rt`, coordinates in `degrees.rt`, times in `moments.rt`, references in
//! `lists.rt`. The last three take the usual form so. They leave any other to the reader of whole
//! pieces, which `cut` makes: a short cut, no grammar of its own.
#![tactic(auto)]

mod degrees;
mod fault;
mod fields;
mod front;
mod law;
mod letter;
mod line;
mod lists;
mod many_tags;
mod mode;
mod moments;
mod number;
mod object;
mod pieces;
mod writing;

pub use fault::{LineAnswer, LineFault};
pub use law::{field_is_told, read_as_spelled};
pub use line::{freed, read_line};
pub use lists::{read_members, read_refs, read_tags};
pub use mode::Mode;
pub use object::{LineKind, OplObject};
pub use opl_text::Pool;
pub use pieces::{cut, is_blank};
pub use writing::write_line;
