//! Texts and times of OPL, read and written exactly.
//!
//! OPL writes a text with escapes, as `a%20%b` for `a b`, and a time as `2024-02-29T01:02:03Z`.
//! `read_escaped` and `read_time` give what the bytes of a field spell, and a fault exactly where
//! they spell nothing. `write_escaped` and `write_time` append the one written form: it spells the
//! same again, and no byte of it ends a field, an item, a key, a value or a member. The crate stands
//! on `osm_base` for texts and stamps, and on `jiff` for the calendar. A `Pool` remembers what written forms
//! spelled, so that a text that comes again is shared and isn't read again; no contract shows it.
//!
//! Advice for who changes it. The grammar of texts is the relation `Spells` of specs/Escape, over
//! code points; the reader goes through the characters with one state, `Escape`, and its step
//! `next_after` is `next_of` there. Change the three together: the law `read_as_spelled` holds only
//! where they agree. Which characters are written as escapes is `is_escaped` of specs/Written. It
//! may grow freely, and has to keep each character that may not stand raw. Both calls on texts begin
//! with a test for the common case that the field is the text: a short cut, no grammar of its own.
#![tactic(auto)]

mod escape;
mod pool;
mod text;
mod time;
mod written;

pub use pool::Pool;
pub use text::{read_as_spelled, read_escaped, read_has_no_zero, write_escaped};
pub use time::{TimeFault, read_time, time_is_told, write_time};
