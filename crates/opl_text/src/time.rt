//! Times as fields have them.

ghost use Rattle.std.specs.Prelude.{◌≡◌, ◌++◌, ◌≤◌, ◌↔◌, ℕ, List, Option, OnOk, OnErr, Some, true, IfOk, IfSome, length};
ghost use Rattle.std.specs.List.{list_all};
ghost use Rattle.osm_base.specs.Told.{Finds};
ghost use Rattle.osm_base.specs.declared.meta.Stamp.{Stamp};
ghost use Rattle.opl_text.specs.Ends.{ends_nothing};
ghost use Rattle.opl_text.specs.Time.{time_text, stamp_text, parts_of, has_marks, is_time, is_date, time_written, last_digit, IsShort, GivesTime, IsTime};

use jiff::civil::Date;
use osm_base::{Stamp, read_digits};
use std::alloc::AllocError;
use thiserror::Error;

/// Why no time was read.
#[derive(Error, Debug, Drop)]
pub enum TimeFault {
    /// The bytes are no time text.
    #[error("the bytes are no time")]
    BadTime,
    /// No memory was left. Reading a time takes none, so `read_time` never answers this.
    #[error("out of memory")]
    Memory,
}

/// The time that the bytes of a field spell (OPL, after ISO 8601), none where the field is empty.
///
/// A time is `YYYY-MM-DDThh:mm:ssZ` with exactly these digits: a date that the calendar has, of the
/// years 1 to 9999, hours to 23, minutes and seconds to 59. It takes no memory.
///
/// # Errors
/// `BadTime` exactly where the bytes are no such time.
#[tactic(auto, unfolding(crate::specs::Time::time_text))]
pub fn read_time(field: &[u8]) -> Result<Option<Stamp>, TimeFault>
    ensures value { GivesTime result (time_text field.now) }
    ensures named { IfOk result IsTime }
{
    if field.is_empty() {
        return Ok(None);
    }
    match read_stamp(field) {
        Some(stamp) => Ok(Some(stamp)),
        None => Err(TimeFault::BadTime),
    }
}

#[tactic(auto, unfolding(crate::specs::Time::stamp_text, crate::specs::Time::has_marks))]
fn read_stamp(text: &[u8]) -> Option<Stamp>
    ensures value { result ≡ stamp_text text.now }
    ensures named { IfSome result (λ stamp. is_time stamp ≡ true) }
{
    if !has_marks(text) {
        return None;
    }
    let stamp = read_parts(text)?;
    if is_time(&stamp) { Some(stamp) } else { None }
}

#[tactic(auto, unfolding(crate::specs::Time::has_marks))]
fn has_marks(text: &[u8]) -> bool
    ensures { result ≡ has_marks text.now }
{
    text.len() == 20
        && text[4] == b'-'
        && text[7] == b'-'
        && text[10] == b'T'
        && text[13] == b':'
        && text[16] == b':'
        && text[19] == b'Z'
}

#[tactic(auto, unfolding(crate::specs::Time::parts_of))]
fn read_parts(text: &[u8]) -> Option<Stamp>
    requires { length text.now ≡ 20 }
    ensures value { result ≡ parts_of text.now }
    ensures within { IfSome result IsShort }
{
    let year = read_digits(&text[0..4], 4)?;
    let month = read_digits(&text[5..7], 2)?;
    let day = read_digits(&text[8..10], 2)?;
    let hour = read_digits(&text[11..13], 2)?;
    let minute = read_digits(&text[14..16], 2)?;
    let second = read_digits(&text[17..19], 2)?;
    Some(Stamp {
        year: year as u16,
        month: month as u8,
        day: day as u8,
        hour: hour as u8,
        minute: minute as u8,
        second: second as u8,
    })
}

fn is_time(stamp: &Stamp) -> bool
    requires { IsShort stamp.now }
    ensures { result ≡ is_time stamp.now }
{
    is_date(stamp.year, stamp.month, stamp.day)
        && stamp.hour <= 23
        && stamp.minute <= 59
        && stamp.second <= 59
}

#[tactic(auto, unfolding(crate::specs::Time::is_date))]
fn is_date(year: u16, month: u8, day: u8) -> bool
    requires year { year ≤ 9999 }
    requires month { month ≤ 99 }
    requires day { day ≤ 99 }
    ensures { result ≡ is_date year month day }
{
    1 <= year && Date::new(year as i16, month as i8, day as i8).is_ok()
}

/// Appends the written form of a time: `YYYY-MM-DDThh:mm:ssZ`, or nothing where there is none.
///
/// Of a number that is too large for its digits the last ones are written, so the form spells the
/// time just where a time text can name it.
///
/// # Errors
/// No memory was left; nothing is appended then.
#[tactic(auto, unfolding(crate::specs::Time::time_written), using(crate::proofs::TimeLaw::time_again, crate::proofs::TimeLaw::time_plain))]
pub fn write_time(time: Option<Stamp>, out: &mut Vec<u8>) -> Result<(), AllocError>
    ensures written { OnOk result (out.new.items ≡ out.old.items ++ time_written time) }
    ensures kept { OnErr result (out.new.items ≡ out.old.items) }
    // What is written spells the time, where a time text can name it.
    ensures law { IsTime time → time_text (time_written time) ≡ Some time }
    // No byte of it ends a field or an item.
    ensures plain { list_all ends_nothing (time_written time) ≡ true }
{
    if let Some(stamp) = time {
        write_stamp(stamp, out)?;
    }
    Ok(())
}

#[tactic(auto, unfolding(crate::specs::Time::time_written))]
fn write_stamp(stamp: Stamp, out: &mut Vec<u8>) -> Result<(), AllocError>
    ensures written { OnOk result (out.new.items ≡ out.old.items ++ time_written (Some stamp)) }
    ensures kept { OnErr result (out.new.items ≡ out.old.items) }
{
    out.extend_from_slice(&[
        last_digit(stamp.year / 1000),
        last_digit(stamp.year / 100),
        last_digit(stamp.year / 10),
        last_digit(stamp.year),
        b'-',
        last_digit(u16::from(stamp.month) / 10),
        last_digit(u16::from(stamp.month)),
        b'-',
        last_digit(u16::from(stamp.day) / 10),
        last_digit(u16::from(stamp.day)),
        b'T',
        last_digit(u16::from(stamp.hour) / 10),
        last_digit(u16::from(stamp.hour)),
        b':',
        last_digit(u16::from(stamp.minute) / 10),
        last_digit(u16::from(stamp.minute)),
        b':',
        last_digit(u16::from(stamp.second) / 10),
        last_digit(u16::from(stamp.second)),
        b'Z',
    ])?;
    Ok(())
}

/// The last decimal digit of a number.
fn last_digit(number: u16) -> u8
    ensures { result ≡ last_digit number }
{
    b'0' + (number % 10) as u8
}

/// The reading of times is their written form: a text is read as the time of which it is the written form, and as none where it is
/// that of none.
///
/// It does nothing; its contract is the law.
pub fn time_is_told()
    ensures { (text : List ℕ) (answer : Option (Option Stamp)) → (time_text text ≡ answer) ↔ Finds (λ time. IsTime time × (text ≡ time_written time)) answer }
{}
