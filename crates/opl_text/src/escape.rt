//! The characters that the characters of a text spell: raw ones, and escapes `%hex%`.

ghost use Rattle.std.specs.Prelude.{◌≡◌, List, ℕ, ◌<◌, ◌^◌, ◌≤◌, IfOk, IfSome, None, Some, string_bytes};
ghost use Rattle.std.specs.Option.{option_map};
ghost use Rattle.std.specs.Str.{chars, encode_utf8_all};
ghost use Rattle.opl_text.specs.Escape.{next_of, is_raw, characters_of, IsWithin};

use std::alloc::{AllocError, Global};

/// An escape so far: how many digits it has, and their value.
#[derive(Clone, Copy)]
struct Escape {
    digits: u32,
    code: u32,
}

/// What a character does.
#[derive(Clone, Copy)]
enum Next {
    /// It can't stand there.
    Bad,
    /// It begins an escape or is a digit of one.
    Inside(Escape),
    /// It is a raw character, or ends an escape that stands for one.
    Gives(char),
}

/// The text that the characters of a field spell, or `None` where they spell none.
pub fn unescape(alloc: Global, field: &str) -> Result<Option<String>, AllocError>
    ensures { IfOk result (λ text. option_map string_bytes text ≡ option_map encode_utf8_all (characters_of None (chars field.now))) }
{
    // An escape is longer than what it stands for, so the text never outgrows this room.
    let mut text = String::with_capacity(alloc, field.len())?;
    let mut escape = None;
    for c in field.chars() {
        match next_after(escape, c) {
            Next::Bad => return Ok(None),
            Next::Inside(so_far) => escape = Some(so_far),
            Next::Gives(given) => {
                text.push(given)?;
                escape = None;
            }
        }
    }
    Ok(if escape.is_none() { Some(text) } else { None })
}

fn next_after(escape: Option<Escape>, c: char) -> Next
    requires { IfSome escape (λ e. (e.digits ≤ 6) × (e.code < 16 ^ e.digits)) }
    ensures value { result ≡ next_of escape c }
    ensures within { IsWithin result }
{
    match escape {
        None => outside(c),
        Some(escape) => inside(escape, c),
    }
}

fn outside(c: char) -> Next
    ensures { result ≡ next_of None c }
{
    if c == '%' {
        Next::Inside(Escape { digits: 0, code: 0 })
    } else if is_raw(c as u32) {
        Next::Gives(c)
    } else {
        Next::Bad
    }
}

fn inside(escape: Escape, c: char) -> Next
    requires digits { escape.digits ≤ 6 }
    requires code { escape.code < 16 ^ escape.digits }
    ensures value { result ≡ next_of (Some escape) c }
    ensures within { IsWithin result }
{
    if c == '%' {
        match char::from_u32(escape.code) {
            Some(given) if escape.code > 0 => Next::Gives(given),
            _ => Next::Bad,
        }
    } else {
        match c.to_digit(16) {
            Some(digit) if escape.digits < 6 => Next::Inside(Escape {
                digits: escape.digits + 1,
                code: escape.code * 16 + digit,
            }),
            _ => Next::Bad,
        }
    }
}

/// Whether the character with this code, or such a byte, stands for itself.
pub fn is_raw(code: u32) -> bool
    ensures { result ≡ is_raw code }
{
    code > 0x20 && code != 0x25 && code != 0x2c && code != 0x3d
}
