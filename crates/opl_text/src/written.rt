//! The written form of a text, character for character.

ghost use Rattle.std.specs.Prelude.{◌≡◌, ◌++◌, ◌∷◌, [], OnOk, OnErr};
ghost use Rattle.std.specs.Str.{encode_utf8_all};
ghost use Rattle.osm_base.specs.Extends.{Extends};
ghost use Rattle.opl_text.specs.Text.{escaped};
ghost use Rattle.opl_text.specs.Written.{is_escaped, stays, hex_digit, hex_written, spelling};

use std::alloc::AllocError;

/// Appends the written form of each character.
pub fn write_characters(text: &str, out: &mut Vec<u8>) -> Result<(), AllocError>
    ensures written { OnOk result (out.new.items ≡ out.old.items ++ escaped text.now) }
    ensures kept { OnErr result (Extends out.old.items out.new.items) }
{
    for c in text.chars() {
        write_character(c, out)?;
    }
    Ok(())
}

fn write_character(c: char, out: &mut Vec<u8>) -> Result<(), AllocError>
    ensures written { OnOk result (out.new.items ≡ out.old.items ++ encode_utf8_all (spelling c)) }
    ensures kept { OnErr result (out.new.items ≡ out.old.items) }
{
    if is_escaped(c as u32) {
        write_escape(c as u32, out)?;
    } else {
        out.extend_from_slice(c.encode_utf8(&mut [0; 4]).as_bytes())?;
    }
    Ok(())
}

/// Appends an escape with two hexadecimal digits, or for larger codes four, five or six.
#[tactic(auto, unfolding(crate::specs::Written::hex_written))]
fn write_escape(code: u32, out: &mut Vec<u8>) -> Result<(), AllocError>
    ensures written { OnOk result (out.new.items ≡ out.old.items ++ 37 ∷ (hex_written code ++ 37 ∷ [])) }
    ensures kept { OnErr result (out.new.items ≡ out.old.items) }
{
    if code < 0x100 {
        out.extend_from_slice(&[b'%', hex_digit(code / 0x10), hex_digit(code), b'%'])?;
    } else if code < 0x10000 {
        out.extend_from_slice(&[
            b'%',
            hex_digit(code / 0x1000),
            hex_digit(code / 0x100),
            hex_digit(code / 0x10),
            hex_digit(code),
            b'%',
        ])?;
    } else if code < 0x100000 {
        out.extend_from_slice(&[
            b'%',
            hex_digit(code / 0x10000),
            hex_digit(code / 0x1000),
            hex_digit(code / 0x100),
            hex_digit(code / 0x10),
            hex_digit(code),
            b'%',
        ])?;
    } else {
        out.extend_from_slice(&[
            b'%',
            hex_digit(code / 0x100000),
            hex_digit(code / 0x10000),
            hex_digit(code / 0x1000),
            hex_digit(code / 0x100),
            hex_digit(code / 0x10),
            hex_digit(code),
            b'%',
        ])?;
    }
    Ok(())
}

/// The last hexadecimal digit of a number, in lower case.
fn hex_digit(number: u32) -> u8
    ensures { result ≡ hex_digit number }
{
    let digit = (number % 16) as u8;
    if digit < 10 {
        b'0' + digit
    } else {
        b'a' + (digit - 10)
    }
}

/// Whether the character with this code is written as an escape.
fn is_escaped(code: u32) -> bool
    ensures { result ≡ is_escaped code }
{
    code <= 0x20
        || (0x7f <= code && code <= 0xa0)
        || code == 0xad
        || code == 0x25
        || code == 0x2c
        || code == 0x3d
        || code == 0x40
        || 0x600 <= code
}

/// Whether the byte is a character that is written as it is.
pub fn stays(byte: u8) -> bool
    ensures { result ≡ stays byte }
{
    byte < 0x80 && !is_escaped(u32::from(byte))
}
