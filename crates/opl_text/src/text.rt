//! Texts as fields have them.

ghost use Rattle.std.specs.Prelude.{◌≡◌, ◌++◌, ◌↔◌, ℕ, List, OnOk, OnErr, Option, Some, true};
ghost use Rattle.std.specs.List.{list_all};
ghost use Rattle.opl_text.specs.Escape.{is_raw};
ghost use Rattle.opl_text.specs.Written.{stays};
ghost use Rattle.osm_base.specs.Extends.{Extends};
ghost use Rattle.osm_base.specs.Told.{Finds};
ghost use Rattle.opl_text.specs.Ends.{ends_nothing};
ghost use Rattle.opl_text.specs.Text.{unescaped, escaped, GivesText, SpellsText, HasNoZero};

use crate::escape::{is_raw, unescape};
use crate::pool::Pool;
use crate::written::{stays, write_characters};
use osm_base::{Text, TextFault};
use std::alloc::{AllocError, Global};

/// The text that the bytes of a field spell (OPL, exact grammar this project's own).
///
/// The bytes are UTF-8. A character stands for itself, unless it is one up to U+0020, `%`, `,` or
/// `=`; `%`, 1 to 6 hexadecimal digits of either case and `%` stand for the character with that
/// code, other than U+0000. One pass over the bytes finds the text in the pool, if it came before.
///
/// # Errors
/// `BadText` exactly where the bytes spell no text, `Memory` where no memory was left.
pub fn read_escaped(pool: &mut Pool, field: &[u8]) -> Result<Text, TextFault>
    ensures { GivesText result (unescaped field.now) }
{
    if let Some(text) = pool.find(field)? {
        return Ok(text);
    }
    let text = text_of(pool.allocator(), field)?;
    pool.keep(field, &text)?;
    Ok(text)
}

// The text that the bytes spell, made anew. A field that is its own text is copied at once; the characters of
// another are read into a string of the field's length, from which the text is made.
fn text_of(alloc: Global, field: &[u8]) -> Result<Text, TextFault>
    ensures { GivesText result (unescaped field.now) }
{
    if all_raw(field) {
        return Text::from_bytes(alloc, field);
    }
    let Ok(characters) = str::from_utf8(field) else {
        return Err(TextFault::BadText);
    };
    match unescape(alloc, characters)? {
        Some(text) => Text::from_bytes(alloc, text.as_bytes()),
        None => Err(TextFault::BadText),
    }
}

// Whether the field is its own text, if it is UTF-8: the bytes of a longer character are all raw.
fn all_raw(field: &[u8]) -> bool
    ensures { result ≡ list_all is_raw field.now }
{
    field.iter().all(|byte| is_raw(u32::from(*byte)))
}

/// Appends the written form of a text (which characters are escaped is this project's own choice).
///
/// Escapes stand for the characters up to U+0020, from U+007F to U+00A0, U+00AD, `%`, `,`, `=`, `@`,
/// and all from U+0600 on, with lower-case digits: two to U+00FF, else at least four and no more than
/// needed. A text of ASCII without any of these is appended as it is; of another each character is
/// appended in one pass.
///
/// # Errors
/// No memory was left; what stood in `out` stands at its front then.
#[tactic(auto, using(crate::proofs::WrittenLaw::text_again, crate::proofs::WrittenLaw::text_plain))]
pub fn write_escaped(text: &Text, out: &mut Vec<u8>) -> Result<(), AllocError>
    ensures written { OnOk result (out.new.items ≡ out.old.items ++ escaped text.now) }
    ensures kept { OnErr result (Extends out.old.items out.new.items) }
    // What is written spells the text, where it has no U+0000.
    ensures law { HasNoZero text.now → unescaped (escaped text.now) ≡ Some text.now }
    // No byte of it ends a field, an item, a key, a value or a member.
    ensures plain { list_all ends_nothing (escaped text.now) ≡ true }
{
    if all_stay(text.as_bytes()) {
        out.extend_from_slice(text.as_bytes())?;
    } else {
        write_characters(text.as_str(), out)?;
    }
    Ok(())
}

// Whether the text is its own written form.
fn all_stay(text: &[u8]) -> bool
    ensures { result ≡ list_all stays text.now }
{
    text.iter().all(|byte| stays(*byte))
}

/// The reading of texts is their grammar: what is read is what the field spells, and nothing is read where it spells none.
///
/// It does nothing; its contract is the law.
pub fn read_as_spelled()
    ensures { (field : List ℕ) (answer : Option (List ℕ)) → (unescaped field ≡ answer) ↔ Finds (SpellsText field) answer }
{}

/// No escape and no raw character is U+0000, so no text that is read has it.
///
/// It does nothing; its contract is the law.
pub fn read_has_no_zero()
    ensures { (field text : List ℕ) → unescaped field ≡ Some text → HasNoZero text }
{}
