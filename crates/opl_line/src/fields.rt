//! Fields of a line, taken in one by one.
//!
//! Each function is given the bytes from its field's text on, and answers with those behind the
//! blank after it, `None` where the line ends first. It refuses a field that came before, then a
//! value that isn't one, and then, where the field names other objects, a negative id in a download.

ghost use Rattle.std.specs.Prelude.{◌≡◌, IfOk};
ghost use Rattle.std.specs.Option.{option_map};
ghost use Rattle.opl_line.specs.Cut.{before, after};
ghost use Rattle.opl_line.specs.Line.{is_blank};
ghost use Rattle.opl_line.specs.Reads.{Gives};
ghost use Rattle.opl_line.specs.Field.{version_into, visible_into, changeset_into, uid_into, time_into, user_into, x_into, y_into, tags_into, refs_into, members_into, named_into, field_into};

use crate::degrees::place_front;
use crate::fault::{LineAnswer, LineFault};
use crate::front::number_front;
use crate::letter::{Letter, has_field, letter_of};
use crate::lists::{members_allowed, read_members, read_refs, read_tags, refs_allowed, text_at};
use crate::mode::Mode;
use crate::moments::time_front;
use crate::number::read_visible;
use crate::object::Fields;
use crate::pieces::{cut, is_blank};
use opl_text::Pool;
use osm_base::Kind;

#[tactic(auto, unfolding(crate::specs::Field::version_into))]
fn version_into<'t>(fields: &mut Fields, text: &'t [u8]) -> Result<Option<&'t [u8]>, LineAnswer>
    ensures taken { Gives (λ _. fields.new) result (version_into fields.old (before is_blank text.now)) }
    ensures rest { IfOk result (λ rest. option_map (λ r. r.now) rest ≡ after is_blank text.now) }
{
    if fields.version.is_some() {
        return Err(LineAnswer::Bad(LineFault::FieldTwice));
    }
    let Some((value, rest)) = number_front(text, 2_000_000_000) else {
        return Err(LineAnswer::Bad(LineFault::BadNumber));
    };
    fields.version = Some(value);
    Ok(rest)
}

#[tactic(auto, unfolding(crate::specs::Field::visible_into))]
fn visible_into<'t>(fields: &mut Fields, text: &'t [u8]) -> Result<Option<&'t [u8]>, LineAnswer>
    ensures taken { Gives (λ _. fields.new) result (visible_into fields.old (before is_blank text.now)) }
    ensures rest { IfOk result (λ rest. option_map (λ r. r.now) rest ≡ after is_blank text.now) }
{
    if fields.visible.is_some() {
        return Err(LineAnswer::Bad(LineFault::FieldTwice));
    }
    let (text, rest) = cut(text, b' ', b'\t');
    let Some(value) = read_visible(text) else {
        return Err(LineAnswer::Bad(LineFault::UnknownField));
    };
    fields.visible = Some(value);
    Ok(rest)
}

#[tactic(auto, unfolding(crate::specs::Field::changeset_into))]
fn changeset_into<'t>(fields: &mut Fields, text: &'t [u8]) -> Result<Option<&'t [u8]>, LineAnswer>
    ensures taken { Gives (λ _. fields.new) result (changeset_into fields.old (before is_blank text.now)) }
    ensures rest { IfOk result (λ rest. option_map (λ r. r.now) rest ≡ after is_blank text.now) }
{
    if fields.changeset.is_some() {
        return Err(LineAnswer::Bad(LineFault::FieldTwice));
    }
    let Some((value, rest)) = number_front(text, 4_294_967_295) else {
        return Err(LineAnswer::Bad(LineFault::BadNumber));
    };
    fields.changeset = Some(value);
    Ok(rest)
}

#[tactic(auto, unfolding(crate::specs::Field::uid_into))]
fn uid_into<'t>(fields: &mut Fields, text: &'t [u8]) -> Result<Option<&'t [u8]>, LineAnswer>
    ensures taken { Gives (λ _. fields.new) result (uid_into fields.old (before is_blank text.now)) }
    ensures rest { IfOk result (λ rest. option_map (λ r. r.now) rest ≡ after is_blank text.now) }
{
    if fields.uid.is_some() {
        return Err(LineAnswer::Bad(LineFault::FieldTwice));
    }
    let Some((value, rest)) = number_front(text, 4_294_967_295) else {
        return Err(LineAnswer::Bad(LineFault::BadNumber));
    };
    fields.uid = Some(value);
    Ok(rest)
}

#[tactic(auto, unfolding(crate::specs::Field::x_into))]
fn x_into<'t>(fields: &mut Fields, text: &'t [u8]) -> Result<Option<&'t [u8]>, LineAnswer>
    ensures taken { Gives (λ _. fields.new) result (x_into fields.old (before is_blank text.now)) }
    ensures rest { IfOk result (λ rest. option_map (λ r. r.now) rest ≡ after is_blank text.now) }
{
    if fields.x.is_some() {
        return Err(LineAnswer::Bad(LineFault::FieldTwice));
    }
    let Some((value, rest)) = place_front(text, 1_800_000_000) else {
        return Err(LineAnswer::Bad(LineFault::BadCoordinate));
    };
    fields.x = Some(value);
    Ok(rest)
}

#[tactic(auto, unfolding(crate::specs::Field::y_into))]
fn y_into<'t>(fields: &mut Fields, text: &'t [u8]) -> Result<Option<&'t [u8]>, LineAnswer>
    ensures taken { Gives (λ _. fields.new) result (y_into fields.old (before is_blank text.now)) }
    ensures rest { IfOk result (λ rest. option_map (λ r. r.now) rest ≡ after is_blank text.now) }
{
    if fields.y.is_some() {
        return Err(LineAnswer::Bad(LineFault::FieldTwice));
    }
    let Some((value, rest)) = place_front(text, 900_000_000) else {
        return Err(LineAnswer::Bad(LineFault::BadCoordinate));
    };
    fields.y = Some(value);
    Ok(rest)
}

#[tactic(auto, unfolding(crate::specs::Field::time_into))]
fn time_into<'t>(fields: &mut Fields, text: &'t [u8]) -> Result<Option<&'t [u8]>, LineAnswer>
    ensures taken { Gives (λ _. fields.new) result (time_into fields.old (before is_blank text.now)) }
    ensures rest { IfOk result (λ rest. option_map (λ r. r.now) rest ≡ after is_blank text.now) }
{
    if fields.time.is_some() {
        return Err(LineAnswer::Bad(LineFault::FieldTwice));
    }
    let Some((time, rest)) = time_front(text) else {
        return Err(LineAnswer::Bad(LineFault::BadTime));
    };
    fields.time = Some(time);
    Ok(rest)
}

#[tactic(auto, unfolding(crate::specs::Field::user_into))]
fn user_into<'t>(
    pool: &mut Pool,
    fields: &mut Fields,
    text: &'t [u8],
) -> Result<Option<&'t [u8]>, LineAnswer>
    ensures taken { Gives (λ _. fields.new) result (user_into fields.old (before is_blank text.now)) }
    ensures rest { IfOk result (λ rest. option_map (λ r. r.now) rest ≡ after is_blank text.now) }
{
    if fields.user.is_some() {
        return Err(LineAnswer::Bad(LineFault::FieldTwice));
    }
    let (text, rest) = cut(text, b' ', b'\t');
    let user = text_at(pool, text)?;
    fields.user = Some(user);
    Ok(rest)
}

#[tactic(auto, unfolding(crate::specs::Field::tags_into))]
fn tags_into<'t>(
    pool: &mut Pool,
    fields: &mut Fields,
    text: &'t [u8],
) -> Result<Option<&'t [u8]>, LineAnswer>
    ensures taken { Gives (λ _. fields.new) result (tags_into fields.old (before is_blank text.now)) }
    ensures rest { IfOk result (λ rest. option_map (λ r. r.now) rest ≡ after is_blank text.now) }
{
    if fields.tags.is_some() {
        return Err(LineAnswer::Bad(LineFault::FieldTwice));
    }
    let (text, rest) = cut(text, b' ', b'\t');
    let tags = read_tags(pool, text)?;
    fields.tags = Some(tags);
    Ok(rest)
}

#[tactic(auto, unfolding(crate::specs::Field::refs_into))]
fn refs_into<'t>(
    pool: &mut Pool,
    mode: Mode,
    fields: &mut Fields,
    text: &'t [u8],
) -> Result<Option<&'t [u8]>, LineAnswer>
    ensures taken { Gives (λ _. fields.new) result (refs_into mode fields.old (before is_blank text.now)) }
    ensures rest { IfOk result (λ rest. option_map (λ r. r.now) rest ≡ after is_blank text.now) }
{
    if fields.refs.is_some() {
        return Err(LineAnswer::Bad(LineFault::FieldTwice));
    }
    let (text, rest) = cut(text, b' ', b'\t');
    let refs = read_refs(pool, text)?;
    if !refs_allowed(mode, refs.as_slice()) {
        return Err(LineAnswer::Bad(LineFault::NegativeId));
    }
    fields.refs = Some(refs);
    Ok(rest)
}

#[tactic(auto, unfolding(crate::specs::Field::members_into))]
fn members_into<'t>(
    pool: &mut Pool,
    mode: Mode,
    fields: &mut Fields,
    text: &'t [u8],
) -> Result<Option<&'t [u8]>, LineAnswer>
    ensures taken { Gives (λ _. fields.new) result (members_into mode fields.old (before is_blank text.now)) }
    ensures rest { IfOk result (λ rest. option_map (λ r. r.now) rest ≡ after is_blank text.now) }
{
    if fields.members.is_some() {
        return Err(LineAnswer::Bad(LineFault::FieldTwice));
    }
    let (text, rest) = cut(text, b' ', b'\t');
    let members = read_members(pool, text)?;
    if !members_allowed(mode, members.as_slice()) {
        return Err(LineAnswer::Bad(LineFault::NegativeId));
    }
    fields.members = Some(members);
    Ok(rest)
}

#[tactic(auto, unfolding(crate::specs::Field::named_into))]
fn named_into<'t>(
    pool: &mut Pool,
    mode: Mode,
    letter: Letter,
    fields: &mut Fields,
    text: &'t [u8],
) -> Result<Option<&'t [u8]>, LineAnswer>
    ensures taken { Gives (λ _. fields.new) result (named_into mode letter fields.old (before is_blank text.now)) }
    ensures rest { IfOk result (λ rest. option_map (λ r. r.now) rest ≡ after is_blank text.now) }
{
    match letter {
        Letter::Version => version_into(fields, text),
        Letter::Visible => visible_into(fields, text),
        Letter::Changeset => changeset_into(fields, text),
        Letter::Uid => uid_into(fields, text),
        Letter::Time => time_into(fields, text),
        Letter::User => user_into(pool, fields, text),
        Letter::X => x_into(fields, text),
        Letter::Y => y_into(fields, text),
        Letter::Tags => tags_into(pool, fields, text),
        Letter::Refs => refs_into(pool, mode, fields, text),
        Letter::Members => members_into(pool, mode, fields, text),
    }
}

/// Takes a field in.
#[tactic(auto, unfolding(crate::specs::Field::field_into))]
pub fn field_into<'t>(
    pool: &mut Pool,
    mode: Mode,
    kind: Kind,
    fields: &mut Fields,
    bytes: &'t [u8],
) -> Result<Option<&'t [u8]>, LineAnswer>
    ensures taken { Gives (λ _. fields.new) result (field_into mode kind fields.old (before is_blank bytes.now)) }
    ensures rest { IfOk result (λ rest. option_map (λ r. r.now) rest ≡ after is_blank bytes.now) }
{
    let [first, text @ ..] = bytes else {
        return Ok(None);
    };
    if is_blank(*first) {
        return Ok(Some(text));
    }
    let Some(letter) = letter_of(*first) else {
        return Err(LineAnswer::Bad(LineFault::UnknownField));
    };
    if has_field(letter, kind) {
        named_into(pool, mode, letter, fields, text)
    } else {
        Err(LineAnswer::Bad(LineFault::WrongField))
    }
}
