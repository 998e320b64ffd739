//! Texts, tags, references and members of a line.
//!
//! A list is read item by item, each to its end before the next, so that the first broken thing
//! decides. A reference ends where its digits do; other items are cut at their commas. The commas are
//! counted before that, so that a list has just the room that it takes.

ghost use Rattle.std.specs.Prelude.{◌≡◌, [], is_some, IfOk, IfSome, Some};
ghost use Rattle.std.specs.List.{list_all};
ghost use Rattle.std.specs.Option.{option_map};
ghost use Rattle.opl_text.specs.Text.{unescaped};
ghost use Rattle.opl_line.specs.declared.fault.LineFault.TheVariants as faults;
ghost use Rattle.opl_line.specs.Reads.{Gives, or_fault, folded};
ghost use Rattle.opl_line.specs.Cut.{is_one_of, split, before, after};
ghost use Rattle.opl_line.specs.TagText.{behind_new, tag_value};
ghost use Rattle.opl_line.specs.Field.{is_allowed, tag_into, tags_text, is_place, is_place_or_none, ref_text, ref_into, refs_text, member_at, member_into, members_text};

use crate::fault::{LineAnswer, LineFault};
use crate::front::id_front;
use crate::many_tags::many_tags;
use crate::mode::{Mode, is_allowed};
use crate::number::read_place;
use crate::pieces::{count_pieces, cut};
use opl_text::{Pool, read_escaped};
use osm_base::{Key, Member, Members, Refs, Tags, Text, TextFault, kind_of};

/// The text of a field.
pub fn text_at(pool: &mut Pool, text: &[u8]) -> Result<Text, LineAnswer>
    ensures { Gives (λ text. text) result (or_fault faults.BadText (unescaped text.now)) }
{
    match read_escaped(pool, text) {
        Ok(text) => Ok(text),
        Err(TextFault::BadText) => Err(LineAnswer::Bad(LineFault::BadText)),
        Err(TextFault::Memory) => Err(LineAnswer::Memory),
    }
}

/// What is behind the `=` of a tag whose key isn't empty and not there yet.
#[tactic(auto, unfolding(crate::specs::TagText::behind_new))]
fn behind_new<'t>(tags: &Tags, key: &Text, after: Option<&'t [u8]>) -> Option<&'t [u8]>
    ensures { option_map (λ r. r.now) result ≡ behind_new tags.now key.now (option_map (λ r. r.now) after.entry) }
{
    if key.as_bytes().is_empty() {
        return None;
    }
    if tags.has(key.as_bytes()) {
        return None;
    }
    after
}

/// A tag's value: what is behind the first `=`, with no other in it.
#[tactic(auto, unfolding(crate::specs::TagText::tag_value))]
pub fn tag_value(pool: &mut Pool, text: &[u8]) -> Result<Text, LineAnswer>
    ensures { Gives (λ value. value) result (tag_value text.now) }
{
    let (value, after) = cut(text, b'=', b'=');
    if after.is_none() {
        text_at(pool, value)
    } else {
        text_at(pool, value)?;
        Err(LineAnswer::Bad(LineFault::BadTags))
    }
}

/// One tag more: a key, `=` and a value.
#[tactic(auto, using(crate::proofs::TagSteps::tag_steps))]
fn tag_into(pool: &mut Pool, tags: &mut Tags, item: &[u8]) -> Result<(), LineAnswer>
    ensures { Gives (λ _. tags.new) result (tag_into tags.old item.now) }
{
    let (key, after) = cut(item, b'=', b'=');
    let key = text_at(pool, key)?;
    let Some(rest) = behind_new(tags, &key, after) else {
        return Err(LineAnswer::Bad(LineFault::BadTags));
    };
    let value = tag_value(pool, rest)?;
    tags.put(key, value)?;
    Ok(())
}

/// The most room that is asked for before a list is read: no list of the API is longer (32,000 members). A longer one grows.
const MOST_ROOM: usize = 32_000;

/// How many items the commas of a list set apart, as the room that it asks for.
fn room(text: &[u8]) -> usize {
    count_pieces(text, b',').min(MOST_ROOM)
}

/// The most tags that are put in one by one, each of which may move those before it.
const FEW_TAGS: usize = 1_000;

/// The tags between commas, put in one by one, with room for so many.
fn all_tags(pool: &mut Pool, text: &[u8], room: usize) -> Result<Tags, LineAnswer>
    ensures { Gives (λ tags. tags) result (folded tag_into [] (split (is_one_of 44 44) text.now)) }
{
    let mut tags = Tags::with_capacity(pool.allocator(), room)?;
    let mut rest = text;
    loop {
        let (item, after) = cut(rest, b',', b',');
        tag_into(pool, &mut tags, item)?;
        match after {
            None => return Ok(tags),
            Some(next) => rest = next,
        }
    }
}

/// The tags that the text behind a field's `T` spells. Its commas are counted, and then it is
/// walked once; more than a thousand tags are sorted.
///
/// # Errors
/// `Bad` with the first fault from the left; `Memory` where memory ran out.
#[tactic(auto, unfolding(crate::specs::Field::tags_text))]
pub fn read_tags(pool: &mut Pool, text: &[u8]) -> Result<Tags, LineAnswer>
    ensures { Gives (λ tags. tags) result (tags_text text.now) }
{
    if text.is_empty() {
        return Ok(Tags::new(pool.allocator()));
    }
    let count = count_pieces(text, b',');
    if count > FEW_TAGS {
        many_tags(pool, text)
    } else {
        all_tags(pool, text, count)
    }
}

/// Whether the bytes are a longitude, `y` and a latitude, each of which may be nothing.
#[tactic(auto, unfolding(crate::specs::Field::is_place))]
fn is_place(text: &[u8]) -> bool
    ensures { result ≡ is_place text.now }
{
    let (lon, after) = cut(text, b'y', b'y');
    match after {
        None => false,
        Some(lat) => {
            read_place(lon, 1_800_000_000).is_some() && read_place(lat, 900_000_000).is_some()
        }
    }
}

fn is_place_or_none(text: Option<&[u8]>) -> bool
    ensures { result ≡ is_place_or_none (option_map (λ t. t.now) text.entry) }
{
    match text {
        None => true,
        Some(text) => is_place(text),
    }
}

/// `n`, an id, and perhaps a location, which is dropped.
#[tactic(auto, unfolding(crate::specs::Field::ref_text))]
fn read_ref(item: &[u8]) -> Option<i64>
    ensures { result ≡ ref_text item.now }
{
    let [b'n', text @ ..] = item else {
        return None;
    };
    let (id, place) = id_front(text, b'x', b'x')?;
    if is_place_or_none(place) {
        Some(id)
    } else {
        None
    }
}

// `n` and an id. What isn't of this form may be a reference too.
fn plain_ref(bytes: &[u8]) -> Option<(i64, Option<&[u8]>)>
    ensures value { IfSome result (λ r. ref_text (before (is_one_of 44 44) bytes.now) ≡ Some r.0) }
    ensures rest { IfSome result (λ r. option_map (λ rest. rest.now) r.1 ≡ after (is_one_of 44 44) bytes.now) }
{
    let [first, text @ ..] = bytes else {
        return None;
    };
    if *first != b'n' {
        return None;
    }
    let (id, rest) = id_front(text, b',', b',')?;
    Some((id, rest))
}

/// A reference, and what is behind the comma after it. Only one with a location is cut first.
fn ref_front(bytes: &[u8]) -> Option<(i64, Option<&[u8]>)>
    ensures value { option_map (λ r. r.0) result ≡ ref_text (before (is_one_of 44 44) bytes.now) }
    ensures rest { IfSome result (λ r. option_map (λ rest. rest.now) r.1 ≡ after (is_one_of 44 44) bytes.now) }
{
    if let Some((id, rest)) = plain_ref(bytes) {
        return Some((id, rest));
    }
    let (item, rest) = cut(bytes, b',', b',');
    let id = read_ref(item)?;
    Some((id, rest))
}

/// Takes a reference in, and gives what is behind the comma after it.
#[tactic(auto, unfolding(crate::specs::Field::ref_into))]
fn ref_into<'t>(refs: &mut Refs, bytes: &'t [u8]) -> Result<Option<&'t [u8]>, LineAnswer>
    ensures taken { Gives (λ _. refs.new) result (ref_into refs.old (before (is_one_of 44 44) bytes.now)) }
    ensures rest { IfOk result (λ rest. option_map (λ r. r.now) rest ≡ after (is_one_of 44 44) bytes.now) }
{
    let Some((id, rest)) = ref_front(bytes) else {
        return Err(LineAnswer::Bad(LineFault::BadRefs));
    };
    refs.push(id)?;
    Ok(rest)
}

/// The references between commas.
fn all_refs(pool: &mut Pool, text: &[u8]) -> Result<Refs, LineAnswer>
    ensures { Gives (λ refs. refs) result (folded ref_into [] (split (is_one_of 44 44) text.now)) }
{
    let mut refs = Refs::with_capacity(pool.allocator(), room(text))?;
    let mut rest = text;
    loop {
        match ref_into(&mut refs, rest)? {
            None => return Ok(refs),
            Some(next) => rest = next,
        }
    }
}

/// The references that the text behind a field's `N` spells. Its commas are counted, and then it is
/// walked once.
///
/// # Errors
/// `Bad` with the first fault from the left; `Memory` where memory ran out.
#[tactic(auto, unfolding(crate::specs::Field::refs_text))]
pub fn read_refs(pool: &mut Pool, text: &[u8]) -> Result<Refs, LineAnswer>
    ensures { Gives (λ refs. refs) result (refs_text text.now) }
{
    if text.is_empty() {
        return Ok(Refs::new(pool.allocator())?);
    }
    all_refs(pool, text)
}

/// Whether all ids may stand in a file of the mode.
pub fn refs_allowed(mode: Mode, ids: &[i64]) -> bool
    ensures { result ≡ list_all (is_allowed mode) ids.now }
{
    ids.iter().all(|id| is_allowed(mode, *id))
}

/// A kind, an id, `@` and a role.
fn member_at(pool: &mut Pool, item: &[u8]) -> Result<Member, LineAnswer>
    ensures { Gives (λ member. member) result (member_at item.now) }
{
    let [first, text @ ..] = item else {
        return Err(LineAnswer::Bad(LineFault::BadMembers));
    };
    let Some(kind) = kind_of(*first) else {
        return Err(LineAnswer::Bad(LineFault::BadMembers));
    };
    let Some((id, after)) = id_front(text, b'@', b'@') else {
        return Err(LineAnswer::Bad(LineFault::BadMembers));
    };
    let Some(role) = after else {
        return Err(LineAnswer::Bad(LineFault::BadMembers));
    };
    let role = text_at(pool, role)?;
    Ok(Member {
        key: Key { kind, id },
        role,
    })
}

#[tactic(auto, unfolding(crate::specs::Field::member_into))]
fn member_into(pool: &mut Pool, members: &mut Members, item: &[u8]) -> Result<(), LineAnswer>
    ensures { Gives (λ _. members.new) result (member_into members.old item.now) }
{
    let member = member_at(pool, item)?;
    members.push(member)?;
    Ok(())
}

/// The members between commas.
fn all_members(pool: &mut Pool, text: &[u8]) -> Result<Members, LineAnswer>
    ensures { Gives (λ members. members) result (folded member_into [] (split (is_one_of 44 44) text.now)) }
{
    let mut members = Members::with_capacity(pool.allocator(), room(text))?;
    let mut rest = text;
    loop {
        let (item, after) = cut(rest, b',', b',');
        member_into(pool, &mut members, item)?;
        match after {
            None => return Ok(members),
            Some(next) => rest = next,
        }
    }
}

/// The members that the text behind a field's `M` spells. Its commas are counted, and then it is
/// walked once.
///
/// # Errors
/// `Bad` with the first fault from the left; `Memory` where memory ran out.
#[tactic(auto, unfolding(crate::specs::Field::members_text))]
pub fn read_members(pool: &mut Pool, text: &[u8]) -> Result<Members, LineAnswer>
    ensures { Gives (λ members. members) result (members_text text.now) }
{
    if text.is_empty() {
        return Ok(Members::new(pool.allocator())?);
    }
    all_members(pool, text)
}

/// Whether the ids of all members may stand in a file of the mode.
pub fn members_allowed(mode: Mode, members: &[Member]) -> bool
    ensures { result ≡ list_all (λ m. is_allowed mode m.key.id) members.now }
{
    members.iter().all(|member| is_allowed(mode, member.key.id))
}
