//! A list of many tags, in any order.
//!
//! Tags that are put in one by one are moved by each whose key comes before theirs. Many are listed as
//! they come, and sorted once.

ghost use Rattle.std.specs.Prelude.{◌≡◌, ◌<◌, [], ◌∷◌, ◌++◌, length, OnOk};
ghost use Rattle.std.specs.List.Sorted.{IsPermutation};
ghost use Rattle.osm_base.specs.Tags.{bytes_cmp, with_tag};
ghost use Rattle.opl_line.specs.Reads.{Gives, folded};
ghost use Rattle.opl_line.specs.Cut.{is_one_of, split};
ghost use Rattle.opl_line.specs.Field.{tag_into};
ghost use Rattle.opl_line.specs.ManyTags.{tags_added, item_after, Listed};

use crate::fault::{LineAnswer, LineFault};
use crate::lists::{tag_value, text_at};
use crate::pieces::cut;
use opl_text::Pool;
use osm_base::{Tags, Text};
use std::alloc::{AllocError, Global};
use std::cmp::Ordering;

/// Lists a key as its own value.
fn list_key(list: &mut Vec<(Text, Text)>, key: Text) -> Result<(), AllocError>
    ensures { OnOk result (list.new.items ≡ list.old.items ++ (key, key) ∷ []) }
{
    list.push((key.copy()?, key))?;
    Ok(())
}

/// Lists the tag that an item spells: a key, `=` and a value. Its key isn't compared with those of the list. Where the value
/// is none, the key stands in its place, since a key that is there already is the earlier fault.
#[tactic(auto, unfolding(crate::specs::Field::tag_into))]
fn list_tag(pool: &mut Pool, list: &mut Vec<(Text, Text)>, item: &[u8]) -> Result<(), LineAnswer>
    ensures { Listed result list.new.items (item_after list.old.items item.now) }
{
    let (key, after) = cut(item, b'=', b'=');
    let key = text_at(pool, key)?;
    let Some(rest) = after else {
        return Err(LineAnswer::Bad(LineFault::BadTags));
    };
    match tag_value(pool, rest) {
        Ok(value) => {
            list.push((key, value))?;
            Ok(())
        }
        Err(answer) => {
            list_key(list, key)?;
            Err(answer)
        }
    }
}

/// Lists the tags between commas, up to the first fault.
fn list_tags(pool: &mut Pool, list: &mut Vec<(Text, Text)>, text: &[u8]) -> Result<(), LineAnswer>
    requires { list.old.items ≡ [] }
    ensures { Listed result list.new.items (folded tag_into [] (split (is_one_of 44 44) text.now)) }
{
    let mut rest = text;
    loop {
        let (item, after) = cut(rest, b',', b',');
        list_tag(pool, list, item)?;
        match after {
            None => return Ok(()),
            Some(next) => rest = next,
        }
    }
}

fn by_key(a: &(Text, Text), b: &(Text, Text)) -> Ordering
    ensures { result ≡ bytes_cmp a.now.0 b.now.0 }
{
    a.0.as_bytes().cmp(&b.0.as_bytes())
}

fn sort_by_key(tags: &mut Vec<(Text, Text)>) -> Result<(), AllocError>
    ensures { OnOk result (IsPermutation tags.old.items tags.new.items) }
{
    tags.sort_by(|a, b| by_key(a, b))?;
    Ok(())
}

/// Puts a copy of a tag in.
fn put_copy(tags: &mut Tags, tag: &(Text, Text)) -> Result<(), AllocError>
    requires { 0 < length tag.now.0 }
    ensures { OnOk result (tags.new ≡ with_tag tags.old tag.now.0 tag.now.1) }
{
    let key = tag.0.copy()?;
    tags.put(key, tag.1.copy()?)
}

/// Puts those of a list in, or tells that a key of these is empty or stands twice.
fn put_all(tags: &mut Tags, list: &[(Text, Text)]) -> Result<(), LineAnswer>
    ensures { Gives (λ _. tags.new) result (tags_added tags.old list.now) }
{
    for tag in list {
        if tag.0.as_bytes().is_empty() || tags.has(tag.0.as_bytes()) {
            return Err(LineAnswer::Bad(LineFault::BadTags));
        }
        put_copy(tags, tag)?;
    }
    Ok(())
}

/// As `put_all`, into none and in any order. The list is sorted, so that each tag goes to the end.
fn put_sorted(tags: &mut Tags, list: &mut Vec<(Text, Text)>) -> Result<(), LineAnswer>
    requires { tags.old ≡ [] }
    ensures { Gives (λ _. tags.new) result (tags_added [] list.old.items) }
{
    sort_by_key(list)?;
    put_all(tags, list.as_slice())
}

fn sorted_tags(alloc: Global, list: Vec<(Text, Text)>) -> Result<Tags, LineAnswer>
    ensures { Gives (λ tags. tags) result (tags_added [] list.items) }
{
    let mut list = list;
    let mut tags = Tags::with_capacity(alloc, list.len())?;
    put_sorted(&mut tags, &mut list)?;
    Ok(tags)
}

/// The tags between commas. They are listed, and sorted once.
///
/// # Errors
/// `Bad` with the first fault from the left; `Memory` where memory ran out.
pub fn many_tags(pool: &mut Pool, text: &[u8]) -> Result<Tags, LineAnswer>
    ensures { Gives (λ tags. tags) result (folded tag_into [] (split (is_one_of 44 44) text.now)) }
{
    let alloc = pool.allocator();
    let mut list = Vec::new(alloc);
    match list_tags(pool, &mut list, text) {
        Ok(()) => sorted_tags(alloc, list),
        Err(LineAnswer::Memory) => Err(LineAnswer::Memory),
        Err(LineAnswer::Bad(fault)) => {
            sorted_tags(alloc, list)?;
            Err(LineAnswer::Bad(fault))
        }
    }
}
