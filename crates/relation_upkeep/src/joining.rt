//! What several objects come to that become one: which of them is kept, and the tags of all.
ghost use Rattle.std.specs.Prelude.{◌≡◌, ◌++◌, ◌<◌, [], T, not, nat_lt, length, Some, IfOk, OnOk};
ghost use Rattle.std.specs.List.{filter, find, list_all};
ghost use Rattle.std.specs.List.Sorted.{IsPermutation, IsSortedBy};
ghost use Rattle.std.specs.Ordering.{is_lt};
ghost use Rattle.osm_base.specs.Rank.{is_key};
ghost use Rattle.osm_base.specs.Tags.{bytes_cmp, value_of};
ghost use Rattle.tool_api.specs.Combine.{all_tags, is_positive, kept_way};
ghost use Rattle.tool_api.specs.Split.{tags_at};
ghost use Rattle.relation_upkeep.specs.Union.{unless, differs, put_on, union_of};

use dataset::DataSet;
use osm_base::{Key, Tags, Text, same_key};
use std::alloc::{AllocError, Global};
use std::cmp::Ordering;
use tool_api::{Refusal, content_of};

fn is_positive(id: i64) -> bool
    ensures { result ≡ is_positive id }
{
    0 <= id
}

fn first_positive(keys: &[Key]) -> Option<Key>
    ensures { result ≡ find (λ k. is_positive k.id) keys.now }
{
    keys.iter().copied().find(|key| is_positive(key.id))
}

/// The object that is kept: the first with a positive id, else the first.
pub fn kept_key(keys: &[Key]) -> Key
    requires { 0 < length keys.now }
    ensures { kept_way keys.now ≡ Some result }
{
    match first_positive(keys) {
        Some(key) => key,
        None => keys[0],
    }
}

/// The objects that go: all but the kept one, in order.
///
/// # Errors
/// No memory was left.
pub fn other_keys(alloc: Global, keys: &[Key], kept: Key) -> Result<Vec<Key>, AllocError>
    ensures { IfOk result (λ others. others.items ≡ filter (λ k. not (is_key kept k)) keys.now) }
{
    keys.iter()
        .copied()
        .filter(|key| !same_key(kept, *key))
        .collect(alloc)
}

fn push_tags(all: &mut Vec<(Text, Text)>, tags: &[(Text, Text)]) -> Result<(), AllocError>
    ensures { OnOk result (all.new.items ≡ all.old.items ++ tags.now) }
{
    for tag in tags {
        all.push((tag.0.copy()?, tag.1.copy()?))?;
    }
    Ok(())
}

/// The tags of a living object, and none of any other.
fn tags_at(ds: &DataSet, key: Key) -> &[(Text, Text)]
    ensures value { result.now ≡ tags_at ds.now key }
    ensures named { T (list_all (λ t. nat_lt 0 (length t.0)) result.now) }
{
    match content_of(ds, key) {
        None => &[],
        Some(content) => content.tags().as_slice(),
    }
}

/// The tags of all the objects, one after the other. They share the texts.
fn all_tags(ds: &DataSet, keys: &[Key]) -> Result<Vec<(Text, Text)>, AllocError>
    ensures value { IfOk result (λ tags. tags.items ≡ all_tags ds.now keys.now) }
    ensures named { IfOk result (λ tags. T (list_all (λ t. nat_lt 0 (length t.0)) tags.items)) }
{
    let mut all = Vec::new(ds.alloc());
    for key in keys {
        push_tags(&mut all, tags_at(ds, *key))?;
    }
    Ok(all)
}

fn has_other(tags: &Tags, key: &[u8], value: &[u8]) -> bool
    ensures { result ≡ differs (value_of tags.now key.now) value.now }
{
    tags.get(key).is_some_and(|other| other != value)
}

/// Sets the tags one after the other, up to the first whose key has another value by then.
fn put_on(sorted: &[(Text, Text)], tags: &mut Tags) -> Result<Option<Refusal>, AllocError>
    requires { T (list_all (λ t. nat_lt 0 (length t.0)) sorted.now) }
    ensures { IfOk result (λ refusal. put_on tags.old sorted.now ≡ unless refusal tags.new) }
{
    for tag in sorted {
        if has_other(tags, tag.0.as_bytes(), tag.1.as_bytes()) {
            return Ok(Some(Refusal::TagClash(tag.0.copy()?)));
        }
        tags.put(tag.0.copy()?, tag.1.copy()?)?;
    }
    Ok(None)
}

fn by_key(a: &(Text, Text), b: &(Text, Text)) -> Ordering
    ensures { result ≡ bytes_cmp a.now.0 b.now.0 }
{
    a.0.as_bytes().cmp(&b.0.as_bytes())
}

fn sort_by_key(tags: &mut Vec<(Text, Text)>) -> Result<(), AllocError>
    ensures moved { OnOk result (IsPermutation tags.old.items tags.new.items) }
    ensures sorted { OnOk result (IsSortedBy (λ a b. is_lt (bytes_cmp a.0 b.0)) tags.new.items) }
{
    tags.sort_by(|a, b| by_key(a, b))?;
    Ok(())
}

/// All tags of the objects, each key once, or TagClash with the least key that has two values. It sorts the tags once.
///
/// # Errors
/// No memory was left.
pub fn united_tags(ds: &DataSet, keys: &[Key]) -> Result<Result<Tags, Refusal>, AllocError>
    ensures { IfOk result (λ tags. tags ≡ union_of (all_tags ds.now keys.now)) }
{
    let mut all = all_tags(ds, keys)?;
    sort_by_key(&mut all)?;
    let mut tags = Tags::new(ds.alloc());
    match put_on(&all, &mut tags)? {
        None => Ok(Ok(tags)),
        Some(refusal) => Ok(Err(refusal)),
    }
}
