//! Sets tags.
ghost use Rattle.std.specs.Prelude.{◌≡◌, ◌<◌, T, length, IfOk, OnOk};
ghost use Rattle.std.specs.Option.{option_map};
ghost use Rattle.osm_base.specs.Tags.{are_tags, with_tag};
ghost use Rattle.dataset.specs.Sound.{IsSound};
ghost use Rattle.tool_api.specs.Basic.{retag_one, retagged, set_tags};
ghost use Rattle.tool_api.specs.Planned.{Plans};
ghost use Rattle.tools_basic.specs.Merging.{lesser_first, behind};

use dataset::DataSet;
use osm_base::{Content, Key, Tags, Text};
use std::alloc::{AllocError, Global};
use tool_api::{Command, EditContent, Job, Kinds, Plan, Undoable, Verb, edits_plan, list_tests};

/// Sets a pair with a value, or removes the key with an empty one. A binary search.
fn retag_one(tags: &mut Tags, key: &Text, value: &Text) -> Result<(), AllocError>
    requires { 0 < length key.now }
    ensures { OnOk result (tags.new ≡ retag_one tags.old (key.now, value.now)) }
{
    if value.as_bytes().is_empty() {
        tags.take(key.as_bytes());
        return Ok(());
    }
    tags.put(key.copy()?, value.copy()?)
}

/// The tags after one pair after the other, each of which may move those behind it.
fn set_in_place(tags: Tags, pairs: &[(Text, Text)]) -> Result<Tags, AllocError>
    requires { T (are_tags pairs.now) }
    ensures { IfOk result (λ new. new ≡ retagged tags pairs.now) }
{
    let mut new = tags;
    for pair in pairs {
        retag_one(&mut new, &pair.0, &pair.1)?;
    }
    Ok(new)
}

/// The first tag where its key comes before another, and those behind it.
fn lesser_first<'a>(
    tags: &'a [(Text, Text)],
    key: &[u8],
) -> Option<(&'a (Text, Text), &'a [(Text, Text)])>
    ensures { option_map (λ split. (split.0.now, split.1.now)) result ≡ lesser_first key.now tags.now }
{
    let (first, others) = tags.split_first()?;
    if first.0.as_bytes().cmp(&key).is_lt() {
        Some((first, others))
    } else {
        None
    }
}

/// The tags without the first where that has the key.
fn behind<'a>(tags: &'a [(Text, Text)], key: &[u8]) -> &'a [(Text, Text)]
    ensures { result.now ≡ behind key.now tags.now }
{
    match tags.split_first() {
        Some((first, others)) if key.cmp(&first.0.as_bytes()).is_eq() => others,
        _ => tags,
    }
}

/// Puts a tag behind those with lesser keys.
fn put_last(new: &mut Tags, tag: &(Text, Text)) -> Result<(), AllocError>
    requires { 0 < length tag.now.0 }
    ensures { OnOk result (new.new ≡ with_tag new.old tag.now.0 tag.now.1) }
{
    new.put(tag.0.copy()?, tag.1.copy()?)
}

/// The same as `set_in_place`, from the lesser keys to the greater in one pass over both lists.
fn merged(tags: &Tags, pairs: &[(Text, Text)], alloc: Global) -> Result<Tags, AllocError>
    requires { T (are_tags pairs.now) }
    ensures { IfOk result (λ new. new ≡ retagged tags.now pairs.now) }
{
    let mut new = Tags::with_capacity(alloc, tags.len())?;
    let mut rest = tags.as_slice();
    for pair in pairs {
        while let Some((tag, others)) = lesser_first(rest, pair.0.as_bytes()) {
            put_last(&mut new, tag)?;
            rest = others;
        }
        rest = behind(rest, pair.0.as_bytes());
        if !pair.1.as_bytes().is_empty() {
            put_last(&mut new, pair)?;
        }
    }
    while let Some((tag, others)) = rest.split_first() {
        put_last(&mut new, tag)?;
        rest = others;
    }
    Ok(new)
}

/// The most pairs that are set one after the other, in place.
const FEW_PAIRS: usize = 16;

/// The tags after one pair after the other. They share the pairs' texts. It costs both lists and a binary search for
/// each tag that is set or copied; few pairs are set in place.
fn retagged(tags: Tags, pairs: &[(Text, Text)], alloc: Global) -> Result<Tags, AllocError>
    requires { T (are_tags pairs.now) }
    ensures { IfOk result (λ new. new ≡ retagged tags pairs.now) }
{
    if pairs.len() <= FEW_PAIRS {
        set_in_place(tags, pairs)
    } else {
        merged(&tags, pairs, alloc)
    }
}

/// Sets each pair with a value, and removes each key with an empty one.
#[derive(Drop)]
struct Retag<'a> {
    pairs: &'a Tags,
    alloc: Global,
}

impl<'a> EditContent for Retag<'a> {
    ghost use Rattle.tool_api.specs.Basic.{retagged, with_tags};

    ghost edited = { λ rule. with_tags (λ tags. retagged tags rule.pairs.now) };

    fn edit(&self, content: Content) -> Result<Content, AllocError> {
        let pairs = self.pairs.as_slice();
        match content {
            Content::Node { tags, at } => Ok(Content::Node {
                tags: retagged(tags, pairs, self.alloc)?,
                at,
            }),
            Content::Way { tags, refs } => Ok(Content::Way {
                tags: retagged(tags, pairs, self.alloc)?,
                refs,
            }),
            Content::Relation { tags, members } => Ok(Content::Relation {
                tags: retagged(tags, pairs, self.alloc)?,
                members,
            }),
        }
    }
}

fn tags_plan(ds: &DataSet, keys: &[Key], pairs: &Tags, limit: u64) -> Result<Plan, AllocError>
    requires sound { IsSound ds.now }
    ensures { IfOk result (Plans ds.now (set_tags ds.now limit keys.now pairs.now)) }
{
    if let Some(refusal) = list_tests(ds, Kinds::Any, keys)? {
        return Ok(Plan::Refused(refusal));
    }
    let rule = Retag {
        pairs,
        alloc: ds.alloc(),
    };
    edits_plan(ds, keys, &rule, keys, limit)
}

/// Sets tags of objects, and removes those whose new value is empty.
#[derive(Drop)]
pub struct Tag {}

impl Command for Tag {
    ghost use Rattle.tool_api.specs.declared.verb.Verb.TheVariants as verb;

    ghost kind = { verb.Tag };

    fn verb() -> Verb {
        Verb::Tag
    }

    fn plan(ds: &DataSet, job: &Job, limit: u64) -> Result<Plan, AllocError> {
        match job {
            Job::SetTags { keys, tags } => tags_plan(ds, keys.as_slice(), tags, limit),
            _ => unreachable!(),
        }
    }
}

pub type TagTool = Undoable<Tag>;
