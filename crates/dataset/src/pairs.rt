//! The pairs that come and go with edits, and those of one content. They enter the index one by one,
//! so no list of them takes memory.
ghost use Rattle.std.specs.Prelude.{◌≡◌, ◌+◌, ◌<◌, ◌≤◌, not, if◌then◌else◌, None, length, take, slice_index_or, OnOk, OnErr, IfOk};
ghost use Rattle.std.specs.List.{list_all};
ghost use Rattle.std.specs.Option.{option_copied, option_map};
ghost use Rattle.std.specs.FinMap as fin;
ghost use Rattle.osm_base.specs.Content.{refs_of};
ghost use Rattle.osm_table.specs.Told.{entry_told, told_at};
ghost use Rattle.ref_index.specs.declared.pair.Pair.{Pair};
ghost use Rattle.ref_index.specs.Bag.{count, times};
ghost use Rattle.dataset.specs.Exact.{is_none_of, keeps_pairs, keeps_refs, mine_at, moved_pairs, pairs_by, pairs_with, refs_at, same_lists, times_key};
ghost use Rattle.dataset.specs.Sides.{side};
ghost use Rattle.dataset.specs.ToldIndex.{refs_told};

use crate::edit::Edit;
use osm_base::{Content, Key, node_key};
use osm_table::{SharedEntry, ToldMap};
use ref_index::{Pair, RefIndex};
use std::alloc::AllocError;
use std::cell::Cell;

/// Adds the pairs of one side of edits, or none of them. Costs the index one look-up a reference,
/// and nothing for an edit that keeps the references.
///
/// # Errors
///
/// Where the index finds no memory. Then each pair is there as often as it was.
fn add_pairs(index: &mut RefIndex, edits: &[Edit], forth: bool) -> Result<(), AllocError>
    ensures ok { OnOk result ((p : Pair) → count index.new p ≡ times p (pairs_by (side forth) edits.now) + count index.old p) }
    ensures err { OnErr result ((p : Pair) → count index.new p ≡ count index.old p) }
{
    for i in 0..edits.len() {
        if let Err(e) = add_moved(index, &edits[i], forth) {
            take_pairs(index, &edits[..i], forth);
            return Err(e);
        }
    }
    Ok(())
}

/// Takes the pairs of one side of edits, which are there. Costs what adding them does, and takes no
/// memory. It begins at the last, since edits come by rank, and the last of a key's users goes at least cost.
fn take_pairs(index: &mut RefIndex, edits: &[Edit], forth: bool)
    requires { (p : Pair) → times p (pairs_by (side forth) edits.now) ≤ count index.old p }
    ensures { (p : Pair) → times p (pairs_by (side forth) edits.now) + count index.new p ≡ count index.old p }
{
    for i in (0..edits.len()).rev() {
        take_moved(index, &edits[i], forth);
    }
}

/// Leads an index by one side of edits: their pairs come, and those of the other side, which are
/// there, go. It is led whole or not at all. All that comes enters first, so each pair that goes is
/// there then. Costs what adding and taking cost.
///
/// # Errors
///
/// Where the index finds no memory. Then each pair is there as often as it was.
pub fn lead_pairs(index: &mut RefIndex, edits: &[Edit], forth: bool) -> Result<(), AllocError>
    requires { (p : Pair) → times p (pairs_by (side (not forth)) edits.now) ≤ count index.old p }
    ensures ok { OnOk result ((p : Pair) → times p (pairs_by (side (not forth)) edits.now) + count index.new p ≡ times p (pairs_by (side forth) edits.now) + count index.old p) }
    ensures err { OnErr result ((p : Pair) → count index.new p ≡ count index.old p) }
{
    add_pairs(index, edits, forth)?;
    take_pairs(index, edits, !forth);
    Ok(())
}

/// Whether edits bring no pair and take none, as those of tags and of nodes do.
pub fn keep_pairs(edits: &[Edit]) -> bool
    ensures { result ≡ list_all keeps_pairs edits.now }
{
    edits.iter().all(|edit| keeps_pairs(edit))
}

/// An index of what the objects that are told of as living refer to. It costs one look-up a reference, and
/// goes over the objects by rank, so that a user comes behind all that a list has.
///
/// # Errors
///
/// Where no memory is found.
pub fn index_of(told: &ToldMap) -> Result<RefIndex, AllocError>
    ensures { IfOk result (λ index. (p : Pair) → count index p ≡ times_key p.of (refs_told told.now p.user)) }
{
    let keys = told.ordered()?;
    let mut index = RefIndex::new(told.alloc());
    // Dropped by a call: on a way out, the code of all that an index owns would be written out.
    let added = add_objects(&mut index, told, keys.as_slice());
    drop(keys);
    added.and(Ok(index))
}

/// Adds the pairs of all objects to an index that has none, by rank.
fn add_objects(index: &mut RefIndex, told: &ToldMap, keys: &[Key]) -> Result<(), AllocError>
    requires none { index.old ≡ fin.empty }
    requires keys { keys.now ≡ fin.keys told.now.told }
    ensures { OnOk result ((p : Pair) → count index.new p ≡ times_key p.of (refs_told told.now p.user)) }
{
    let at = Cell::new(0);
    for key in keys {
        add_object(index, told, &at, *key)?;
    }
    Ok(())
}

/// Adds the pairs of an object, or none of them. It is sought as in `content_along`.
fn add_object(
    index: &mut RefIndex,
    told: &ToldMap,
    at: &Cell<usize>,
    key: Key,
) -> Result<(), AllocError>
    ensures ok { OnOk result ((p : Pair) → count index.new p ≡ times p (pairs_with key (refs_told told.now key)) + count index.old p) }
    ensures err { OnErr result ((p : Pair) → count index.new p ≡ count index.old p) }
{
    match content_along(told, at, key) {
        Some(content) => add_content(index, key, content),
        None => Ok(()),
    }
}

/// The content of an object that is told of as living. Its key is sought first at the place `at`, which then
/// is the one behind it. So who goes over keys in the order in which they were told pays no search.
pub fn content_along<'a>(told: &'a ToldMap, at: &Cell<usize>, key: Key) -> Option<&'a Content>
    ensures { option_copied result ≡ mine_at (option_map entry_told (told_at told.now key)) }
{
    let (behind, entry) = told.get_near(at.get(), key)?;
    at.set(behind);
    entry.mine()
}

fn add_moved(index: &mut RefIndex, edit: &Edit, forth: bool) -> Result<(), AllocError>
    ensures ok { OnOk result ((p : Pair) → count index.new p ≡ times p (moved_pairs (side forth) edit.now) + count index.old p) }
    ensures err { OnErr result ((p : Pair) → count index.new p ≡ count index.old p) }
{
    match moved(edit, forth) {
        Some(content) => add_content(index, edit.key(), content),
        None => Ok(()),
    }
}

fn take_moved(index: &mut RefIndex, edit: &Edit, forth: bool)
    requires { (p : Pair) → times p (moved_pairs (side forth) edit.now) ≤ count index.old p }
    ensures { (p : Pair) → times p (moved_pairs (side forth) edit.now) + count index.new p ≡ count index.old p }
{
    if let Some(content) = moved(edit, forth) {
        take_content(index, edit.key(), content);
    }
}

/// The content whose references move with one side of an edit: none where the edit keeps them, or
/// where nothing lives on that side.
fn moved(edit: &Edit, forth: bool) -> Option<&Content>
    ensures { option_copied result ≡ (if keeps_refs edit.now then None else mine_at (side forth edit.now)) }
{
    let content = mine_at(edit.side(forth))?;
    if keeps_refs(edit) {
        None
    } else {
        Some(content)
    }
}

fn keeps_pairs(edit: &Edit) -> bool
    ensures { result ≡ keeps_pairs edit.now }
{
    keeps_refs(edit) || (refers_to_none(edit.before()) && refers_to_none(edit.after()))
}

fn refers_to_none(entry: Option<&SharedEntry>) -> bool
    ensures { result ≡ is_none_of (refs_at (option_copied entry.entry)) }
{
    match mine_at(entry) {
        Some(content) => references(content) == 0,
        None => true,
    }
}

fn keeps_refs(edit: &Edit) -> bool
    ensures { result ≡ keeps_refs edit.now }
{
    same_lists(mine_at(edit.before()), mine_at(edit.after()))
}

/// The content that an entry has, if it lives.
fn mine_at(entry: Option<&SharedEntry>) -> Option<&Content>
    ensures { option_copied result ≡ mine_at (option_copied entry.entry) }
{
    match entry {
        Some(entry) => entry.mine(),
        None => None,
    }
}

fn same_lists(a: Option<&Content>, b: Option<&Content>) -> bool
    ensures { result ≡ same_lists (option_copied a.entry) (option_copied b.entry) }
{
    match (a, b) {
        (Some(Content::Way { refs, .. }), Some(Content::Way { refs: theirs, .. })) => {
            refs.same(theirs)
        }
        (
            Some(Content::Relation { members, .. }),
            Some(
                Content::Relation {
                    members: theirs,
                    ..
                },
            ),
        ) => { members.same(theirs) }
        _ => false,
    }
}

/// Adds the references of a content to an index, each as a pair as often as it stands, or none of
/// them. Costs the index one pair a reference.
///
/// # Errors
///
/// Where the index finds no memory. Then each pair is there as often as it was.
pub fn add_content(index: &mut RefIndex, user: Key, content: &Content) -> Result<(), AllocError>
    ensures ok { OnOk result ((p : Pair) → count index.new p ≡ times p (pairs_with user (refs_of content.now)) + count index.old p) }
    ensures err { OnErr result ((p : Pair) → count index.new p ≡ count index.old p) }
{
    for i in 0..references(content) {
        if let Err(e) = index.add(pair_at(user, content, i)) {
            take_first(index, user, content, i);
            return Err(e);
        }
    }
    Ok(())
}

/// Takes the references of a content, which are there, out of an index. Costs what adding them does,
/// and takes no memory.
pub fn take_content(index: &mut RefIndex, user: Key, content: &Content)
    requires { (p : Pair) → times p (pairs_with user (refs_of content.now)) ≤ count index.old p }
    ensures { (p : Pair) → times p (pairs_with user (refs_of content.now)) + count index.new p ≡ count index.old p }
{
    take_first(index, user, content, references(content));
}

/// Takes the first few pairs of a content.
fn take_first(index: &mut RefIndex, user: Key, content: &Content, few: usize)
    requires few { few ≤ length (refs_of content.now) }
    requires there { (p : Pair) → times p (take few (pairs_with user (refs_of content.now))) ≤ count index.old p }
    ensures { (p : Pair) → times p (take few (pairs_with user (refs_of content.now))) + count index.new p ≡ count index.old p }
{
    for i in 0..few {
        index.take(pair_at(user, content, i));
    }
}

/// How many references a content has.
pub fn references(content: &Content) -> usize
    ensures { result ≡ length (refs_of content.now) }
{
    match content {
        Content::Node { .. } => 0,
        Content::Way { refs, .. } => refs.as_slice().len(),
        Content::Relation { members, .. } => members.as_slice().len(),
    }
}

/// A reference of a content, by its place, as a pair.
pub fn pair_at(user: Key, content: &Content, i: usize) -> Pair
    requires { i < length (refs_of content.now) }
    ensures { result ≡ slice_index_or (pairs_with user (refs_of content.now)) i result }
{
    Pair {
        of: reference_at(content, i),
        user,
    }
}

fn reference_at(content: &Content, i: usize) -> Key
    requires { i < length (refs_of content.now) }
    ensures { result ≡ slice_index_or (refs_of content.now) i result }
{
    match content {
        Content::Node { .. } => unreachable!(),
        Content::Way { refs, .. } => node_key(refs.as_slice()[i]),
        Content::Relation { members, .. } => members.as_slice()[i].key,
    }
}
