//! The objects that erasing touches, found by the index.
ghost use Rattle.std.specs.Prelude.{◌≡◌, ◌++◌, ◌&&◌, ◌||◌, not, OnOk, IfOk};
ghost use Rattle.std.specs.List.{filter, flat_map, list_all};
ghost use Rattle.std.specs.Option.{option_copied};
ghost use Rattle.osm_base.specs.declared.key.Key.{Key};
ghost use Rattle.tool_api.specs.Changes.{content_of};
ghost use Rattle.tool_api.specs.Distinct.{distinct};
ghost use Rattle.tool_api.specs.Gone.{is_bare, is_mended};
ghost use Rattle.tool_api.specs.Checks.{is_named};
ghost use Rattle.tools_delete.specs.Touched.{falls_short, is_free, is_left_by, lives_as_relation, lives_as_way, loses_members, way_nodes};

use crate::mending::mended_ids;
use dataset::DataSet;
use osm_base::{Content, Key, push_references};
use osm_table::{EntryParts, SharedEntry};
use std::alloc::{AllocError, Global};
use tool_api::{KeySet, all_users, content_of, distinct, is_relation};

fn is_way(ds: &DataSet, key: Key) -> bool
    ensures { result ≡ lives_as_way ds.now key }
{
    matches!(content_of(ds, key), Some(Content::Way { .. }))
}

fn other_ways(ds: &DataSet, named: &KeySet, keys: &[Key]) -> Result<Vec<Key>, AllocError>
    ensures { IfOk result (λ ways. ways.items ≡ filter (λ u. not (is_named named.now u) && lives_as_way ds.now u) keys.now) }
{
    keys.iter()
        .copied()
        .filter(|key| !named.contains(*key) && is_way(ds, *key))
        .collect(ds.alloc())
}

/// The ways that aren't named and have a named node, each once. It costs the users of the named objects.
///
/// # Errors
/// No memory was left.
pub fn mended_ways(ds: &DataSet, named: &KeySet) -> Result<Vec<Key>, AllocError>
    ensures found { IfOk result (λ ways. (key : Key) → is_named ways.items key ≡ is_mended ds.now named.now key) }
    ensures once { IfOk result (λ ways. distinct ways.items ≡ ways.items) }
{
    let users = all_users(ds, named.as_slice())?;
    let ways = other_ways(ds, named, &users)?;
    distinct(ds.alloc(), &ways)
}

fn falls_short(ds: &DataSet, named: &KeySet, way: Key) -> Result<bool, AllocError>
    ensures { IfOk result (λ short. short ≡ falls_short ds.now named.now way) }
{
    match content_of(ds, way) {
        Some(Content::Way { refs, .. }) => {
            let ids = mended_ids(ds.alloc(), named, refs.as_slice())?;
            Ok(ids.len() < 2)
        }
        _ => Ok(false),
    }
}

fn short_ways(ds: &DataSet, named: &KeySet, ways: &[Key]) -> Result<Vec<Key>, AllocError>
    ensures { IfOk result (λ short. short.items ≡ filter (falls_short ds.now named.now) ways.now) }
{
    let mut short = Vec::new(ds.alloc());
    for way in ways {
        if falls_short(ds, named, *way)? {
            short.push(*way)?;
        }
    }
    Ok(short)
}

/// Some keys and some more, as one set.
fn joined(alloc: Global, keys: &[Key], more: &[Key]) -> Result<KeySet, AllocError>
    ensures { IfOk result (λ set. set ≡ keys.now ++ more.now) }
{
    let mut all = Vec::from_slice(alloc, keys)?;
    all.extend_from_slice(more)?;
    KeySet::from_vec(all)
}

/// The named objects, and those of the ways that fall short without their named nodes. It costs the nodes of the ways.
///
/// # Errors
/// No memory was left.
pub fn falling(ds: &DataSet, named: &KeySet, ways: &[Key]) -> Result<KeySet, AllocError>
    ensures { IfOk result (λ falling. (key : Key) → is_named falling key ≡ (is_named named.now key || (falls_short ds.now named.now key && is_named ways.now key))) }
{
    let short = short_ways(ds, named, ways)?;
    joined(ds.alloc(), named.as_slice(), &short)
}

fn push_way_nodes(nodes: &mut Vec<Key>, content: Option<&Content>) -> Result<(), AllocError>
    ensures { OnOk result (nodes.new.items ≡ nodes.old.items ++ way_nodes (option_copied content.entry)) }
{
    match content {
        Some(way @ Content::Way { .. }) => push_references(way, nodes),
        _ => Ok(()),
    }
}

/// The nodes of those of the keys that are ways, in turn.
fn all_nodes(ds: &DataSet, keys: &[Key]) -> Result<Vec<Key>, AllocError>
    ensures { IfOk result (λ nodes. nodes.items ≡ flat_map (λ k. way_nodes (content_of ds.now k)) keys.now) }
{
    let mut nodes = Vec::new(ds.alloc());
    for key in keys {
        push_way_nodes(&mut nodes, content_of(ds, *key))?;
    }
    Ok(nodes)
}

fn is_bare(found: Option<&SharedEntry>) -> bool
    ensures { result ≡ is_bare (option_copied found.entry) }
{
    found.is_some_and(|entry| match entry.parts() {
        EntryParts::Known {
            mine: Some(Content::Node { tags, .. }),
            conflict: None,
            ..
        } => tags.is_empty(),
        _ => false,
    })
}

fn all_fall(falling: &KeySet, users: &[Key]) -> bool
    ensures { result ≡ list_all (is_named falling.now) users.now }
{
    users.iter().all(|user| falling.contains(*user))
}

fn is_free(ds: &DataSet, falling: &KeySet, node: Key) -> bool
    ensures { result ≡ is_free ds.now falling.now node }
{
    is_bare(ds.entry(node)) && all_fall(falling, ds.users(node))
}

fn free_nodes(ds: &DataSet, falling: &KeySet, nodes: &[Key]) -> Result<Vec<Key>, AllocError>
    ensures { IfOk result (λ free. free.items ≡ filter (is_free ds.now falling.now) nodes.now) }
{
    nodes
        .iter()
        .copied()
        .filter(|node| is_free(ds, falling, *node))
        .collect(ds.alloc())
}

/// What falls, and the bare nodes of falling ways that nothing else uses. It costs these nodes and their users.
///
/// # Errors
/// No memory was left.
pub fn going(ds: &DataSet, falling: &KeySet) -> Result<KeySet, AllocError>
    ensures { IfOk result (λ going. (key : Key) → is_named going key ≡ (is_named falling.now key || is_left_by ds.now falling.now key)) }
{
    let nodes = all_nodes(ds, falling.as_slice())?;
    let nodes = distinct(ds.alloc(), &nodes)?;
    let free = free_nodes(ds, falling, &nodes)?;
    joined(ds.alloc(), falling.as_slice(), &free)
}

fn other_relations(ds: &DataSet, falling: &KeySet, keys: &[Key]) -> Result<Vec<Key>, AllocError>
    ensures { IfOk result (λ relations. relations.items ≡ filter (λ u. not (is_named falling.now u) && lives_as_relation ds.now u) keys.now) }
{
    keys.iter()
        .copied()
        .filter(|key| !falling.contains(*key) && is_relation(ds, *key))
        .collect(ds.alloc())
}

/// The relations that don't fall and have a member that goes, each once. It costs the users of what goes.
///
/// # Errors
/// No memory was left.
pub fn losing_relations(
    ds: &DataSet,
    falling: &KeySet,
    going: &KeySet,
) -> Result<Vec<Key>, AllocError>
    ensures found { IfOk result (λ relations. (key : Key) → is_named relations.items key ≡ loses_members ds.now falling.now going.now key) }
    ensures once { IfOk result (λ relations. distinct relations.items ≡ relations.items) }
{
    let users = all_users(ds, going.as_slice())?;
    let relations = other_relations(ds, falling, &users)?;
    distinct(ds.alloc(), &relations)
}
