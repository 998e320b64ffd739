//! Keys that refer to found ones, and those to which found ones refer.
ghost use Rattle.std.specs.Prelude.{◌≡◌, ◌++◌, IfOk, OnOk};
ghost use Rattle.std.specs.List.{filter, flat_map, list_any};
ghost use Rattle.std.specs.Option.{option_copied};
ghost use Rattle.closure.specs.Closure.{has};
ghost use Rattle.dataset.specs.Exact.{refs_at};
ghost use Rattle.osm_base.specs.Content.{node, refs_of};
ghost use Rattle.osm_base.specs.Rank.{is_key};
ghost use Rattle.osm_base.specs.RisingKeys.{is_in};
ghost use Rattle.osm_table.specs.Table.{entry_of};

use closure::KeySet;
use dataset::DataSet;
use osm_base::{Content, Key, Kind, Member, node_key, push_references};
use osm_table::SharedEntry;
use std::alloc::{AllocError, Global};
use std::cell::Cell;

/// The keys to which a found one refers. It costs the references of the found ones, which it makes a hashed set of, and
/// asks each key whether it is among them.
pub fn children(ds: &DataSet, keys: &[Key], found: &[Key]) -> Result<Vec<Key>, AllocError>
    ensures { IfOk result (λ met. met.items ≡ filter (λ k. list_any (λ user. is_in k (refs_at (entry_of ds.now user))) found.now) keys.now) }
{
    let refs = references(ds, found)?;
    let set = KeySet::from_vec(refs)?;
    those_among(ds.alloc(), keys, &set)
}

fn those_among(alloc: Global, keys: &[Key], set: &KeySet) -> Result<Vec<Key>, AllocError>
    ensures { IfOk result (λ met. met.items ≡ filter (has is_key set.now) keys.now) }
{
    keys.iter()
        .copied()
        .filter(|key| set.contains(*key))
        .collect(alloc)
}

/// To what the living objects of the keys refer, one after the other.
fn references(ds: &DataSet, keys: &[Key]) -> Result<Vec<Key>, AllocError>
    ensures { IfOk result (λ refs. refs.items ≡ flat_map (λ k. refs_at (entry_of ds.now k)) keys.now) }
{
    let near = Cell::new(0);
    let mut refs = Vec::new(ds.alloc());
    for key in keys {
        push_references_of(ds, &near, *key, &mut refs)?;
    }
    Ok(refs)
}

/// Appends to what the key's object refers, if it lives. Nodes refer to nothing, so a node's key isn't looked up.
#[tactic(auto, using(crate::proofs::OfKinds::nodes_have_no_refs))]
fn push_references_of(
    ds: &DataSet,
    near: &Cell<usize>,
    key: Key,
    refs: &mut Vec<Key>,
) -> Result<(), AllocError>
    ensures { OnOk result (refs.new.items ≡ refs.old.items ++ refs_at (entry_of ds.now key)) }
{
    ds.sound();
    match key.kind {
        Kind::Node => Ok(()),
        Kind::Way | Kind::Relation => push_living(ds.entry_along(near, key), refs),
    }
}

fn push_living(entry: Option<&SharedEntry>, refs: &mut Vec<Key>) -> Result<(), AllocError>
    ensures { OnOk result (refs.new.items ≡ refs.old.items ++ refs_at (option_copied entry.entry)) }
{
    let Some(entry) = entry else {
        return Ok(());
    };
    match entry.mine() {
        None => Ok(()),
        Some(content) => push_references(content, refs),
    }
}

/// The keys of living objects that refer to a found one. It makes a hashed set of the found ones, and asks each reference
/// of the ways and relations, up to the first, whether it is among them.
pub fn parents(ds: &DataSet, keys: &[Key], found: &[Key]) -> Result<Vec<Key>, AllocError>
    ensures { IfOk result (λ met. met.items ≡ filter (λ k. list_any (λ of. is_in of found.now) (refs_at (entry_of ds.now k))) keys.now) }
{
    let found = KeySet::from_slice(ds.alloc(), found)?;
    users_of(ds, keys, &found)
}

fn users_of(ds: &DataSet, keys: &[Key], found: &KeySet) -> Result<Vec<Key>, AllocError>
    ensures { IfOk result (λ met. met.items ≡ filter (λ k. list_any (has is_key found.now) (refs_at (entry_of ds.now k))) keys.now) }
{
    let near = Cell::new(0);
    keys.iter()
        .copied()
        .filter(|key| is_user(ds, &near, *key, found))
        .collect(ds.alloc())
}

/// Whether the key's object lives and refers to a found one. Nodes refer to nothing, so a node's key isn't looked up.
#[tactic(auto, using(crate::proofs::OfKinds::nodes_have_no_refs))]
fn is_user(ds: &DataSet, near: &Cell<usize>, key: Key, found: &KeySet) -> bool
    ensures { result ≡ list_any (has is_key found.now) (refs_at (entry_of ds.now key)) }
{
    ds.sound();
    match key.kind {
        Kind::Node => false,
        Kind::Way | Kind::Relation => refers_among(ds.entry_along(near, key), found),
    }
}

fn refers_among(entry: Option<&SharedEntry>, found: &KeySet) -> bool
    ensures { result ≡ list_any (has is_key found.now) (refs_at (option_copied entry.entry)) }
{
    entry.is_some_and(|entry| match entry.mine() {
        None => false,
        Some(content) => has_reference_among(content, found),
    })
}

#[tactic(auto, using(osm_base::proofs::AnyMap::list_any_map))]
fn has_reference_among(content: &Content, found: &KeySet) -> bool
    ensures { result ≡ list_any (has is_key found.now) (refs_of content.now) }
{
    match content {
        Content::Node { .. } => false,
        Content::Way { refs, .. } => any_node_among(refs.as_slice(), found),
        Content::Relation { members, .. } => any_member_among(members.as_slice(), found),
    }
}

fn any_node_among(ids: &[i64], found: &KeySet) -> bool
    ensures { result ≡ list_any (λ id. has is_key found.now (node id)) ids.now }
{
    ids.iter().any(|id| found.contains(node_key(*id)))
}

fn any_member_among(members: &[Member], found: &KeySet) -> bool
    ensures { result ≡ list_any (λ member. has is_key found.now member.key) members.now }
{
    members.iter().any(|member| found.contains(member.key))
}
