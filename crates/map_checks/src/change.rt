//! The change that fuses nodes, as a draft.
ghost use Rattle.std.specs.Prelude.{◌≡◌, ◌&&◌, not, IfOk, OnOk};
ghost use Rattle.std.specs.List.{filter};
ghost use Rattle.std.specs.FinMap as fin;
ghost use Rattle.std.specs.Ordering.{int_eq};
ghost use Rattle.osm_base.specs.Rank.{is_key};
ghost use Rattle.dataset.specs.Draft.{drafted};
ghost use Rattle.tool_api.specs.Basic.{with_refs};
ghost use Rattle.tool_api.specs.Changes.{changed, edit, delete};
ghost use Rattle.tool_api.specs.Combine.{all_tags, united};
ghost use Rattle.tool_api.specs.Fuse.{fused, fused_content, without_runs, users_among};

use dataset::{DataSet, Draft};
use osm_base::{Content, Key, Refs, Tags, ranked};
use relation_upkeep::other_keys;
use renamed_content::{Renaming, renamed};
use std::alloc::{AllocError, Global};
use tool_api::{EditContent, KeySet, all_users, delete_all, edit_all};

/// What keys are called when nodes become one: each of the nodes as the kept one.
#[derive(Drop)]
struct FusedKeys<'a> {
    nodes: &'a KeySet,
    kept: Key,
}

impl<'a> Renaming for FusedKeys<'a> {
    ghost use Rattle.tool_api.specs.Fuse.{fused_key};

    ghost key_named = { λ names. fused_key names.nodes.now names.kept };

    fn key(&self, key: Key) -> Key {
        if self.nodes.contains(key) {
            self.kept
        } else {
            key
        }
    }
}

fn are_both(a: i64, b: i64, id: i64) -> bool
    ensures { result ≡ (int_eq a id && int_eq b id) }
{
    a == id && b == id
}

/// The references with a single one of each run of the node side by side.
fn without_runs(alloc: Global, id: i64, refs: &[i64]) -> Result<Vec<i64>, AllocError>
    ensures { IfOk result (λ left. left.items ≡ without_runs id refs.now) }
{
    let mut left = Vec::from_slice(alloc, refs)?;
    left.dedup_by(|a, b| are_both(*a, *b, id));
    Ok(left)
}

/// What becomes of those that refer to the nodes: they refer to the kept one, a way once for each run of it.
#[derive(Drop)]
struct ReferToKept<'a> {
    alloc: Global,
    names: FusedKeys<'a>,
}

impl<'a> EditContent for ReferToKept<'a> {
    ghost use Rattle.tool_api.specs.Fuse.{fused_content};

    ghost edited = { λ rule. fused_content rule.names.nodes.now rule.names.kept };

    fn edit(&self, content: Content) -> Result<Content, AllocError> {
        // Here and below what isn't handed on is dropped by a call: on a way out, all that it owns would be written out.
        match renamed(self.alloc, &content, &self.names) {
            Ok(moved) => {
                drop(content);
                single_runs(self.alloc, self.names.kept.id, moved)
            }
            Err(fault) => {
                drop(content);
                Err(fault)
            }
        }
    }
}

/// The content, where a way refers once to the node for each run of it.
fn single_runs(alloc: Global, id: i64, content: Content) -> Result<Content, AllocError>
    ensures { IfOk result (λ left. left ≡ with_refs (without_runs id) content) }
{
    match content {
        Content::Way { tags, refs } => match refs_without_runs(alloc, id, &refs) {
            Ok(left) => {
                drop(refs);
                Ok(Content::Way { tags, refs: left })
            }
            Err(fault) => {
                drop(tags);
                drop(refs);
                Err(fault)
            }
        },
        other => Ok(other),
    }
}

fn refs_without_runs(alloc: Global, id: i64, refs: &Refs) -> Result<Refs, AllocError>
    ensures { IfOk result (λ left. left ≡ without_runs id refs.now) }
{
    let left = without_runs(alloc, id, refs.as_slice())?;
    Ok(Refs::from_vec(left)?)
}

/// What becomes of the kept node: it has all tags.
#[derive(Drop)]
struct HaveTags {
    tags: Tags,
}

impl EditContent for HaveTags {
    ghost use Rattle.tool_api.specs.Basic.{with_tags};

    ghost edited = { λ rule. with_tags (λ _. rule.tags) };

    fn edit(&self, content: Content) -> Result<Content, AllocError> {
        match self.tags.copy() {
            Ok(tags) => match content {
                Content::Node { at, .. } => Ok(Content::Node { tags, at }),
                Content::Way { refs, .. } => Ok(Content::Way { tags, refs }),
                Content::Relation { members, .. } => Ok(Content::Relation { tags, members }),
            },
            Err(fault) => {
                drop(content);
                Err(fault)
            }
        }
    }
}

/// The living ways and relations that refer to one of the nodes, by rank. It sorts the users of the nodes once.
fn users_among(ds: &DataSet, nodes: &[Key]) -> Result<Vec<Key>, AllocError>
    ensures { IfOk result (λ keys. keys.items ≡ users_among ds.now nodes.now) }
{
    ranked(all_users(ds, nodes)?)
}

/// The draft in which the users of the nodes refer to the kept one, the others are deleted, and the kept one has the tags. It
/// costs the nodes and their users, with the references of each.
///
/// # Errors
/// No memory was left.
pub fn fused(ds: &DataSet, nodes: &[Key], kept: Key, tags: Tags) -> Result<Draft, AllocError>
    requires tags { tags ≡ united (all_tags ds.now nodes.now) }
    ensures { IfOk result (λ draft. drafted draft ds.now ≡ fused ds.now nodes.now kept) }
{
    let mut draft = Draft::new(ds);
    fuse_onto(ds, nodes, kept, &HaveTags { tags }, &mut draft)?;
    Ok(draft)
}

/// As `fused`, onto a draft that changes nothing. It is lent, as the tags are, so that the steps have no more to drop.
fn fuse_onto(
    ds: &DataSet,
    nodes: &[Key],
    kept: Key,
    rule: &HaveTags,
    draft: &mut Draft,
) -> Result<(), AllocError>
    requires tags { rule.now.tags ≡ united (all_tags ds.now nodes.now) }
    requires none { draft.old ≡ record { puts = fin.empty; next = ds.now.next } }
    ensures { OnOk result (drafted draft.new ds.now ≡ fused ds.now nodes.now kept) }
{
    refer_to_kept(ds, nodes, kept, draft)?;
    delete_others(ds, nodes, kept, draft)?;
    edit_all(ds, &[kept], rule, draft)
}

/// Puts the users of the nodes into the draft, which refer to the kept one then.
fn refer_to_kept(
    ds: &DataSet,
    nodes: &[Key],
    kept: Key,
    draft: &mut Draft,
) -> Result<(), AllocError>
    ensures { OnOk result (drafted draft.new ds.now ≡ changed (drafted draft.old ds.now) (edit ds.now (fused_content nodes.now kept)) (users_among ds.now nodes.now)) }
{
    let alloc = ds.alloc();
    let users = users_among(ds, nodes)?;
    let named = KeySet::from_slice(alloc, nodes)?;
    let names = FusedKeys {
        nodes: &named,
        kept,
    };
    edit_all(ds, &users, &ReferToKept { alloc, names }, draft)
}

/// Puts the other nodes into the draft, as deleted.
fn delete_others(
    ds: &DataSet,
    nodes: &[Key],
    kept: Key,
    draft: &mut Draft,
) -> Result<(), AllocError>
    ensures { OnOk result (drafted draft.new ds.now ≡ changed (drafted draft.old ds.now) (delete ds.now) (filter (λ k. not (is_key kept k)) nodes.now)) }
{
    let others = other_keys(ds.alloc(), nodes, kept)?;
    delete_all(ds, &others, draft)
}
