//! The draft of a split: the relations, the way, the new ways.
ghost use Rattle.std.specs.Prelude.{◌≡◌, ◌≤◌, ◌^◌, map, IfOk, OnOk};
ghost use Rattle.osm_base.specs.declared.content.Content.TheVariants.{Way};
ghost use Rattle.dataset.specs.Draft.{drafted};
ghost use Rattle.dataset.specs.Sound.{IsSound};
ghost use Rattle.tool_api.specs.Basic.{with_members};
ghost use Rattle.tool_api.specs.Changes.{all_added};
ghost use Rattle.tool_api.specs.Split.{others, relations_of, tags_at, split_table};
ghost use Rattle.tool_api.specs.Upkeep.{replaced};
ghost use Rattle.relation_upkeep.specs.Replace.{piece_values};

use crate::parts::{kept_refs, pieces_of};
use dataset::{DataSet, Draft};
use osm_base::{Content, Key, Members, Refs, Tags, same_key};
use relation_upkeep::{Piece, replace_member};
use std::alloc::AllocError;
use tool_api::{EditContent, NewNodes, add_new, content_of, edit_all, is_relation};

fn with_members(content: Content, new: Members) -> Content
    ensures { result ≡ with_members (λ _. new) content }
{
    match content {
        Content::Relation { tags, .. } => Content::Relation { tags, members: new },
        other => other,
    }
}

/// Relations take the pieces for the way.
#[derive(Drop)]
struct TakePieces<'a> {
    ds: &'a DataSet,
    way: Key,
    pieces: &'a [Piece],
}

impl EditContent for TakePieces<'_> {
    ghost edited = { λ r c. replaced r.ds.now r.way (piece_values r.pieces.now) c };

    fn edit(&self, content: Content) -> Result<Content, AllocError> {
        let members = replace_member(&content, self.way, self.pieces, self.ds)?;
        Ok(with_members(content, members))
    }
}

/// The living relations that refer to the way, by rank.
fn relations_of(ds: &DataSet, way: Key) -> Result<Vec<Key>, AllocError>
    ensures { IfOk result (λ keys. keys.items ≡ relations_of ds.now way) }
{
    ds.users(way)
        .iter()
        .copied()
        .filter(|key| is_relation(ds, *key))
        .collect(ds.alloc())
}

/// The tags of a living object.
fn tags_at(ds: &DataSet, key: Key) -> Result<Tags, AllocError>
    ensures { IfOk result (λ tags. tags ≡ tags_at ds.now key) }
{
    match content_of(ds, key) {
        None => Ok(Tags::new(ds.alloc())),
        Some(content) => content.tags().copy(),
    }
}

/// Puts the parts that don't stay in the way into the draft, as new ways with the tags.
fn add_others(
    draft: &mut Draft,
    ds: &DataSet,
    way: Key,
    parts: &[(Key, Refs)],
) -> Result<(), AllocError>
    requires low { 1 ≤ draft.old.next }
    requires high { draft.old.next ≤ 10 ^ 18 }
    ensures { OnOk result (drafted draft.new ds.now ≡ all_added (drafted draft.old ds.now) (map (λ p. Way (tags_at ds.now way) p.1) (others way parts.now))) }
{
    let tags = tags_at(ds, way)?;
    for part in parts {
        if same_key(way, part.0) {
            continue;
        }
        let content = Content::Way {
            tags: tags.copy()?,
            refs: part.1.copy()?,
        };
        add_new(draft, content)?;
    }
    Ok(())
}

/// The draft of a split into parts. It costs the relations that name the way, and the parts.
///
/// # Errors
/// No memory was left.
pub fn split_draft(ds: &DataSet, way: Key, parts: &[(Key, Refs)]) -> Result<Draft, AllocError>
    requires { IsSound ds.now }
    ensures { IfOk result (λ draft. drafted draft ds.now ≡ split_table ds.now way parts.now) }
{
    let mut draft = Draft::new(ds);
    let relations = relations_of(ds, way)?;
    let pieces = pieces_of(ds.alloc(), way, parts)?;
    let take = TakePieces {
        ds,
        way,
        pieces: &pieces,
    };
    edit_all(ds, &relations, &take, &mut draft)?;
    let refs = kept_refs(ds.alloc(), way, parts)?;
    edit_all(ds, &[way], &NewNodes { refs: &refs }, &mut draft)?;
    add_others(&mut draft, ds, way, parts)?;
    Ok(draft)
}
