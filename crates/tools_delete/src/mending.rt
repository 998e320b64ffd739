//! What erasing leaves of ways and relations.
ghost use Rattle.std.specs.Prelude.{◌≡◌, not, IfOk};
ghost use Rattle.std.specs.List.{filter};
ghost use Rattle.osm_base.specs.Content.{node};
ghost use Rattle.tool_api.specs.Basic.{with_refs, with_members};
ghost use Rattle.tool_api.specs.Gone.{mended, members_without};
ghost use Rattle.tool_api.specs.Checks.{is_named};

use osm_base::{Content, Refs, node_key};
use relation_upkeep::drop_members;
use std::alloc::{AllocError, Global};
use tool_api::{EditContent, KeySet};

fn other_ids(alloc: Global, named: &KeySet, ids: &[i64]) -> Result<Vec<i64>, AllocError>
    ensures { IfOk result (λ left. left.items ≡ filter (λ n. not (is_named named.now (node n))) ids.now) }
{
    ids.iter()
        .copied()
        .filter(|id| !named.contains(node_key(*id)))
        .collect(alloc)
}

/// The ids without the named nodes, and of those that stay none that equals the one just before it. A look-up each.
///
/// # Errors
/// No memory was left.
pub fn mended_ids(alloc: Global, named: &KeySet, ids: &[i64]) -> Result<Vec<i64>, AllocError>
    ensures { IfOk result (λ left. left.items ≡ mended named.now ids.now) }
{
    let mut left = other_ids(alloc, named, ids)?;
    left.dedup();
    Ok(left)
}

/// Ways are mended: they lose the named nodes.
#[derive(Drop)]
pub struct Mend<'a> {
    pub alloc: Global,
    pub named: &'a KeySet,
}

impl<'a> EditContent for Mend<'a> {
    ghost edited = { λ rule. with_refs (mended rule.named.now) };

    fn edit(&self, content: Content) -> Result<Content, AllocError> {
        match content {
            Content::Way { tags, refs } => {
                let left = mended_ids(self.alloc, self.named, refs.as_slice())?;
                Ok(Content::Way {
                    tags,
                    refs: Refs::from_vec(left)?,
                })
            }
            other => Ok(other),
        }
    }
}

/// Relations lose the members that go.
#[derive(Drop)]
pub struct Lose<'a> {
    pub alloc: Global,
    pub going: &'a KeySet,
}

impl<'a> EditContent for Lose<'a> {
    ghost edited = { λ rule. with_members (members_without (is_named rule.going.now)) };

    fn edit(&self, content: Content) -> Result<Content, AllocError> {
        match content {
            Content::Relation { tags, members } => Ok(Content::Relation {
                tags,
                members: drop_members(self.alloc, &members, self.going)?,
            }),
            other => Ok(other),
        }
    }
}
