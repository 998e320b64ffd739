//! What an object refers to.
ghost use Rattle.std.specs.Prelude.{◌≡◌, ◌++◌, map, OnOk};
ghost use Rattle.osm_base.specs.Content.{node, refs_of};

use crate::content::Content;
use crate::key::{Key, Kind};
use crate::members::Member;
use std::alloc::AllocError;

/// The key of the node with this id.
pub fn node_key(id: i64) -> Key
    ensures { result ≡ node id }
{
    Key {
        kind: Kind::Node,
        id,
    }
}

/// Appends what the content refers to, in order, each as often as it stands there: the nodes of a way, and the members
/// of a relation.
///
/// # Errors
/// No memory was left.
pub fn push_references(content: &Content, keys: &mut Vec<Key>) -> Result<(), AllocError>
    ensures { OnOk result (keys.new.items ≡ keys.old.items ++ refs_of content.now) }
{
    match content {
        Content::Node { .. } => Ok(()),
        Content::Way { refs, .. } => push_nodes(refs.as_slice(), keys),
        Content::Relation { members, .. } => push_members(members.as_slice(), keys),
    }
}

fn push_nodes(ids: &[i64], keys: &mut Vec<Key>) -> Result<(), AllocError>
    ensures { OnOk result (keys.new.items ≡ keys.old.items ++ map node ids.now) }
{
    for id in ids {
        keys.push(node_key(*id))?;
    }
    Ok(())
}

fn push_members(members: &[Member], keys: &mut Vec<Key>) -> Result<(), AllocError>
    ensures { OnOk result (keys.new.items ≡ keys.old.items ++ map (λ member. member.key) members.now) }
{
    for member in members {
        keys.push(member.key)?;
    }
    Ok(())
}
