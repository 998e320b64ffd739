//! What an object of the map has: its tags, and its place, its references or its members.
ghost use Rattle.std.specs.Prelude.{◌≡◌, IfOk, IsTrue, ◌↔◌};
ghost use Rattle.std.specs.List.{list_any, list_all};
ghost use Rattle.osm_base.specs.Content.{kind_of_content, tags_of, refers, node, text_fits, tag_fits, role_fits, body_fits, fits};
ghost use Rattle.osm_base.specs.Rank.{is_key};
ghost use Rattle.osm_base.specs.Same.{same_content};

use crate::coord::Coord;
use crate::key::{Key, Kind, same_key};
use crate::members::{Member, Members};
use crate::place::same_place;
use crate::references::node_key;
use crate::refs::Refs;
use crate::tags::Tags;
use crate::text::Text;
use std::alloc::AllocError;

/// The most Unicode scalar values of a key, a value or a role (API 0.6).
const MOST_CHARACTERS: usize = 255;

/// The most nodes of a way (API 0.6).
const MOST_NODES: usize = 2_000;

/// The most members of a relation (API 0.6).
const MOST_MEMBERS: usize = 32_000;

/// What an object has beside its key and its metadata.
#[derive(Drop)]
pub enum Content {
    /// A node: a place.
    Node { tags: Tags, at: Coord },

    /// A way: a line or an area along nodes.
    Way { tags: Tags, refs: Refs },

    /// A relation: objects, each in a role.
    Relation { tags: Tags, members: Members },
}

impl Content {
    /// The kind of the objects that have such a content.
    pub fn kind(&self) -> Kind
        ensures { result ≡ kind_of_content self.now }
    {
        match self {
            Content::Node { .. } => Kind::Node,
            Content::Way { .. } => Kind::Way,
            Content::Relation { .. } => Kind::Relation,
        }
    }

    /// The tags.
    pub fn tags(&self) -> &Tags
        ensures { result.now ≡ tags_of self.now }
    {
        match self {
            Content::Node { tags, .. } => tags,
            Content::Way { tags, .. } => tags,
            Content::Relation { tags, .. } => tags,
        }
    }

    /// An equal content. It makes a list of its own for the tags, if there are any, and shares all else.
    ///
    /// # Errors
    /// No memory was left.
    pub fn copy(&self) -> Result<Content, AllocError>
        ensures { IfOk result (λ content. content ≡ self.now) }
    {
        match self {
            Content::Node { tags, at } => Ok(Content::Node {
                tags: tags.copy()?,
                at: *at,
            }),
            Content::Way { tags, refs } => Ok(Content::Way {
                refs: refs.copy()?,
                tags: tags.copy()?,
            }),
            Content::Relation { tags, members } => Ok(Content::Relation {
                members: members.copy()?,
                tags: tags.copy()?,
            }),
        }
    }
}

/// Whether kind, tags and body are equal. It walks both up to the first difference.
pub fn same(a: &Content, b: &Content) -> bool
    ensures value { result ≡ same_content a.now b.now }
    ensures decides { IsTrue result ↔ (a.now ≡ b.now) }
{
    match (a, b) {
        (
            Content::Node { tags, at },
            Content::Node {
                tags: others,
                at: there,
            },
        ) => { tags.same(others) && same_place(*at, *there) }
        (
            Content::Way { tags, refs },
            Content::Way {
                tags: others,
                refs: theirs,
            },
        ) => { tags.same(others) && refs.same(theirs) }
        (
            Content::Relation { tags, members },
            Content::Relation {
                tags: others,
                members: theirs,
            },
        ) => { tags.same(others) && members.same(theirs) }
        _ => false,
    }
}

/// Whether the key is a reference of the content. It walks the references up to the first match.
#[tactic(auto, using(crate::proofs::AnyMap::list_any_map))]
pub fn refers(content: &Content, key: Key) -> bool
    ensures { result ≡ refers content.now key }
{
    match content {
        Content::Node { .. } => false,
        Content::Way { refs, .. } => names_node(refs.as_slice(), key),
        Content::Relation { members, .. } => names_member(members.as_slice(), key),
    }
}

fn names_node(ids: &[i64], key: Key) -> bool
    ensures { result ≡ list_any (λ id. is_key key (node id)) ids.now }
{
    ids.iter().any(|id| same_key(key, node_key(*id)))
}

fn names_member(members: &[Member], key: Key) -> bool
    ensures { result ≡ list_any (λ member. is_key key member.key) members.now }
{
    members.iter().any(|member| same_key(key, member.key))
}

/// Whether the API takes the content (API 0.6): each key, value and role has at most 255 Unicode
/// scalar values, a way has 1 to 2,000 references, a relation at most 32,000 members.
///
/// It walks all texts of the content.
pub fn fits(content: &Content) -> bool
    ensures { result ≡ fits content.now }
{
    tags_fit(content.tags().as_slice()) && body_fits(content)
}

/// Whether the API takes the body of a content: the references of a way, the members of a relation.
///
/// It walks the roles of a relation.
pub fn body_fits(content: &Content) -> bool
    ensures { result ≡ body_fits content.now }
{
    match content {
        Content::Node { .. } => true,
        Content::Way { refs, .. } => {
            let nodes = refs.as_slice().len();
            1 <= nodes && nodes <= MOST_NODES
        }
        Content::Relation { members, .. } => {
            let members = members.as_slice();
            members.len() <= MOST_MEMBERS && roles_fit(members)
        }
    }
}

fn tags_fit(tags: &[(Text, Text)]) -> bool
    ensures { result ≡ list_all tag_fits tags.now }
{
    tags.iter()
        .all(|tag| text_fits(&tag.0) && text_fits(&tag.1))
}

fn roles_fit(members: &[Member]) -> bool
    ensures { result ≡ list_all role_fits members.now }
{
    members.iter().all(|member| text_fits(&member.role))
}

/// Whether the API takes a key, a value or a role. It walks the text.
pub fn text_fits(text: &Text) -> bool
    ensures { result ≡ text_fits text.now }
{
    text.as_str().chars().count() <= MOST_CHARACTERS
}
