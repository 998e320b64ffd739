//! The living contents of a data set, lent.
ghost use Rattle.std.specs.Prelude.{◌≡◌, ◌++◌, false, IfOk, OnOk};
ghost use Rattle.std.specs.Option.{option_copied, option_and_then, option_map_or};
ghost use Rattle.osm_table.specs.Table.{mine_of};
ghost use Rattle.tool_api.specs.Changes.{content_of};
ghost use Rattle.tool_api.specs.Combine.{refs_at};
ghost use Rattle.tool_api.specs.Gone.{is_relation};
ghost use Rattle.tool_api.specs.Split.{way_refs};
ghost use Rattle.tool_api.specs.Staged.{refs_by};

use dataset::DataSet;
use osm_base::{Content, Key, push_references};
use osm_table::SharedEntry;
use std::alloc::AllocError;

/// The content of an entry whose object lives, and none of any other.
pub fn living(found: Option<&SharedEntry>) -> Option<&Content>
    ensures { option_copied result ≡ option_and_then mine_of (option_copied found.entry) }
{
    found?.mine()
}

/// The living content of a key. One look-up.
pub fn content_of(ds: &DataSet, key: Key) -> Option<&Content>
    ensures { option_copied result ≡ content_of ds.now key }
{
    living(ds.entry(key))
}

/// Whether the key's object lives as a relation. One look-up.
pub fn is_relation(ds: &DataSet, key: Key) -> bool
    ensures { result ≡ option_map_or is_relation (content_of ds.now key) false }
{
    matches!(content_of(ds, key), Some(Content::Relation { .. }))
}

/// The references of a way, and none of anything else.
pub fn way_refs(content: Option<&Content>) -> &[i64]
    ensures { result.now ≡ way_refs (option_copied content.entry) }
{
    match content {
        Some(Content::Way { refs, .. }) => refs.as_slice(),
        _ => &[],
    }
}

/// The references of a living way, and none of anything else. One look-up.
pub fn refs_at(ds: &DataSet, key: Key) -> &[i64]
    ensures { result.now ≡ refs_at ds.now key }
{
    way_refs(content_of(ds, key))
}

/// Appends all to which a content refers, if there is one, each as often as it stands.
///
/// # Errors
/// No memory was left.
pub fn push_refs_by(content: Option<&Content>, out: &mut Vec<Key>) -> Result<(), AllocError>
    ensures { OnOk result (out.new.items ≡ out.old.items ++ refs_by (option_copied content.entry)) }
{
    match content {
        None => Ok(()),
        Some(content) => push_references(content, out),
    }
}

/// A copy of a content, if there is one.
///
/// # Errors
/// No memory was left.
pub fn copied(content: Option<&Content>) -> Result<Option<Content>, AllocError>
    ensures { IfOk result (λ copy. copy ≡ option_copied content.entry) }
{
    match content {
        None => Ok(None),
        Some(content) => Ok(Some(content.copy()?)),
    }
}
