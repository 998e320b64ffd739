//! The parts of an upload.
ghost use Rattle.std.specs.Prelude.{◌≡◌, IfOk};
ghost use Rattle.std.specs.List.{filter};
ghost use Rattle.upload_order.specs.Part.{changed_keys, in_part, is_part, keys_in};

use crate::kinds::{is_falling, is_rising, is_update};
use dataset::DataSet;
use osm_base::{Key, Kind};
use osm_table::SharedEntry;
use std::alloc::{AllocError, Global};

/// A part of an upload: objects of one kind that are sent in one way.
#[derive(Clone, Copy)]
pub enum Part {
    RisingNodes,
    RisingWays,
    RisingRelations,
    /// Objects of all kinds that the server has with another content.
    Updates,
    FallingRelations,
    FallingWays,
    FallingNodes,
}

fn is_part(part: Part, kind: Kind, entry: &SharedEntry) -> bool
    ensures { result ≡ is_part part kind entry.now }
{
    match (part, kind) {
        (Part::RisingNodes, Kind::Node) => is_rising(entry),
        (Part::RisingWays, Kind::Way) => is_rising(entry),
        (Part::RisingRelations, Kind::Relation) => is_rising(entry),
        (Part::Updates, _) => is_update(entry),
        (Part::FallingRelations, Kind::Relation) => is_falling(entry),
        (Part::FallingWays, Kind::Way) => is_falling(entry),
        (Part::FallingNodes, Kind::Node) => is_falling(entry),
        _ => false,
    }
}

fn in_part(ds: &DataSet, part: Part, key: Key) -> bool
    ensures { result ≡ in_part ds.now part key }
{
    match ds.entry(key) {
        None => false,
        Some(entry) => is_part(part, key.kind, entry),
    }
}

fn those_in(alloc: Global, ds: &DataSet, keys: &[Key], part: Part) -> Result<Vec<Key>, AllocError>
    ensures { IfOk result (λ list. list.items ≡ filter (in_part ds.now part) keys.now) }
{
    keys.iter()
        .filter(|key| in_part(ds, part, **key))
        .copied()
        .collect(alloc)
}

/// The keys of a part, by rank. It asks the changed ones alone.
///
/// # Errors
/// No memory was left.
pub fn part_of(
    alloc: Global,
    ds: &DataSet,
    changed: &[Key],
    part: Part,
) -> Result<Vec<Key>, AllocError>
    requires { changed.now ≡ changed_keys ds.now }
    ensures { IfOk result (λ list. list.items ≡ keys_in ds.now part) }
{
    let keys = those_in(alloc, ds, changed, part)?;
    Ok(keys)
}
