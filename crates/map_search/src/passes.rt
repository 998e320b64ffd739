//! Those of some keys whose kind or entry is as a query asks, in one pass over them.
ghost use Rattle.std.specs.Prelude.{◌≡◌, IfOk};
ghost use Rattle.std.specs.List.{filter};
ghost use Rattle.osm_table.specs.Table as table;
ghost use Rattle.map_search.specs.Meets as meets;
ghost use Rattle.map_search.specs.Meets.{entry_is, same_kind};

use crate::states::{begins_new, has_conflict, is_changed, is_deleted, is_incomplete, is_tagged};
use dataset::DataSet;
use osm_base::{Key, Kind, Text};
use std::alloc::{AllocError, Global};
use std::cell::Cell;

/// The keys of the kind.
pub fn of_kind(alloc: Global, keys: &[Key], kind: Kind) -> Result<Vec<Key>, AllocError>
    ensures { IfOk result (λ met. met.items ≡ filter (λ k. same_kind kind k.kind) keys.now) }
{
    keys.iter()
        .copied()
        .filter(|key| key.kind == kind)
        .collect(alloc)
}

/// The keys of living objects that have the tag, with the value or any.
pub fn tagged(
    ds: &DataSet,
    keys: &[Key],
    tag: &Text,
    value: &Option<Text>,
) -> Result<Vec<Key>, AllocError>
    ensures { IfOk result (λ met. met.items ≡ filter (λ k. entry_is ds.now k (meets.is_tagged tag.now value.now)) keys.now) }
{
    let near = Cell::new(0);
    keys.iter()
        .copied()
        .filter(|key| is_tagged(ds.entry_along(&near, *key), tag, value))
        .collect(ds.alloc())
}

pub fn new_ones(ds: &DataSet, keys: &[Key]) -> Result<Vec<Key>, AllocError>
    ensures { IfOk result (λ met. met.items ≡ filter (λ k. entry_is ds.now k meets.begins_new) keys.now) }
{
    let near = Cell::new(0);
    keys.iter()
        .copied()
        .filter(|key| begins_new(ds.entry_along(&near, *key)))
        .collect(ds.alloc())
}

pub fn changed(ds: &DataSet, keys: &[Key]) -> Result<Vec<Key>, AllocError>
    ensures { IfOk result (λ met. met.items ≡ filter (λ k. entry_is ds.now k table.is_changed) keys.now) }
{
    let near = Cell::new(0);
    keys.iter()
        .copied()
        .filter(|key| is_changed(ds.entry_along(&near, *key)))
        .collect(ds.alloc())
}

pub fn deleted(ds: &DataSet, keys: &[Key]) -> Result<Vec<Key>, AllocError>
    ensures { IfOk result (λ met. met.items ≡ filter (λ k. entry_is ds.now k meets.is_deleted) keys.now) }
{
    let near = Cell::new(0);
    keys.iter()
        .copied()
        .filter(|key| is_deleted(ds.entry_along(&near, *key)))
        .collect(ds.alloc())
}

pub fn incomplete(ds: &DataSet, keys: &[Key]) -> Result<Vec<Key>, AllocError>
    ensures { IfOk result (λ met. met.items ≡ filter (λ k. entry_is ds.now k table.is_incomplete) keys.now) }
{
    let near = Cell::new(0);
    keys.iter()
        .copied()
        .filter(|key| is_incomplete(ds.entry_along(&near, *key)))
        .collect(ds.alloc())
}

pub fn in_conflict(ds: &DataSet, keys: &[Key]) -> Result<Vec<Key>, AllocError>
    ensures { IfOk result (λ met. met.items ≡ filter (λ k. entry_is ds.now k meets.has_conflict) keys.now) }
{
    let near = Cell::new(0);
    keys.iter()
        .copied()
        .filter(|key| has_conflict(ds.entry_along(&near, *key)))
        .collect(ds.alloc())
}
