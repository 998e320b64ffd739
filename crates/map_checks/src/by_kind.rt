//! The places of nodes and the references of ways, by keys whose kind is asked first.
//!
//! In a sound table an object has the kind of its key, so in a walk a key of another kind needs no look-up. A walk over keys by
//! rank finds each where it lies, behind the one before it.
ghost use Rattle.std.specs.Prelude.{◌≡◌};
ghost use Rattle.std.specs.Option.{option_copied};
ghost use Rattle.tool_api.specs.Changes.{content_of};
ghost use Rattle.tool_api.specs.Combine.{refs_at};
ghost use Rattle.tool_api.specs.Findings.{place_of, place_at};

use dataset::DataSet;
use osm_base::{Content, Coord, Key, Kind};
use std::cell::Cell;
use tool_api::{content_of, living, way_refs};

fn place_of(content: Option<&Content>) -> Option<Coord>
    ensures { result ≡ place_of (option_copied content.entry) }
{
    match content {
        Some(Content::Node { at, .. }) => Some(*at),
        _ => None,
    }
}

fn content_near<'a>(ds: &'a DataSet, near: &Cell<usize>, key: Key) -> Option<&'a Content>
    ensures { option_copied result ≡ content_of ds.now key }
{
    living(ds.entry_along(near, key))
}

/// The place of a living node. One look-up.
pub fn place_at(ds: &DataSet, key: Key) -> Option<Coord>
    ensures { result ≡ place_at ds.now key }
{
    place_of(content_of(ds, key))
}

/// As `place_at`, in a walk: a key that isn't a node's, or that came into the table behind the one that was asked for last,
/// isn't looked up.
#[tactic(auto, using(crate::proofs::OfKinds::placeless))]
pub fn place_near(ds: &DataSet, near: &Cell<usize>, key: Key) -> Option<Coord>
    ensures { result ≡ place_at ds.now key }
{
    ds.sound();
    match key.kind {
        Kind::Node => place_of(content_near(ds, near, key)),
        Kind::Way | Kind::Relation => None,
    }
}

/// The references of a living way, and none of anything else, in a walk: a key that isn't a way's, or that came into the table
/// behind the one that was asked for last, isn't looked up.
#[tactic(auto, using(crate::proofs::OfKinds::without_refs))]
pub fn refs_near<'a>(ds: &'a DataSet, near: &Cell<usize>, key: Key) -> &'a [i64]
    ensures { result.now ≡ refs_at ds.now key }
{
    ds.sound();
    match key.kind {
        Kind::Way => way_refs(content_near(ds, near, key)),
        Kind::Node | Kind::Relation => &[],
    }
}
