//! The references of one object, as pairs of an index.
ghost use Rattle.std.specs.Prelude.{◌≡◌, ◌+◌, ◌≤◌, OnOk, OnErr};
ghost use Rattle.std.specs.Option.{option_copied};
ghost use Rattle.ref_index.specs.declared.pair.Pair.{Pair};
ghost use Rattle.ref_index.specs.Bag.{count, times};
ghost use Rattle.upload_order.specs.Pieces.{content_in};
ghost use Rattle.server_world.specs.Indexed.{pairs_of};

use crate::entry::WorldEntry;
use dataset::{add_content, take_content};
use osm_base::{Content, Key};
use ref_index::RefIndex;
use std::alloc::AllocError;

/// Adds the references of an object, each as often as it stands, or none of them. Costs the index
/// one pair a reference.
///
/// # Errors
/// No memory was left, and each pair is there as often as it was.
pub fn add_object(
    index: &mut RefIndex,
    user: Key,
    entry: Option<&WorldEntry>,
) -> Result<(), AllocError>
    ensures ok { OnOk result ((p : Pair) → count index.new p ≡ times p (pairs_of user (option_copied entry.entry)) + count index.old p) }
    ensures err { OnErr result ((p : Pair) → count index.new p ≡ count index.old p) }
{
    match content_in(entry) {
        Some(content) => add_content(index, user, content),
        None => Ok(()),
    }
}

/// Takes the references of an object, which are there. Costs what adding them does, and takes no
/// memory.
pub fn take_object(index: &mut RefIndex, user: Key, entry: Option<&WorldEntry>)
    requires { (p : Pair) → times p (pairs_of user (option_copied entry)) ≤ count index.old p }
    ensures { (p : Pair) → times p (pairs_of user (option_copied entry.entry)) + count index.new p ≡ count index.old p }
{
    if let Some(content) = content_in(entry) {
        take_content(index, user, content);
    }
}

/// The content of an object, if it stands and isn't deleted.
fn content_in(entry: Option<&WorldEntry>) -> Option<&Content>
    ensures { option_copied result ≡ content_in (option_copied entry.entry) }
{
    match entry {
        Some(entry) => entry.content(),
        None => None,
    }
}
