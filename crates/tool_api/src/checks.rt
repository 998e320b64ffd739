//! The tests that jobs share. Each gives the first refusal in the fixed order, or none.
ghost use Rattle.std.specs.Prelude.{◌≡◌, [], Option, IfOk};
ghost use Rattle.std.specs.List.{find};
ghost use Rattle.std.specs.Option.{option_copied};
ghost use Rattle.osm_base.specs.Content.{node};
ghost use Rattle.osm_base.specs.declared.key.Key.{Key};
ghost use Rattle.osm_table.specs.Table.{entry_of};
ghost use Rattle.tool_api.specs.Split.{complete_test, is_incomplete};
ghost use Rattle.tool_api.specs.declared.refusal.Refusal.{Refusal};
ghost use Rattle.tool_api.specs.Checks.{is_named, entry_test, target_test, twice_test, list_tests, ref_entry_test, ref_tests, first_of};

use crate::kinds::Kinds;
use crate::refusal::Refusal;
use closure::KeySet;
use dataset::DataSet;
use osm_base::{Key, node_key, same_key};
use osm_table::{EntryParts, SharedEntry};
use std::alloc::{AllocError, Global};

/// Whether the key is one of those. It walks them up to the first match.
pub fn is_named(keys: &[Key], key: Key) -> bool
    ensures { result ≡ is_named keys.now key }
{
    keys.iter().any(|named| same_key(key, *named))
}

/// The first refusal of a test, object by object in the order given.
pub fn first_refusal<F: Fn(Key) -> Option<Refusal>>(keys: &[Key], test: F) -> Option<Refusal>
    requires { F.IsAlwaysCallable test }
    // So it is for the function that the test computes.
    ensures { (expected : Key → Option Refusal) → ((k : Key) (r : Option Refusal) → F.post test k r → r ≡ expected k) → result ≡ first_of expected keys.now }
{
    for key in keys {
        if let Some(refusal) = test(*key) {
            return Some(refusal);
        }
    }
    None
}

fn entry_test(kinds: Kinds, key: Key, found: Option<&SharedEntry>) -> Option<Refusal>
    ensures { result ≡ entry_test kinds key (option_copied found.entry) }
{
    let Some(entry) = found else {
        return Some(Refusal::Absent(key));
    };
    match entry.parts() {
        EntryParts::Incomplete => Some(Refusal::IncompleteObject(key)),
        EntryParts::Known { mine: None, .. } => Some(Refusal::DeletedObject(key)),
        EntryParts::Known { conflict, .. } => {
            if !kinds.takes(key.kind) {
                return Some(Refusal::WrongKind(key));
            }
            match conflict {
                None => None,
                Some(_) => Some(Refusal::InConflict(key)),
            }
        }
    }
}

/// The target tests of one object: Absent, IncompleteObject, DeletedObject, WrongKind, InConflict. One look-up.
pub fn target_test(ds: &DataSet, kinds: Kinds, key: Key) -> Option<Refusal>
    ensures { result ≡ target_test ds.now kinds key }
{
    entry_test(kinds, key, ds.entry(key))
}

/// The target tests of each of the objects, in the order given. A look-up each.
pub fn target_tests(ds: &DataSet, kinds: Kinds, keys: &[Key]) -> Option<Refusal>
    ensures { result ≡ first_of (target_test ds.now kinds) keys.now }
{
    first_refusal(keys, |key| target_test(ds, kinds, key))
}

/// NamedTwice for the first key that repeats one before it. It hashes each key once.
///
/// # Errors
/// No memory was left.
pub fn twice_test(alloc: Global, keys: &[Key]) -> Result<Option<Refusal>, AllocError>
    ensures { IfOk result (λ r. r ≡ twice_test [] keys.now) }
{
    let mut seen = KeySet::new(alloc);
    let test = seen_test(&mut seen, keys);
    // Dropped by a call: on a way out, the code of all that a set owns would be written out.
    drop(seen);
    test
}

/// As `twice_test`, with a set that has none of the keys yet.
fn seen_test(seen: &mut KeySet, keys: &[Key]) -> Result<Option<Refusal>, AllocError>
    requires { seen.old ≡ [] }
    ensures { IfOk result (λ r. r ≡ twice_test [] keys.now) }
{
    for key in keys {
        if !seen.put(*key)? {
            return Ok(Some(Refusal::NamedTwice(*key)));
        }
    }
    Ok(None)
}

/// The list tests: NamedTwice, then the target tests object by object. A hash and a look-up each.
///
/// # Errors
/// No memory was left.
pub fn list_tests(ds: &DataSet, kinds: Kinds, keys: &[Key]) -> Result<Option<Refusal>, AllocError>
    ensures { IfOk result (λ r. r ≡ list_tests ds.now kinds keys.now) }
{
    if let Some(refusal) = twice_test(ds.alloc(), keys)? {
        return Ok(Some(refusal));
    }
    Ok(target_tests(ds, kinds, keys))
}

/// The reference test of one key: Absent, DeletedObject. One look-up.
pub fn reference_test(ds: &DataSet, key: Key) -> Option<Refusal>
    ensures { result ≡ ref_entry_test key (entry_of ds.now key) }
{
    let Some(entry) = ds.entry(key) else {
        return Some(Refusal::Absent(key));
    };
    match entry.parts() {
        EntryParts::Known { mine: None, .. } => Some(Refusal::DeletedObject(key)),
        _ => None,
    }
}

/// The reference tests, reference by reference: Absent, DeletedObject. A look-up each.
pub fn reference_tests(ds: &DataSet, refs: &[Key]) -> Option<Refusal>
    ensures { result ≡ ref_tests ds.now refs.now }
{
    first_refusal(refs, |key| reference_test(ds, key))
}

fn is_incomplete(found: Option<&SharedEntry>) -> bool
    ensures { result ≡ is_incomplete (option_copied found.entry) }
{
    found.is_some_and(|entry| entry.is_incomplete())
}

fn first_incomplete(ds: &DataSet, refs: &[i64]) -> Option<i64>
    ensures { result ≡ find (λ n. is_incomplete (entry_of ds.now (node n))) refs.now }
{
    refs.iter()
        .copied()
        .find(|id| is_incomplete(ds.entry(node_key(*id))))
}

/// IncompleteObject with the first of a way's nodes that is Incomplete. A look-up each.
pub fn complete_test(ds: &DataSet, refs: &[i64]) -> Option<Refusal>
    ensures { result ≡ complete_test ds.now refs.now }
{
    Some(Refusal::IncompleteObject(node_key(first_incomplete(ds, refs)?)))
}
