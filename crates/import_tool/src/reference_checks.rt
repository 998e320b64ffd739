//! The tests of what the objects of a file refer to.
ghost use Rattle.std.specs.Prelude.{◌≡◌, ◌++◌, IfOk, OnOk};
ghost use Rattle.tool_api.specs.Checks.{first_of};
ghost use Rattle.tool_api.specs.Import.{file_reference_test, references};
ghost use Rattle.import_tool.specs.Known.{has};

use crate::new_keys::NewKeys;
use dataset::DataSet;
use osm_base::{Key, push_references};
use std::alloc::AllocError;
use tool_api::{NewObject, Refusal, reference_test};

/// One reference: one hashed look-up, or one in the table.
fn file_reference_test(ds: &DataSet, names: &NewKeys, key: Key) -> Option<Refusal>
    ensures { result ≡ file_reference_test ds.now (has names.now.keys.entries) key }
{
    if key.id >= 0 {
        return reference_test(ds, key);
    }
    if names.has(key) {
        return None;
    }
    Some(Refusal::Absent(key))
}

fn first_refusal(ds: &DataSet, names: &NewKeys, keys: &[Key]) -> Option<Refusal>
    ensures { result ≡ first_of (file_reference_test ds.now (has names.now.keys.entries)) keys.now }
{
    for key in keys {
        if let Some(refusal) = file_reference_test(ds, names, *key) {
            return Some(refusal);
        }
    }
    None
}

/// All that the objects refer to, object by object.
///
/// # Errors
/// No memory was left.
fn references(objects: &[NewObject], keys: &mut Vec<Key>) -> Result<(), AllocError>
    ensures { OnOk result (keys.new.items ≡ keys.old.items ++ references objects.now) }
{
    for object in objects {
        push_references(&object.content, keys)?;
    }
    Ok(())
}

/// The reference tests of the objects, one after the other. It costs a look-up for each reference.
///
/// # Errors
/// No memory was left.
pub fn reference_tests(
    ds: &DataSet,
    names: &NewKeys,
    objects: &[NewObject],
) -> Result<Option<Refusal>, AllocError>
    ensures { IfOk result (λ r. r ≡ first_of (file_reference_test ds.now (has names.now.keys.entries)) (references objects.now)) }
{
    let mut keys = Vec::new(ds.alloc());
    references(objects, &mut keys)?;
    Ok(first_refusal(ds, names, &keys))
}
