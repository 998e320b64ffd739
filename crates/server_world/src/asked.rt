//! What changes meet at a server.
//!
//! A server of all bases takes as much memory as the table. But a change looks at few of its objects: at the one that it is of,
//! at those to which its content refers, and, where it deletes, at those that refer to its object. These stand by their bases.
//! One of which nothing is known stands where a base refers to it: that of one of its users, or of something that is changed.
ghost use Rattle.std.specs.Prelude.{◌≡◌, [], IfOk, OnOk};
ghost use Rattle.osm_base.specs.Order.{ranked};
ghost use Rattle.server_world.specs.Asked.{with_asked, with_deleted, with_each, with_users, with_unknown, keys_met};

use crate::bases::is_known;
use dataset::DataSet;
use osm_base::{Key, push_references, ranked};
use std::alloc::{AllocError, Global};
use upload_order::{Change, changed_keys};

/// The keys of what changes meet at the server of the bases, by rank. It looks at each entry once, as `changed_keys` does;
/// beside that it costs a look-up for each key that it gives, and a sort of these.
///
/// # Errors
/// No memory was left.
pub fn keys_met(ds: &DataSet, changes: &[Change]) -> Result<Vec<Key>, AllocError>
    ensures { IfOk result (λ keys. keys.items ≡ keys_met ds.now changes.now) }
{
    let asked = keys_asked(ds.alloc(), changes)?;
    let deleted = keys_deleted(ds.alloc(), changes)?;
    let mut keys = changed_keys(ds)?;
    push_asked(ds, &asked, &mut keys)?;
    push_deleted(ds, &deleted, &mut keys)?;
    ranked(keys)
}

/// The keys of what gets a content, and to what that refers, by rank.
fn keys_asked(alloc: Global, changes: &[Change]) -> Result<Vec<Key>, AllocError>
    ensures { IfOk result (λ keys. keys.items ≡ ranked (with_each with_asked [] changes.now)) }
{
    let keys = list_asked(alloc, changes)?;
    ranked(keys)
}

fn list_asked(alloc: Global, changes: &[Change]) -> Result<Vec<Key>, AllocError>
    ensures { IfOk result (λ keys. keys.items ≡ with_each with_asked [] changes.now) }
{
    let mut keys = Vec::new(alloc);
    for change in changes {
        push_asked_by(change, &mut keys)?;
    }
    Ok(keys)
}

fn push_asked_by(change: &Change, keys: &mut Vec<Key>) -> Result<(), AllocError>
    ensures { OnOk result (keys.new.items ≡ with_asked keys.old.items change.now) }
{
    match change {
        Change::Create { content, .. } => push_references(content, keys),
        Change::Modify { key, content, .. } => {
            keys.push(*key)?;
            push_references(content, keys)
        }
        Change::Delete { .. } => Ok(()),
    }
}

/// The keys of what is deleted, by rank.
fn keys_deleted(alloc: Global, changes: &[Change]) -> Result<Vec<Key>, AllocError>
    ensures { IfOk result (λ keys. keys.items ≡ ranked (with_each with_deleted [] changes.now)) }
{
    let keys = list_deleted(alloc, changes)?;
    ranked(keys)
}

fn list_deleted(alloc: Global, changes: &[Change]) -> Result<Vec<Key>, AllocError>
    ensures { IfOk result (λ keys. keys.items ≡ with_each with_deleted [] changes.now) }
{
    let mut keys = Vec::new(alloc);
    for change in changes {
        push_deleted_by(change, &mut keys)?;
    }
    Ok(keys)
}

fn push_deleted_by(change: &Change, keys: &mut Vec<Key>) -> Result<(), AllocError>
    ensures { OnOk result (keys.new.items ≡ with_deleted keys.old.items change.now) }
{
    if let Change::Delete { key, .. } = change {
        keys.push(*key)?;
    }
    Ok(())
}

fn push_asked(ds: &DataSet, asked: &[Key], keys: &mut Vec<Key>) -> Result<(), AllocError>
    ensures { OnOk result (keys.new.items ≡ with_each (with_unknown ds.now) keys.old.items asked.now) }
{
    for key in asked {
        push_unknown(ds, *key, keys)?;
    }
    Ok(())
}

fn push_unknown(ds: &DataSet, key: Key, keys: &mut Vec<Key>) -> Result<(), AllocError>
    ensures { OnOk result (keys.new.items ≡ with_unknown ds.now keys.old.items key) }
{
    if is_known(ds.entry(key)) {
        keys.push(key)?;
        return Ok(());
    }
    push_with_users(ds, key, keys)
}

fn push_deleted(ds: &DataSet, deleted: &[Key], keys: &mut Vec<Key>) -> Result<(), AllocError>
    ensures { OnOk result (keys.new.items ≡ with_each (with_users ds.now) keys.old.items deleted.now) }
{
    for key in deleted {
        push_with_users(ds, *key, keys)?;
    }
    Ok(())
}

fn push_with_users(ds: &DataSet, key: Key, keys: &mut Vec<Key>) -> Result<(), AllocError>
    ensures { OnOk result (keys.new.items ≡ with_users ds.now keys.old.items key) }
{
    keys.push(key)?;
    keys.extend_from_slice(ds.users(key))?;
    Ok(())
}
