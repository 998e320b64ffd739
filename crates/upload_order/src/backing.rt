//! Who can vouch for what is sent.
//!
//! An object vouches for an Incomplete one to which its base refers, if it doesn't live or still refers to it. So it is changed,
//! or it is among the users of what it vouches for: none of the others has to be asked.
ghost use Rattle.std.specs.Prelude.{◌≡◌, [], IfOk, OnOk};
ghost use Rattle.osm_base.specs.Order.{ranked};
ghost use Rattle.osm_table.specs.Table.{entry_of, is_incomplete};
ghost use Rattle.upload_order.specs.Kinds.{at_key};
ghost use Rattle.upload_order.specs.Marked.{with_marked, with_unknown, with_users, vouchers};
ghost use Rattle.upload_order.specs.Refused.{refs_sent};

use crate::kinds::{is_incomplete, is_sent};
use crate::marking::push_if;
use dataset::DataSet;
use osm_base::{Key, push_references, ranked};
use std::alloc::{AllocError, Global};

/// The changed objects, and those that refer to an Incomplete one to which something that is sent refers, by rank. Costs a
/// look-up for each reference of what is sent, and a sort of what it finds.
///
/// # Errors
/// No memory was left.
pub fn vouchers(alloc: Global, ds: &DataSet, changed: &[Key]) -> Result<Vec<Key>, AllocError>
    ensures { IfOk result (λ keys. keys.items ≡ vouchers ds.now changed.now) }
{
    let unknown = unknown_sent(alloc, ds, changed)?;
    let mut keys = Vec::from_slice(alloc, changed)?;
    push_users(ds, &unknown, &mut keys)?;
    ranked(keys)
}

fn push_users(ds: &DataSet, of: &[Key], keys: &mut Vec<Key>) -> Result<(), AllocError>
    ensures { OnOk result (keys.new.items ≡ with_users ds.now keys.old.items of.now) }
{
    for key in of {
        keys.extend_from_slice(ds.users(*key))?;
    }
    Ok(())
}

/// The Incomplete objects to which something that is sent refers, by rank.
fn unknown_sent(alloc: Global, ds: &DataSet, changed: &[Key]) -> Result<Vec<Key>, AllocError>
    ensures { IfOk result (λ keys. keys.items ≡ ranked (with_unknown ds.now [] changed.now)) }
{
    let unknown = list_unknown(alloc, ds, changed)?;
    ranked(unknown)
}

fn list_unknown(alloc: Global, ds: &DataSet, changed: &[Key]) -> Result<Vec<Key>, AllocError>
    ensures { IfOk result (λ keys. keys.items ≡ with_unknown ds.now [] changed.now) }
{
    let mut unknown = Vec::new(alloc);
    let mut refs = Vec::new(alloc);
    for key in changed {
        list_sent(ds, *key, &mut refs)?;
        push_unknown(ds, &refs, &mut unknown)?;
    }
    Ok(unknown)
}

/// To what is sent of an object refers, in a list whose memory is used again.
fn list_sent(ds: &DataSet, key: Key, refs: &mut Vec<Key>) -> Result<(), AllocError>
    ensures { OnOk result (refs.new.items ≡ refs_sent (entry_of ds.now key)) }
{
    refs.clear();
    let Some(entry) = ds.entry(key) else {
        return Ok(());
    };
    if !is_sent(entry) {
        return Ok(());
    }
    match entry.mine() {
        None => Ok(()),
        Some(content) => push_references(content, refs),
    }
}

fn push_unknown(ds: &DataSet, refs: &[Key], unknown: &mut Vec<Key>) -> Result<(), AllocError>
    ensures { OnOk result (unknown.new.items ≡ with_marked (at_key ds.now is_incomplete) unknown.old.items refs.now) }
{
    for of in refs {
        push_if(unknown, *of, is_incomplete(ds, *of))?;
    }
    Ok(())
}
