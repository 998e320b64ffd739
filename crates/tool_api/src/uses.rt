//! Who uses objects, and the test of it for those that a job takes away.
ghost use Rattle.std.specs.Prelude.{◌≡◌, not, IfOk};
ghost use Rattle.std.specs.List.{find, flat_map};
ghost use Rattle.osm_table.specs.Table.{users};
ghost use Rattle.tool_api.specs.Checks.{is_named, use_test, first_of};

use crate::checks::first_refusal;
use crate::key_set::KeySet;
use crate::refusal::Refusal;
use dataset::DataSet;
use osm_base::Key;
use std::alloc::AllocError;

fn first_other(users: &[Key], named: &KeySet) -> Option<Key>
    ensures { result ≡ find (λ u. not (is_named named.now u)) users.now }
{
    users.iter().copied().find(|user| !named.contains(*user))
}

/// InUse with the least user that isn't named. A look-up for each user up to that one.
pub fn use_test(ds: &DataSet, named: &KeySet, key: Key) -> Option<Refusal>
    ensures { result ≡ use_test ds.now named.now key }
{
    Some(Refusal::InUse(key, first_other(ds.users(key), named)?))
}

/// InUse for the first of the keys that has such a user.
pub fn use_tests(ds: &DataSet, named: &KeySet, keys: &[Key]) -> Option<Refusal>
    ensures { result ≡ first_of (use_test ds.now named.now) keys.now }
{
    first_refusal(keys, |key| use_test(ds, named, key))
}

/// The users of each of the keys, one after the other. It costs them all.
///
/// # Errors
/// No memory was left.
pub fn all_users(ds: &DataSet, keys: &[Key]) -> Result<Vec<Key>, AllocError>
    ensures { IfOk result (λ all. all.items ≡ flat_map (users ds.now) keys.now) }
{
    let mut all = Vec::new(ds.alloc());
    for key in keys {
        all.extend_from_slice(ds.users(*key))?;
    }
    Ok(all)
}
