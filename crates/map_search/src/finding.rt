//! The keys that meet a query.
ghost use Rattle.std.specs.Prelude.{◌≡◌, ◌≤◌, IfOk};
ghost use Rattle.std.specs.List.{filter};
ghost use Rattle.osm_table.specs.Table.{keys_by_rank};
ghost use Rattle.map_search.specs.Meets.{meets, found};
ghost use Rattle.map_search.specs.Query.{depth};

use crate::passes::{changed, deleted, in_conflict, incomplete, new_ones, of_kind, tagged};
use crate::query::{Form, Query};
use crate::relatives::{children, parents};
use crate::sets::{others, those_of};
use dataset::DataSet;
use osm_base::{Key, Keys};
use std::alloc::AllocError;

/// The keys of the table that meet the query, by rank, each once.
///
/// Where the keys of the table stand by rank they are lent, and else sorted once. Each word of the query costs at most one
/// pass over them: `and` asks its right side only of what met the left one, and what `child` and `parent` stand before is
/// asked of all. A pass goes over the entries where they lie, so it looks none of them up whose key came behind the one
/// before it; one by a kind looks at keys alone. `child` makes a hashed set of what the found ones refer to, `parent`,
/// `not` and `or` one of the found ones. That costs a hash for each of them, and one for each key or reference that is
/// asked whether it is among them. It calls itself once for each level of the query, which bounds the stack that it takes.
///
/// # Errors
/// No memory was left.
pub fn find(ds: &DataSet, query: &Query) -> Result<Keys, AllocError>
    requires shallow { depth query.now ≤ 1100 }
    ensures { IfOk result (λ keys. keys ≡ found ds.now query.now) }
{
    let keys = ds.ordered()?;
    Ok(Keys::from_vec(meeting(ds, keys.as_slice(), keys.as_slice(), query)?))
}

/// Those of the keys that meet the query. It calls itself once for each level of the query.
fn meeting(ds: &DataSet, all: &[Key], keys: &[Key], query: &Query) -> Result<Vec<Key>, AllocError>
    requires shallow { depth query.now ≤ 1100 }
    requires all { all.now ≡ keys_by_rank ds.now }
    ensures { IfOk result (λ met. met.items ≡ filter (λ k. meets ds.now k query.now) keys.now) }
{
    match &query.form {
        Form::OfKind(kind) => of_kind(ds.alloc(), keys, *kind),
        Form::Tag { key: tag, value } => tagged(ds, keys, tag, value),
        Form::IsNew => new_ones(ds, keys),
        Form::IsChanged => changed(ds, keys),
        Form::IsDeleted => deleted(ds, keys),
        Form::IsIncomplete => incomplete(ds, keys),
        Form::HasConflict => in_conflict(ds, keys),
        Form::Child(of) => children(ds, keys, &meeting(ds, all, all, of)?),
        Form::Parent(of) => parents(ds, keys, &meeting(ds, all, all, of)?),
        Form::Not(of) => others(ds.alloc(), keys, &meeting(ds, all, keys, of)?),
        Form::And(left, right) => meeting(ds, all, &meeting(ds, all, keys, left)?, right),
        Form::Or(left, right) => {
            let left = meeting(ds, all, keys, left)?;
            let right = meeting(ds, all, keys, right)?;
            those_of(ds.alloc(), keys, &left, &right)
        }
    }
}
