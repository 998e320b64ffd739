//! Why a table is not sent.
ghost use Rattle.std.specs.Prelude.{◌≡◌, ◌&&◌, [], map, IfOk, OnOk};
ghost use Rattle.std.specs.List.{find};
ghost use Rattle.std.specs.Option.{option_copied};
ghost use Rattle.osm_base.specs.Content.{node, refs_of};
ghost use Rattle.osm_table.specs.Table.{entry_of, is_incomplete};
ghost use Rattle.upload_order.specs.Counts.{put_where};
ghost use Rattle.upload_order.specs.Kinds.{at_key, held_list};
ghost use Rattle.upload_order.specs.Part.{changed_keys};
ghost use Rattle.upload_order.specs.Refused.{open_of, keeps_at, vouched_among, is_loose_in, loose_among, loose_refusal, stuck_of};
ghost use Rattle.upload_order.specs.Pieces.{loose_of};

use crate::backing::vouchers;
use crate::kinds::{held_at, is_incomplete, is_sent};
use crate::rank_set::RankSet;
use crate::refusal::PlanRefusal;
use dataset::DataSet;
use osm_base::{Content, Key, Keys, Member, node_key, push_references};
use std::alloc::{AllocError, Global};

/// That there are conflicts, if there are.
pub fn open_refusal(keys: &[Key]) -> Option<PlanRefusal>
    ensures { result ≡ open_of keys.now }
{
    match keys {
        [] => None,
        [first, ..] => Some(PlanRefusal::Conflicts {
            count: keys.len() as u64,
            first: *first,
        }),
    }
}

/// Whether an object that doesn't live or still refers to the key.
fn keeps(ds: &DataSet, key: Key, of: Key) -> bool
    ensures { result ≡ keeps_at ds.now key of }
{
    match ds.entry(key) {
        None => false,
        Some(entry) => !entry.is_living() || ds.is_user(of, key),
    }
}

/// Adds those of the references that are Incomplete and that the object keeps.
fn put_kept(ds: &DataSet, vouched: &mut RankSet, key: Key, refs: &[Key]) -> Result<(), AllocError>
    ensures { OnOk result (vouched.new ≡ put_where (λ r. at_key ds.now is_incomplete r && keeps_at ds.now key r) vouched.old refs.now) }
{
    for of in refs {
        let test = is_incomplete(ds, *of) && keeps(ds, key, *of);
        vouched.put_if(*of, test)?;
    }
    Ok(())
}

/// To what the base of a key refers, in a list whose memory is used again.
fn list_held(ds: &DataSet, key: Key, refs: &mut Vec<Key>) -> Result<(), AllocError>
    ensures { OnOk result (refs.new.items ≡ held_list ds.now key) }
{
    refs.clear();
    match held_at(ds.entry(key)) {
        None => Ok(()),
        Some(content) => push_references(content, refs),
    }
}

/// Adds the Incomplete keys that an object vouches for. Costs a look-up for each reference of a base, and for each Incomplete
/// one a search among its users.
fn put_vouched(
    alloc: Global,
    ds: &DataSet,
    keys: &[Key],
    vouched: &mut RankSet,
) -> Result<(), AllocError>
    ensures { OnOk result (vouched.new ≡ vouched_among ds.now vouched.old keys.now) }
{
    let mut refs = Vec::new(alloc);
    for key in keys {
        list_held(ds, *key, &mut refs)?;
        put_kept(ds, vouched, *key, &refs)?;
    }
    Ok(())
}

fn is_loose(ds: &DataSet, vouched: &RankSet, key: Key) -> bool
    ensures { result ≡ is_loose_in ds.now vouched.now key }
{
    is_incomplete(ds, key) && !vouched.contains(key)
}

fn loose_node(ds: &DataSet, vouched: &RankSet, ids: &[i64]) -> Option<Key>
    ensures { result ≡ find (is_loose_in ds.now vouched.now) (map node ids.now) }
{
    for id in ids {
        let key = node_key(*id);
        if is_loose(ds, vouched, key) {
            return Some(key);
        }
    }
    None
}

fn loose_member(ds: &DataSet, vouched: &RankSet, members: &[Member]) -> Option<Key>
    ensures { result ≡ find (is_loose_in ds.now vouched.now) (map (λ m. m.key) members.now) }
{
    for member in members {
        if is_loose(ds, vouched, member.key) {
            return Some(member.key);
        }
    }
    None
}

/// The first reference of a content that is loose.
fn loose_in(ds: &DataSet, vouched: &RankSet, content: &Content) -> Option<Key>
    ensures { result ≡ find (is_loose_in ds.now vouched.now) (refs_of content.now) }
{
    match content {
        Content::Node { .. } => None,
        Content::Way { refs, .. } => loose_node(ds, vouched, refs.as_slice()),
        Content::Relation { members, .. } => loose_member(ds, vouched, members.as_slice()),
    }
}

/// The first reference of what is sent of an object that is loose.
fn loose_of(ds: &DataSet, vouched: &RankSet, key: Key) -> Option<Key>
    ensures { result ≡ loose_of (is_loose_in ds.now vouched.now) ds.now key }
{
    let Some(entry) = ds.entry(key) else {
        return None;
    };
    if !is_sent(entry) {
        return None;
    }
    match entry.mine() {
        None => None,
        Some(content) => loose_in(ds, vouched, content),
    }
}

fn loose_among(ds: &DataSet, vouched: &RankSet, keys: &[Key]) -> Option<PlanRefusal>
    ensures { result ≡ loose_among (is_loose_in ds.now vouched.now) ds.now keys.now }
{
    for key in keys {
        if let Some(of) = loose_of(ds, vouched, *key) {
            return Some(PlanRefusal::IncompleteRef { key: *key, of });
        }
    }
    None
}

/// That something is sent that refers to what may not stand at the server, if it is so. The keys are those of all that is
/// changed. Costs a look-up for each reference of what is sent; and where one of these is Incomplete, one for each reference of
/// the bases of what is changed and of what refers to such an object.
///
/// # Errors
/// No memory was left.
pub fn loose_refusal(
    alloc: Global,
    ds: &DataSet,
    changed: &[Key],
) -> Result<Option<PlanRefusal>, AllocError>
    requires { changed.now ≡ changed_keys ds.now }
    ensures { IfOk result (λ r. r ≡ loose_refusal ds.now) }
{
    if loose_among(ds, &RankSet::new(alloc), changed).is_none() {
        return Ok(None);
    }
    let keys = vouchers(alloc, ds, changed)?;
    let mut vouched = RankSet::new(alloc);
    put_vouched(alloc, ds, &keys, &mut vouched)?;
    Ok(loose_among(ds, &vouched, changed))
}

/// That new relations refer to each other, if some are stuck.
pub fn stuck_refusal(stuck: Vec<Key>) -> Option<PlanRefusal>
    ensures { result ≡ stuck_of stuck.items }
{
    if stuck.is_empty() {
        return None;
    }
    Some(PlanRefusal::Cyclic {
        keys: Keys::from_vec(stuck),
    })
}
