//! The lost objects that are wanted.
ghost use Rattle.std.specs.Prelude.{◌≡◌, ◌++◌, IfOk, OnOk, filter};
ghost use Rattle.std.specs.List.{flat_map};
ghost use Rattle.dataset.specs.Draft.{drafted};
ghost use Rattle.dataset.specs.Sound.{IsSound};
ghost use Rattle.merge_tool.specs.Drafts.{AreEnds, AreWanted, AreWantedNames, BothEnter, IsStaged, renewed_names};
ghost use Rattle.merge_tool.specs.Walks.{is_lost, lost_refs, lost_links};

use crate::entries::{is_lost, lost};
use crate::naming::name_all;
use closure::{KeySet, Links, reach};
use dataset::{DataSet, Draft};
use osm_base::Key;
use osm_table::ToldMap;
use std::alloc::AllocError;
use tool_api::push_refs_by;

/// The lost objects, with the lost ones to which they would refer.
#[derive(Clone, Copy)]
pub struct LostLinks<'a> {
    pub ds: &'a DataSet,
    pub draft: &'a Draft,
}

impl<'a> Links for LostLinks<'a> {
    ghost use Rattle.dataset.specs.Draft.{drafted};
    ghost use Rattle.merge_tool.specs.Walks.{lost_links};

    ghost next = { λ s k. lost_links (drafted s.draft.now s.ds.now) k };

    fn append(&self, key: Key, out: &mut Vec<Key>) -> Result<(), AllocError> {
        let mut refs = Vec::new(self.ds.alloc());
        push_refs_by(lost(self.draft.entry(self.ds, key)), &mut refs)?;
        push_lost(self.ds, self.draft, &refs, out)
    }
}

/// Appends the lost ones of these keys.
fn push_lost(
    ds: &DataSet,
    draft: &Draft,
    keys: &[Key],
    out: &mut Vec<Key>,
) -> Result<(), AllocError>
    ensures { OnOk result (out.new.items ≡ out.old.items ++ filter (is_lost (drafted draft.now ds.now)) keys.now) }
{
    let lost: Vec<Key> = keys
        .iter()
        .copied()
        .filter(|key| is_lost(draft.entry(ds, *key)))
        .collect(*out.allocator())?;
    out.extend_from_slice(&lost)?;
    Ok(())
}

/// The lost objects that come back, and to what they refer, each as often as it stands.
#[derive(Drop)]
pub struct Wanted {
    pub keys: KeySet,
    pub names: Vec<Key>,
}

/// Sees to it that what is named is there, finds the lost objects that come back for that, and sees to it that what these
/// name is there. Two look-ups at most for each name, and one for each object that comes back.
///
/// # Errors
/// No memory was left.
pub fn want(
    ds: &DataSet,
    told: &ToldMap,
    draft: &mut Draft,
    names: &[Key],
) -> Result<Wanted, AllocError>
    requires sound { IsSound ds.now }
    requires entries { IsStaged ds.now told.now draft.old }
    requires names { names.now ≡ renewed_names ds.now told.now }
    ensures wanted { IfOk result (λ w. AreWanted ds.now told.now w.keys) }
    ensures names { IfOk result (λ w. AreWantedNames ds.now told.now w.names.items) }
    ensures entries { IfOk result (λ w. BothEnter ds.now names.now w.names.items draft.old draft.new) }
    ensures number { IfOk result (λ w. draft.new.next ≡ draft.old.next) }
{
    told.sound();
    let mut lost = Vec::new(ds.alloc());
    name_all(ds, draft, names, &mut lost)?;
    let keys = lost_walk(ds, draft, &lost)?;
    let late = lost_names(ds, draft, &keys)?;
    name_all(ds, draft, &late, &mut lost)?;
    Ok(Wanted { keys, names: late })
}

/// The lost objects at the ends of chains of lost ones. One look-up for each of them, and two at
/// most for each object to which they would refer.
///
/// # Errors
/// No memory was left.
fn lost_walk(ds: &DataSet, draft: &Draft, starts: &[Key]) -> Result<KeySet, AllocError>
    ensures { IfOk result (λ marks. AreEnds starts.now (lost_links (drafted draft.now ds.now)) marks) }
{
    reach(ds.alloc(), starts, &LostLinks { ds, draft })
}

/// To what these lost objects would refer, each as often as it stands.
///
/// # Errors
/// No memory was left.
fn lost_names(ds: &DataSet, draft: &Draft, keys: &KeySet) -> Result<Vec<Key>, AllocError>
    ensures { IfOk result (λ names. names.items ≡ flat_map (lost_refs (drafted draft.now ds.now)) keys.now) }
{
    let mut names = Vec::new(ds.alloc());
    for i in 0..keys.len() {
        push_refs_by(lost(draft.entry(ds, keys[i])), &mut names)?;
    }
    Ok(names)
}
