//! The candidates that are held.
ghost use Rattle.std.specs.Prelude.{◌≡◌, ◌++◌, IfOk, OnOk, filter};
ghost use Rattle.std.specs.List.{flat_map};
ghost use Rattle.osm_base.specs.Rank.{is_key};
ghost use Rattle.dataset.specs.Sound.{IsSound};
ghost use Rattle.closure.specs.Closure.{has};
ghost use Rattle.merge_tool.specs.Drafts.{AreGoing, AreHeld, AreHeldEnds, AreWantedNames, NamesEnter, renewed_names};
ghost use Rattle.job_laws.specs.MergeOutcomes.{is_held_name};
ghost use Rattle.merge_tool.specs.Walks.{mine_refs};
ghost use Rattle.merge_tool.specs.Passes.{has_resting_user, held_starts};

use crate::naming::name_all;
use crate::staging::has_resting_user;
use closure::{KeySet, Links, reach};
use dataset::{DataSet, Draft};
use osm_base::Key;
use osm_table::ToldMap;
use std::alloc::AllocError;
use tool_api::{living, push_refs_by};

/// The candidates, with those to which they refer.
#[derive(Clone, Copy)]
pub struct CandidateLinks<'a> {
    pub ds: &'a DataSet,
    pub candidates: &'a KeySet,
}

impl<'a> Links for CandidateLinks<'a> {
    ghost use Rattle.merge_tool.specs.Walks.{going_links};

    ghost next = { λ s k. going_links s.candidates.now s.ds.now k };

    fn append(&self, key: Key, out: &mut Vec<Key>) -> Result<(), AllocError> {
        if self.candidates.contains(key) {
            let mut refs = Vec::new(self.ds.alloc());
            push_refs_by(living(self.ds.entry(key)), &mut refs)?;
            push_going(self.candidates, &refs, out)?;
        }
        Ok(())
    }
}

/// Appends the candidates of these keys.
fn push_going(candidates: &KeySet, keys: &[Key], out: &mut Vec<Key>) -> Result<(), AllocError>
    ensures { OnOk result (out.new.items ≡ out.old.items ++ filter (has is_key candidates.now) keys.now) }
{
    let going: Vec<Key> = keys
        .iter()
        .copied()
        .filter(|key| candidates.contains(*key))
        .collect(*out.allocator())?;
    out.extend_from_slice(&going)?;
    Ok(())
}

/// Appends those of these keys to which an object refers that is left as it is.
fn push_used(
    ds: &DataSet,
    told: &ToldMap,
    keys: &KeySet,
    out: &mut Vec<Key>,
) -> Result<(), AllocError>
    ensures { OnOk result (out.new.items ≡ out.old.items ++ filter (has_resting_user ds.now told.now.told) keys.now) }
{
    let used: Vec<Key> = keys
        .as_slice()
        .iter()
        .copied()
        .filter(|key| has_resting_user(ds, told, *key))
        .collect(*out.allocator())?;
    out.extend_from_slice(&used)?;
    Ok(())
}

/// The candidates to which one of the names refers, or an object that is left as it is. Nothing is looked at where there
/// is no candidate.
fn held_starts(
    ds: &DataSet,
    told: &ToldMap,
    candidates: &KeySet,
    names: &[Key],
    late: &[Key],
) -> Result<Vec<Key>, AllocError>
    ensures { IfOk result (λ starts. starts.items ≡ held_starts ds.now told.now.told candidates.now names.now late.now) }
{
    let mut starts = Vec::new(ds.alloc());
    if candidates.is_empty() {
        return Ok(starts);
    }
    push_going(candidates, names, &mut starts)?;
    push_going(candidates, late, &mut starts)?;
    push_used(ds, told, candidates, &mut starts)?;
    Ok(starts)
}

/// Finds the candidates that are held, by the names of renewed and of wanted objects, and sees to it that what these refer
/// to is there. One look-up for each name and each object to which a held one refers, and two for each user of a candidate;
/// none where there is no candidate.
///
/// # Errors
/// No memory was left.
pub fn hold(
    ds: &DataSet,
    told: &ToldMap,
    draft: &mut Draft,
    candidates: &KeySet,
    names: &[Key],
    late: &[Key],
) -> Result<KeySet, AllocError>
    requires sound { IsSound ds.now }
    requires candidates { AreGoing ds.now told.now candidates.now }
    requires names { names.now ≡ renewed_names ds.now told.now }
    requires late { AreWantedNames ds.now told.now late.now }
    ensures held { IfOk result (λ h. AreHeld ds.now told.now h) }
    ensures entries { IfOk result (λ h. NamesEnter ds.now (is_held_name ds.now told.now.told) draft.old draft.new) }
    ensures number { IfOk result (λ h. draft.new.next ≡ draft.old.next) }
{
    told.sound();
    let keys = held_walk(ds, told, candidates, names, late)?;
    let last = held_names(ds, &keys)?;
    let mut lost = Vec::new(ds.alloc());
    name_all(ds, draft, &last, &mut lost)?;
    Ok(keys)
}

/// The candidates at the ends of chains of candidates, to whose first one of the names refers or an object that is left as
/// it is.
///
/// # Errors
/// No memory was left.
fn held_walk(
    ds: &DataSet,
    told: &ToldMap,
    candidates: &KeySet,
    names: &[Key],
    late: &[Key],
) -> Result<KeySet, AllocError>
    ensures { IfOk result (λ marks. AreHeldEnds ds.now told.now candidates.now names.now late.now marks) }
{
    let starts = held_starts(ds, told, candidates, names, late)?;
    reach(ds.alloc(), &starts, &CandidateLinks { ds, candidates })
}

/// To what these candidates refer, each as often as it stands.
///
/// # Errors
/// No memory was left.
fn held_names(ds: &DataSet, keys: &KeySet) -> Result<Vec<Key>, AllocError>
    ensures { IfOk result (λ names. names.items ≡ flat_map (mine_refs ds.now) keys.now) }
{
    let mut names = Vec::new(ds.alloc());
    for i in 0..keys.len() {
        push_refs_by(living(ds.entry(keys[i])), &mut names)?;
    }
    Ok(names)
}
