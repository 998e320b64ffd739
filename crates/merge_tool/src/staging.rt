//! The outcome of each case.
ghost use Rattle.std.specs.Prelude.{◌≡◌, ◌++◌, ◌∷◌, [], Some, IfOk, OnOk, filter};
ghost use Rattle.std.specs.Option.{option_copied, option_or};
ghost use Rattle.std.specs.FinMap as map;
ghost use Rattle.osm_table.specs.Table.{TableValue};
ghost use Rattle.osm_table.specs.Told.{told_of, told_at, entry_told};
ghost use Rattle.dataset.specs.Draft.{drafted};
ghost use Rattle.dataset.specs.Sound.{IsSound};
ghost use Rattle.tool_api.specs.Staged.{is_candidate, is_clash, refs_by};
ghost use Rattle.merge_tool.specs.Drafts.{IsStaged, StagesNext, clashing_keys, renewed_names, going_keys};
ghost use Rattle.merge_tool.specs.Passes.{noted, new_bared, renewed_mine, renewed_refs, is_resting, has_resting_user, is_going, is_clashing};

use crate::entries::{is_gone, rests, staged};
use dataset::{DataSet, Draft};
use merge_cases::{Verdict, decide};
use osm_base::Key;
use osm_table::{SharedEntry, Told, ToldMap};
use std::alloc::AllocError;
use std::cell::Cell;
use tool_api::{living, push_refs_by};

/// What the cases make of all that is told, one by one.
#[derive(Drop)]
pub struct Staging {
    /// The new entries.
    pub draft: Draft,
    /// To what the renewed objects refer, each as often as it stands: those that their cases change, and that are no
    /// candidates. What the others refer to was there before.
    pub names: Vec<Key>,
    /// The candidates to go.
    pub candidates: Vec<Key>,
    /// The objects of which one version is told in two ways.
    pub clashes: Vec<Key>,
}

impl Staging {
    /// The outcome of each case. One decision for each key that is told of, and one look-up where it doesn't stand behind
    /// the one before it in the table: over two lists by rank it is one pass along both. An object that is left as it is
    /// costs a comparison of versions.
    ///
    /// # Errors
    /// No memory was left.
    pub fn of(ds: &DataSet, told: &ToldMap) -> Result<Staging, AllocError>
        ensures entries { IfOk result (λ s. IsStaged ds.now told.now s.draft) }
        ensures names { IfOk result (λ s. s.names.items ≡ renewed_names ds.now told.now) }
        ensures candidates { IfOk result (λ s. s.candidates.items ≡ going_keys ds.now told.now) }
        ensures clashes { IfOk result (λ s. s.clashes.items ≡ clashing_keys ds.now told.now) }
        ensures number { IfOk result (λ s. s.draft.next ≡ ds.now.next) }
    {
        let mut staging = Staging {
            draft: empty_draft(ds, told)?,
            names: Vec::new(ds.alloc()),
            candidates: Vec::new(ds.alloc()),
            clashes: Vec::new(ds.alloc()),
        };
        let near = Cell::new(0);
        ds.sound();
        for i in 0..told.len() {
            let (key, news) = told.entry_at(i);
            staging.stage(ds, told, &near, key, news)?;
        }
        told.sound();
        Ok(staging)
    }

    fn stage(
        &mut self,
        ds: &DataSet,
        told: &ToldMap,
        near: &Cell<usize>,
        key: Key,
        news: &SharedEntry,
    ) -> Result<(), AllocError>
        requires sound { IsSound ds.now }
        requires told { told_at told.now key ≡ Some (told_of news.now) }
        requires news { entry_told (told_of news.now) ≡ news.now }
        ensures entries { OnOk result (StagesNext ds.now told.now key self.old.draft self.new.draft) }
        ensures names { OnOk result (self.new.names.items ≡ self.old.names.items ++ renewed_refs ds.now told.now.told key) }
        ensures candidates { OnOk result (self.new.candidates.items ≡ self.old.candidates.items ++ filter (is_going ds.now told.now.told) (key ∷ [])) }
        ensures clashes { OnOk result (self.new.clashes.items ≡ self.old.clashes.items ++ filter (is_clashing ds.now told.now.told) (key ∷ [])) }
        ensures number { OnOk result (self.new.draft.next ≡ self.old.draft.next) }
    {
        let old = ds.entry_along(near, key);
        let verdict = decide(old, news);
        push_if_going(verdict, key, &mut self.candidates)?;
        push_if_clashing(verdict, key, &mut self.clashes)?;
        let new = staged(ds.alloc(), verdict, old, news)?;
        push_renewed(verdict, after(old, &new), &mut self.names)?;
        let new = bared(ds, told, key, new)?;
        note(&mut self.draft, key, new)?;
        Ok(())
    }
}

/// A draft that changes nothing. It has room for all that is told where nothing is known, since all of it enters then.
///
/// # Errors
/// No memory was left.
fn empty_draft(ds: &DataSet, told: &ToldMap) -> Result<Draft, AllocError>
    ensures { IfOk result (λ draft. draft ≡ record { puts = map.empty; next = ds.now.next }) }
{
    if ds.len() == 0 {
        Draft::with_capacity(ds, told.len())
    } else {
        Ok(Draft::new(ds))
    }
}

/// The entry after its case.
fn after<'a>(old: Option<&'a SharedEntry>, new: &'a Option<SharedEntry>) -> Option<&'a SharedEntry>
    ensures { option_copied result ≡ option_or new.now (option_copied old.entry) }
{
    match new {
        Some(entry) => Some(entry),
        None => old,
    }
}

fn push_if_going(verdict: Verdict, key: Key, out: &mut Vec<Key>) -> Result<(), AllocError>
    ensures { OnOk result (out.new.items ≡ out.old.items ++ filter (λ k. is_candidate verdict) (key ∷ [])) }
{
    match verdict {
        Verdict::Candidate => {
            out.push(key)?;
            Ok(())
        }
        _ => Ok(()),
    }
}

fn push_if_clashing(verdict: Verdict, key: Key, out: &mut Vec<Key>) -> Result<(), AllocError>
    ensures { OnOk result (out.new.items ≡ out.old.items ++ filter (λ k. is_clash verdict) (key ∷ [])) }
{
    match verdict {
        Verdict::Clash => {
            out.push(key)?;
            Ok(())
        }
        _ => Ok(()),
    }
}

fn push_renewed(
    verdict: Verdict,
    after: Option<&SharedEntry>,
    out: &mut Vec<Key>,
) -> Result<(), AllocError>
    ensures { OnOk result (out.new.items ≡ out.old.items ++ refs_by (renewed_mine verdict (option_copied after.entry))) }
{
    match verdict {
        Verdict::Stay | Verdict::Candidate => Ok(()),
        _ => push_refs_by(living(after), out),
    }
}

/// Puts a new entry, if there is one.
fn note(draft: &mut Draft, key: Key, entry: Option<SharedEntry>) -> Result<(), AllocError>
    ensures table { OnOk result ((t : TableValue) → drafted draft.new t ≡ noted (drafted draft.old t) key entry) }
    ensures number { OnOk result (draft.new.next ≡ draft.old.next) }
{
    match entry {
        None => Ok(()),
        Some(entry) => {
            draft.put_shared(key, Some(entry))?;
            Ok(())
        }
    }
}

/// A new entry, if there is one: Incomplete where it is gone on both sides and an object that is left as it is refers to it.
fn bared(
    ds: &DataSet,
    told: &ToldMap,
    key: Key,
    new: Option<SharedEntry>,
) -> Result<Option<SharedEntry>, AllocError>
    ensures { IfOk result (λ bare. bare ≡ new_bared (has_resting_user ds.now told.now.told key) new) }
{
    match new {
        Some(entry) if is_gone(&entry) && has_resting_user(ds, told, key) => {
            Ok(Some(SharedEntry::told(ds.alloc(), Told::Mentioned)?))
        }
        _ => Ok(new),
    }
}

/// Whether an object that is left as it is refers to the key. One look-up, and two for each object that refers to it.
pub fn has_resting_user(ds: &DataSet, told: &ToldMap, key: Key) -> bool
    ensures { result ≡ has_resting_user ds.now told.now.told key }
{
    ds.users(key).iter().any(|user| is_resting(ds, told, *user))
}

/// Whether an object is left as it is: nothing is told of it, or nothing new.
#[tactic(auto, using(crate::proofs::Rests::untold_rests, crate::proofs::Rests::news_case))]
fn is_resting(ds: &DataSet, told: &ToldMap, key: Key) -> bool
    ensures { result ≡ is_resting ds.now told.now.told key }
{
    match told.get(key) {
        None => true,
        Some(news) => rests(ds.entry(key), news),
    }
}
