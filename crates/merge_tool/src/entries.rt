//! What a merge makes of one entry.
ghost use Rattle.std.specs.Prelude.{◌≡◌, ◌&&◌, not, is_some, Some, IfOk};
ghost use Rattle.std.specs.Option.{option_copied};
ghost use Rattle.osm_table.specs.Told.{told_of, entry_told};
ghost use Rattle.merge_cases.specs.Case.{verdict_of, version_case, mention_case};
ghost use Rattle.tool_api.specs.Staged.{theirs_told, against, withdrawn, with_theirs, all_joined, back, lost_of, is_dead};
ghost use Rattle.merge_tool.specs.Passes.{CaseGives, rests, says_nothing, are_alike};

use merge_cases::{Verdict, joined};
use osm_base::Content;
use osm_table::{Base, Conflict, Entry, EntryParts, Shared, SharedEntry, Why};
use std::alloc::{AllocError, Global};
use tool_api::copied;

/// Whether what is told leaves an object as it is, as its case says. It compares versions, and no contents.
pub fn rests(old: Option<&SharedEntry>, news: &SharedEntry) -> bool
    ensures { result ≡ rests (verdict_of (option_copied old.entry) (told_of news.now)) }
{
    match news.parts() {
        EntryParts::Incomplete => rests_when_mentioned(old),
        EntryParts::Known { base, .. } => match base {
            Base::New => rests_when_mentioned(old),
            Base::Live {
                version,
                content,
                ..
            } => rests_by(old, *version, Some(content)),
            Base::Gone { version, .. } => rests_by(old, *version, None),
        },
    }
}

fn rests_when_mentioned(old: Option<&SharedEntry>) -> bool
    ensures { result ≡ rests (mention_case (option_copied old.entry)) }
{
    old.is_some()
}

fn rests_by(old: Option<&SharedEntry>, version: u32, theirs: Option<&Content>) -> bool
    ensures { result ≡ rests (version_case (option_copied old.entry) version (option_copied theirs.entry)) }
{
    match old {
        None => false,
        Some(old) => rests_known(old, version, theirs),
    }
}

#[tactic(auto, using(crate::proofs::Rests::rests_some, crate::proofs::Rests::rests_none))]
fn rests_known(old: &SharedEntry, version: u32, theirs: Option<&Content>) -> bool
    ensures { result ≡ rests (version_case (Some old.now) version (option_copied theirs.entry)) }
{
    match old.known_side() {
        None => false,
        Some(known) => says_nothing(known, version, theirs),
    }
}

/// Whether a version and what it holds say nothing new of an object whose known side is this one.
fn says_nothing(known: &Base, version: u32, theirs: Option<&Content>) -> bool
    ensures { result ≡ says_nothing known.now version (option_copied theirs.entry) }
{
    version < known.version() || version == known.version() && are_alike(known.content(), theirs)
}

/// Whether both are there, or neither.
fn are_alike(known: Option<&Content>, theirs: Option<&Content>) -> bool
    ensures { result ≡ are_alike (option_copied known.entry) (option_copied theirs.entry) }
{
    matches!((known, theirs), (None, None) | (Some(_), Some(_)))
}

/// What a case makes of an entry, None where it stays as it is. What is taken as it is told shares its block.
///
/// # Errors
/// No memory was left.
pub fn staged(
    alloc: Global,
    verdict: Verdict,
    old: Option<&SharedEntry>,
    news: &SharedEntry,
) -> Result<Option<SharedEntry>, AllocError>
    requires case { verdict ≡ verdict_of (option_copied old) (told_of news.now) }
    requires told { entry_told (told_of news.now) ≡ news.now }
    ensures { IfOk result (λ new. CaseGives verdict (option_copied old.entry) news.now new) }
{
    match verdict {
        Verdict::Stay => Ok(None),
        Verdict::Clash => Ok(None),
        Verdict::Candidate => Ok(None),
        Verdict::Mention => Ok(Some(news.copy()?)),
        Verdict::Take => Ok(Some(news.copy()?)),
        Verdict::Settle => Ok(Some(news.copy()?)),
        Verdict::Keep => Ok(Some(SharedEntry::new(alloc, withdrawn(alloc, theirs(news)?)?)?)),
        Verdict::Join => match old {
            None => Ok(None),
            Some(old) => Ok(Some(SharedEntry::new(
                alloc,
                with_theirs(alloc, theirs(news)?, old)?,
            )?)),
        },
        Verdict::Dispute => match old {
            None => Ok(None),
            Some(old) => Ok(Some(against(alloc, Why::Changed, news, old)?)),
        },
    }
}

/// What is told, as a base.
#[tactic(auto, using(crate::proofs::News::theirs_known))]
fn theirs(news: &SharedEntry) -> Result<Base, AllocError>
    ensures { IfOk result (λ base. base ≡ theirs_told (told_of news.now)) }
{
    match news.parts() {
        EntryParts::Incomplete => Ok(Base::New),
        EntryParts::Known { base, .. } => base.copy(),
    }
}

/// An object that came back.
fn withdrawn(alloc: Global, theirs: Base) -> Result<Entry, AllocError>
    ensures { IfOk result (λ entry. entry ≡ withdrawn theirs) }
{
    let mine = copied(theirs.content())?;
    let conflict = Conflict {
        why: Why::Withdrawn,
        theirs: theirs.copy()?,
    };
    Ok(Entry::Known {
        base: theirs,
        mine,
        conflict: Some(Shared::new(alloc, conflict)?),
    })
}

/// An entry in conflict with what is told.
///
/// # Errors
/// No memory was left.
pub fn against(
    alloc: Global,
    why: Why,
    news: &SharedEntry,
    old: &SharedEntry,
) -> Result<SharedEntry, AllocError>
    ensures { IfOk result (λ new. new ≡ against why (theirs_told (told_of news.now)) old.now) }
{
    match old.parts() {
        EntryParts::Incomplete => old.copy(),
        EntryParts::Known { base, mine, .. } => {
            let conflict = Conflict {
                why,
                theirs: theirs(news)?,
            };
            SharedEntry::new(
                alloc,
                Entry::Known {
                    base: base.copy()?,
                    mine: copied(mine)?,
                    conflict: Some(Shared::new(alloc, conflict)?),
                },
            )
        }
    }
}

fn all_joined(
    alloc: Global,
    base: Option<&Content>,
    mine: Option<&Content>,
    theirs: Option<&Content>,
) -> Result<Option<Content>, AllocError>
    ensures { IfOk result (λ content. content ≡ all_joined (option_copied base.entry) (option_copied mine.entry) (option_copied theirs.entry)) }
{
    match (base, mine, theirs) {
        (Some(base), Some(mine), Some(theirs)) => joined(alloc, base, mine, theirs),
        _ => Ok(None),
    }
}

/// Mine joined with theirs.
fn with_theirs(alloc: Global, theirs: Base, old: &SharedEntry) -> Result<Entry, AllocError>
    ensures { IfOk result (λ new. new ≡ with_theirs theirs old.now) }
{
    match old.parts() {
        EntryParts::Incomplete => Ok(Entry::Incomplete),
        EntryParts::Known { base, mine, .. } => {
            let mine = all_joined(alloc, base.content(), mine, theirs.content())?;
            Ok(Entry::Known {
                base: theirs,
                mine,
                conflict: None,
            })
        }
    }
}

/// A lost object that is wanted, as its known side.
///
/// # Errors
/// No memory was left.
pub fn back(alloc: Global, entry: &SharedEntry) -> Result<SharedEntry, AllocError>
    ensures { IfOk result (λ new. new ≡ back entry.now) }
{
    match entry.parts() {
        EntryParts::Incomplete => entry.copy(),
        EntryParts::Known { base, conflict, .. } => match conflict {
            None => SharedEntry::new(alloc, withdrawn(alloc, base.copy()?)?),
            Some(conflict) => SharedEntry::new(alloc, withdrawn(alloc, conflict.theirs.copy()?)?),
        },
    }
}

/// What the known side holds, where the entry doesn't live.
pub fn lost(entry: Option<&SharedEntry>) -> Option<&Content>
    ensures { option_copied result ≡ lost_of (option_copied entry.entry) }
{
    lost_content(entry?)
}

/// Whether an object was lost here: the known side holds something, and the entry doesn't live.
pub fn is_lost(entry: Option<&SharedEntry>) -> bool
    ensures { result ≡ is_some (lost_of (option_copied entry.entry)) }
{
    lost(entry).is_some()
}

fn lost_content(entry: &SharedEntry) -> Option<&Content>
    ensures { option_copied result ≡ lost_of (Some entry.now) }
{
    match entry.parts() {
        EntryParts::Known {
            base,
            mine: None,
            conflict,
        } => match conflict {
            None => base.content(),
            Some(conflict) => conflict.theirs.content(),
        },
        _ => None,
    }
}

/// Whether an object is gone on both sides.
pub fn is_gone(entry: &SharedEntry) -> bool
    ensures { result ≡ (is_dead entry.now && not (is_some (lost_of (Some entry.now)))) }
{
    match entry.parts() {
        EntryParts::Known { mine: None, .. } => lost_content(entry).is_none(),
        _ => false,
    }
}
