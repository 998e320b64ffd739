//! The case of one object.
ghost use Rattle.std.specs.Prelude.{◌≡◌, Some};
ghost use Rattle.std.specs.Option.{option_copied};
ghost use Rattle.osm_table.specs.Table.{known_base};
ghost use Rattle.osm_table.specs.Told.{told_of};
ghost use Rattle.merge_cases.specs.Case.{verdict_of, version_case, mention_case, same_version_case, withdrawn_case, unchanged_case, changed_case, all_join, is_withdrawn, is_withdrawal};

use crate::join_tests::joins;
use crate::verdict::Verdict;
use osm_base::Content;
use osm_table::{Base, Conflict, EntryParts, SharedEntry, Why, same_mine};

/// The case of an object: what a merge does with it, by its entry, if it has one, and by the news
/// that a download has of it, as a told map keeps them. It takes no memory. Where mine is changed
/// and a newer version is live, it walks the tags of mine and of the news; else its cost is that of
/// comparing two contents.
///
/// A told map has no news of an object that no server knows. It has a case all the same.
pub fn decide(entry: Option<&SharedEntry>, news: &SharedEntry) -> Verdict
    ensures { result ≡ verdict_of (option_copied entry.entry) (told_of news.now) }
{
    match news.parts() {
        EntryParts::Incomplete => decide_mention(entry),
        EntryParts::Known { base, .. } => match base {
            Base::New => decide_mention(entry),
            Base::Live {
                version,
                content,
                ..
            } => decide_version(entry, *version, Some(content)),
            Base::Gone { version, .. } => decide_version(entry, *version, None),
        },
    }
}

fn decide_mention(entry: Option<&SharedEntry>) -> Verdict
    ensures { result ≡ mention_case (option_copied entry.entry) }
{
    match entry {
        None => Verdict::Mention,
        Some(_) => Verdict::Stay,
    }
}

fn decide_version(entry: Option<&SharedEntry>, version: u32, theirs: Option<&Content>) -> Verdict
    ensures { result ≡ version_case (option_copied entry.entry) version (option_copied theirs.entry) }
{
    match entry {
        None => Verdict::Take,
        Some(entry) => decide_known(entry, version, theirs),
    }
}

fn decide_known(entry: &SharedEntry, version: u32, theirs: Option<&Content>) -> Verdict
    ensures { result ≡ version_case (Some entry.now) version (option_copied theirs.entry) }
{
    match entry.parts() {
        EntryParts::Incomplete => Verdict::Take,
        EntryParts::Known {
            base,
            mine,
            conflict,
        } => {
            let known = known_base(base, conflict);
            if version < known.version() {
                Verdict::Stay
            } else if version == known.version() {
                decide_same_version(known.content(), theirs)
            } else if is_withdrawn(conflict) {
                decide_withdrawn(theirs)
            } else if entry.is_changed() {
                decide_changed(base.content(), mine, theirs)
            } else {
                decide_unchanged(mine, theirs)
            }
        }
    }
}

fn decide_same_version(known: Option<&Content>, theirs: Option<&Content>) -> Verdict
    ensures { result ≡ same_version_case (option_copied known.entry) (option_copied theirs.entry) }
{
    match (known, theirs) {
        (None, None) => Verdict::Stay,
        (Some(_), Some(_)) => Verdict::Stay,
        _ => Verdict::Clash,
    }
}

fn decide_withdrawn(theirs: Option<&Content>) -> Verdict
    ensures { result ≡ withdrawn_case (option_copied theirs.entry) }
{
    match theirs {
        None => Verdict::Candidate,
        Some(_) => Verdict::Keep,
    }
}

fn decide_unchanged(mine: Option<&Content>, theirs: Option<&Content>) -> Verdict
    ensures { result ≡ unchanged_case (option_copied mine.entry) (option_copied theirs.entry) }
{
    match (mine, theirs) {
        (Some(_), None) => Verdict::Candidate,
        _ => Verdict::Take,
    }
}

fn decide_changed(
    base: Option<&Content>,
    mine: Option<&Content>,
    theirs: Option<&Content>,
) -> Verdict
    ensures { result ≡ changed_case (option_copied base.entry) (option_copied mine.entry) (option_copied theirs.entry) }
{
    if same_mine(mine, theirs) {
        Verdict::Settle
    } else if all_join(base, mine, theirs) {
        Verdict::Join
    } else {
        Verdict::Dispute
    }
}

fn all_join(base: Option<&Content>, mine: Option<&Content>, theirs: Option<&Content>) -> bool
    ensures { result ≡ all_join (option_copied base.entry) (option_copied mine.entry) (option_copied theirs.entry) }
{
    match (base, mine, theirs) {
        (Some(base), Some(mine), Some(theirs)) => joins(base, mine, theirs),
        _ => false,
    }
}

/// The newest state of the server that is known: the conflict's, else the base.
fn known_base<'a>(base: &'a Base, conflict: Option<&'a Conflict>) -> &'a Base
    ensures { result.now ≡ known_base base.now (option_copied conflict.entry) }
{
    match conflict {
        None => base,
        Some(conflict) => &conflict.theirs,
    }
}

fn is_withdrawn(conflict: Option<&Conflict>) -> bool
    ensures { result ≡ is_withdrawn (option_copied conflict.entry) }
{
    match conflict {
        None => false,
        Some(conflict) => is_withdrawal(conflict.why),
    }
}

/// Whether the conflict is that the object came back.
pub fn is_withdrawal(why: Why) -> bool
    ensures { result ≡ is_withdrawal why }
{
    match why {
        Why::Withdrawn => true,
        _ => false,
    }
}
