//! Whether an object can be settled so.
ghost use Rattle.std.specs.Prelude.{◌≡◌, Some, IfOk};
ghost use Rattle.std.specs.Option.{option_copied};
ghost use Rattle.merge_cases.specs.Resolve.{can_choose, can_mix, unclashing};
ghost use Rattle.tool_api.specs.Resolve.{choice_test, clashing_test};

use merge_cases::{Choice, Pick, TagKey, TagKeys, tag_pick};
use osm_base::{Content, Key};
use osm_table::{Base, Conflict, EntryParts, SharedEntry, Why};
use std::alloc::AllocError;
use tool_api::Refusal;

/// The first listed key whose tag doesn't clash.
fn unclashing<'a>(
    listed: &'a TagKeys,
    base: &Content,
    mine: &Content,
    theirs: &Content,
) -> Option<&'a TagKey>
    ensures { option_copied result ≡ unclashing listed.now base.now mine.now theirs.now }
{
    listed.as_slice().iter().find(|key| {
        tag_pick(base.tags(), mine.tags(), theirs.tags(), key.as_bytes()) != Pick::Clash
    })
}

fn clashing_test(
    choice: &Choice,
    base: Option<&Content>,
    mine: Option<&Content>,
    theirs: Option<&Content>,
) -> Result<Option<Refusal>, AllocError>
    ensures { IfOk result (λ r. r ≡ clashing_test choice.now (option_copied base.entry) (option_copied mine.entry) (option_copied theirs.entry)) }
{
    match (choice, base, mine, theirs) {
        (Choice::Parts { theirs: listed, .. }, Some(base), Some(mine), Some(theirs)) => {
            match unclashing(listed, base, mine, theirs) {
                None => Ok(None),
                Some(key) => Ok(Some(Refusal::NotClashing(key.text().copy()?))),
            }
        }
        _ => Ok(None),
    }
}

/// Whether both sides changed the object, and both stand.
fn can_mix(mine: Option<&Content>, conflict: &Conflict) -> bool
    ensures { result ≡ can_mix (option_copied mine.entry) conflict.now }
{
    mine.is_some() && conflict.why == Why::Changed && conflict.theirs.content().is_some()
}

fn can_choose(choice: &Choice, base: &Base, mine: Option<&Content>, conflict: &Conflict) -> bool
    ensures { result ≡ can_choose choice.now base.now (option_copied mine.entry) conflict.now }
{
    match choice {
        Choice::Mine | Choice::Theirs => true,
        Choice::Mix { .. } => can_mix(mine, conflict),
        Choice::Parts { .. } => base.content().is_some() && can_mix(mine, conflict),
    }
}

/// The test of a choice for an entry: NoConflict, NotMixed, NotClashing. Three look-ups for each listed key.
///
/// # Errors
/// No memory was left.
pub fn choice_test(
    choice: &Choice,
    key: Key,
    entry: &SharedEntry,
) -> Result<Option<Refusal>, AllocError>
    ensures { IfOk result (λ r. r ≡ choice_test choice.now key (Some entry.now)) }
{
    match entry.parts() {
        EntryParts::Incomplete => Ok(Some(Refusal::NoConflict(key))),
        EntryParts::Known { conflict: None, .. } => Ok(Some(Refusal::NoConflict(key))),
        EntryParts::Known {
            base,
            mine,
            conflict: Some(conflict),
        } => {
            if !can_choose(choice, base, mine, conflict) {
                return Ok(Some(Refusal::NotMixed(key)));
            }
            clashing_test(choice, base.content(), mine, conflict.theirs.content())
        }
    }
}
