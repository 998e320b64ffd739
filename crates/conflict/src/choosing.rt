//! What becomes of an object in conflict by a choice.
ghost use Rattle.std.specs.Prelude.{◌≡◌, None, IfOk};
ghost use Rattle.std.specs.Option.{option_copied};
ghost use Rattle.osm_table.specs.declared.entry.Entry.TheVariants.{Known};
ghost use Rattle.merge_cases.specs.Keys.{is_listed};
ghost use Rattle.merge_cases.specs.Resolve.{of_side, mixed, settled, side_of_key, settled_tag, in_parts, mix_of, parts_of, chosen, resolved};

use merge_cases::{
    Choice, Pick, Side, TagKeys, TagRule, body_pick, is_withdrawal, picked, picked_by, tag_pick,
    with_body,
};
use osm_base::Content;
use osm_table::{Base, Conflict, Entry, EntryParts, SharedEntry};
use std::alloc::{AllocError, Global};
use tool_api::copied;

fn of_side<'a>(side: Side, mine: &'a Content, theirs: &'a Content) -> &'a Content
    ensures { result.now ≡ of_side side mine.now theirs.now }
{
    match side {
        Side::Mine => mine,
        Side::Theirs => theirs,
    }
}

/// The tags of one side with the body of one.
fn mixed(tags: Side, body: Side, mine: &Content, theirs: &Content) -> Result<Content, AllocError>
    ensures { IfOk result (λ content. content ≡ mixed tags body mine.now theirs.now) }
{
    let tags = of_side(tags, mine, theirs).tags().copy()?;
    with_body(tags, of_side(body, mine, theirs))
}

/// Whose part stands, a side's where both changed it.
fn settled(side: Side, pick: Pick) -> Pick
    ensures { result ≡ settled side pick }
{
    match pick {
        Pick::Mine => Pick::Mine,
        Pick::Theirs => Pick::Theirs,
        Pick::Clash => match side {
            Side::Mine => Pick::Mine,
            Side::Theirs => Pick::Theirs,
        },
    }
}

/// The side whose tag is taken where both changed it.
fn side_of_key(listed: &TagKeys, key: &[u8]) -> Side
    ensures { result ≡ side_of_key listed.now key.now }
{
    if listed.has(key) {
        Side::Theirs
    } else {
        Side::Mine
    }
}

/// A tag that only one side changed is that side's, and one that both changed is theirs where its key is listed.
#[derive(Drop)]
struct ByKey<'a> {
    listed: &'a TagKeys,
    base: &'a Content,
    mine: &'a Content,
    theirs: &'a Content,
}

impl<'a> TagRule for ByKey<'a> {
    ghost use Rattle.merge_cases.specs.Resolve.{settled_tag};

    ghost whose = { λ rule. settled_tag rule.listed.now rule.base.now rule.mine.now rule.theirs.now };

    fn pick(&self, key: &[u8]) -> Pick {
        let pick = tag_pick(self.base.tags(), self.mine.tags(), self.theirs.tags(), key);
        settled(side_of_key(self.listed, key), pick)
    }
}

/// What comes of three contents where each clash is settled.
fn in_parts(
    alloc: Global,
    body: Side,
    listed: &TagKeys,
    base: &Content,
    mine: &Content,
    theirs: &Content,
) -> Result<Option<Content>, AllocError>
    ensures { IfOk result (λ content. content ≡ in_parts body listed.now base.now mine.now theirs.now) }
{
    let whose = settled(body, body_pick(base, mine, theirs));
    let Some(body) = picked(whose, mine, theirs) else {
        return Ok(None);
    };
    let rule = ByKey {
        listed,
        base,
        mine,
        theirs,
    };
    let tags = picked_by(alloc, &rule, mine.tags(), theirs.tags())?;
    Ok(Some(with_body(tags, body)?))
}

fn mix_of(
    tags: Side,
    body: Side,
    mine: Option<&Content>,
    theirs: Option<&Content>,
) -> Result<Option<Content>, AllocError>
    ensures { IfOk result (λ content. content ≡ mix_of tags body (option_copied mine.entry) (option_copied theirs.entry)) }
{
    match (mine, theirs) {
        (Some(mine), Some(theirs)) => Ok(Some(mixed(tags, body, mine, theirs)?)),
        _ => Ok(None),
    }
}

fn parts_of(
    alloc: Global,
    body: Side,
    listed: &TagKeys,
    base: Option<&Content>,
    mine: Option<&Content>,
    theirs: Option<&Content>,
) -> Result<Option<Content>, AllocError>
    ensures { IfOk result (λ content. content ≡ parts_of body listed.now (option_copied base.entry) (option_copied mine.entry) (option_copied theirs.entry)) }
{
    match (base, mine, theirs) {
        (Some(base), Some(mine), Some(theirs)) => in_parts(alloc, body, listed, base, mine, theirs),
        _ => Ok(None),
    }
}

/// Mine, as it is chosen: none where the object is deleted.
fn chosen(
    alloc: Global,
    choice: &Choice,
    base: &Base,
    mine: Option<&Content>,
    conflict: &Conflict,
) -> Result<Option<Content>, AllocError>
    ensures { IfOk result (λ content. content ≡ chosen choice.now base.now (option_copied mine.entry) conflict.now) }
{
    let theirs = conflict.theirs.content();
    match choice {
        Choice::Mine => {
            if is_withdrawal(conflict.why) {
                Ok(None)
            } else {
                copied(mine)
            }
        }
        Choice::Theirs => copied(theirs),
        Choice::Mix { tags, body } => mix_of(*tags, *body, mine, theirs),
        Choice::Parts {
            body,
            theirs: listed,
        } => parts_of(alloc, *body, listed, base.content(), mine, theirs),
    }
}

/// An entry that isn't in conflict.
fn agreed(alloc: Global, base: &Base, mine: Option<Content>) -> Result<SharedEntry, AllocError>
    ensures { IfOk result (λ new. new ≡ Known base.now mine None) }
{
    // Dropped by a call: on a way out, the code of all that a content owns would be written out.
    match base.copy() {
        Ok(base) => SharedEntry::new(
            alloc,
            Entry::Known {
                base,
                mine,
                conflict: None,
            },
        ),
        Err(error) => {
            drop(mine);
            Err(error)
        }
    }
}

/// The entry without its conflict: theirs is the base, and mine is as chosen. One that has none stays. It walks the tags
/// of both sides where the content comes in parts, and looks each of their keys up among the listed ones.
///
/// # Errors
/// No memory was left.
pub fn resolved(
    alloc: Global,
    choice: &Choice,
    entry: &SharedEntry,
) -> Result<SharedEntry, AllocError>
    ensures { IfOk result (λ after. after ≡ resolved choice.now entry.now) }
{
    match entry.parts() {
        EntryParts::Incomplete => entry.copy(),
        EntryParts::Known { conflict: None, .. } => entry.copy(),
        EntryParts::Known {
            base,
            mine,
            conflict: Some(conflict),
        } => {
            let mine = chosen(alloc, choice, base, mine, conflict)?;
            agreed(alloc, &conflict.theirs, mine)
        }
    }
}
