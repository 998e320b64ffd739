//! Drafts in which each of several objects has its content edited.
ghost use Rattle.std.specs.Prelude.{◌≡◌, None, OnOk, IfOk};
ghost use Rattle.std.specs.Option.{option_map};
ghost use Rattle.std.specs.FinMap as map;
ghost use Rattle.osm_base.specs.declared.content.Content.{Content};
ghost use Rattle.dataset.specs.Draft.{drafted};
ghost use Rattle.dataset.specs.Sound.{IsSound};
ghost use Rattle.tool_api.specs.Changes.{changed, edit, with_mine, done};
ghost use Rattle.tool_api.specs.Closing.{closing, closing_tests};
ghost use Rattle.tool_api.specs.Planned.{Plans};

use crate::closing::closed;
use crate::plan::Plan;
use dataset::{DataSet, Draft};
use osm_base::{Content, Key, Keys, Refs};
use osm_table::Entry;
use std::alloc::AllocError;

/// What a job makes of a content.
pub trait EditContent {
    ghost edited: { Self → Content → Content };

    /// The content as the job leaves it.
    ///
    /// # Errors
    /// No memory was left.
    fn edit(&self, content: Content) -> Result<Content, AllocError>
        ensures { IfOk result (λ new. new ≡ edited self.now content) };
}

/// Gives a way other nodes. Its tags stay, and so does any other content.
#[derive(Drop)]
pub struct NewNodes<'a> {
    pub refs: &'a Refs,
}

impl<'a> EditContent for NewNodes<'a> {
    ghost use Rattle.tool_api.specs.Basic.{with_refs};

    ghost edited = { λ rule. with_refs (λ _. rule.refs.now) };

    fn edit(&self, content: Content) -> Result<Content, AllocError> {
        match content {
            Content::Way { tags, .. } => {
                let refs = self.refs.copy()?;
                Ok(Content::Way { tags, refs })
            }
            other => Ok(other),
        }
    }
}

fn edited_mine<E: EditContent>(
    mine: Option<Content>,
    rule: &E,
) -> Result<Option<Content>, AllocError>
    ensures { IfOk result (λ new. new ≡ option_map (E.edited rule.now) mine) }
{
    match mine {
        None => Ok(None),
        Some(content) => Ok(Some(rule.edit(content)?)),
    }
}

fn edited_entry<E: EditContent>(entry: Entry, rule: &E) -> Result<Entry, AllocError>
    ensures { IfOk result (λ new. new ≡ with_mine (E.edited rule.now) entry) }
{
    match entry {
        Entry::Incomplete => Ok(Entry::Incomplete),
        Entry::Known {
            base,
            mine,
            conflict,
        } => match edited_mine(mine, rule) {
            Ok(mine) => Ok(Entry::Known {
                base,
                mine,
                conflict,
            }),
            Err(e) => {
                // Dropped by calls: on a way out, the code of all that they own would be written out.
                drop(base);
                drop(conflict);
                Err(e)
            }
        },
    }
}

fn edited_at<E: EditContent>(ds: &DataSet, key: Key, rule: &E) -> Result<Option<Entry>, AllocError>
    ensures { IfOk result (λ new. new ≡ edit ds.now (E.edited rule.now) key) }
{
    match ds.entry(key) {
        None => Ok(None),
        Some(entry) => Ok(Some(edited_entry(entry.to_entry()?, rule)?)),
    }
}

/// Puts the entry of each of the keys into the draft, with the content that the data set has edited. A look-up and a
/// copy each.
///
/// # Errors
/// No memory was left; then the draft has some of them.
pub fn edit_all<E: EditContent>(
    ds: &DataSet,
    keys: &[Key],
    rule: &E,
    draft: &mut Draft,
) -> Result<(), AllocError>
    ensures { OnOk result (drafted draft.new ds.now ≡ changed (drafted draft.old ds.now) (edit ds.now (E.edited rule.now)) keys.now) }
{
    for key in keys {
        edit_one(ds, *key, rule, draft)?;
    }
    Ok(())
}

/// As `edit_all`, for one key.
fn edit_one<E: EditContent>(
    ds: &DataSet,
    key: Key,
    rule: &E,
    draft: &mut Draft,
) -> Result<(), AllocError>
    ensures { OnOk result (draft.new ≡ record { puts = map.insert draft.old.puts key (edit ds.now (E.edited rule.now) key); next = draft.old.next }) }
{
    let after = edited_at(ds, key, rule)?;
    draft.put(key, after)
}

/// The draft in which each of the keys has its content edited. A look-up and a copy each.
///
/// # Errors
/// No memory was left.
fn edited_draft<E: EditContent>(ds: &DataSet, keys: &[Key], rule: &E) -> Result<Draft, AllocError>
    ensures { IfOk result (λ draft. drafted draft ds.now ≡ changed ds.now (edit ds.now (E.edited rule.now)) keys.now) }
{
    let mut draft = Draft::new(ds);
    edit_all(ds, keys, rule, &mut draft).and(Ok(draft))
}

/// The plan of a job that edits the content of each of the keys, after the closing tests. It makes no key. A look-up and
/// a copy each.
///
/// # Errors
/// No memory was left.
pub fn edits_plan<E: EditContent>(
    ds: &DataSet,
    keys: &[Key],
    rule: &E,
    named: &[Key],
    limit: u64,
) -> Result<Plan, AllocError>
    requires sound { closing_tests ds.now limit named.now (changed ds.now (edit ds.now (E.edited rule.now)) keys.now) ≡ None → IsSound (changed ds.now (edit ds.now (E.edited rule.now)) keys.now) }
    ensures { IfOk result (Plans ds.now (closing ds.now limit named.now (done (changed ds.now (edit ds.now (E.edited rule.now)) keys.now)))) }
{
    let draft = edited_draft(ds, keys, rule)?;
    closed(ds, draft, named, limit, Keys::new(ds.alloc()))
}
