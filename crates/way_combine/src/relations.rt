//! The relations that ways are members of.
ghost use Rattle.std.specs.Prelude.{◌≡◌, if◌then◌else◌, Some, None, IfOk};
ghost use Rattle.std.specs.List.{find};
ghost use Rattle.std.specs.Option.{IfNone};
ghost use Rattle.osm_table.specs.Table.{mine_of};
ghost use Rattle.dataset.specs.Draft.{drafted};
ghost use Rattle.tool_api.specs.Changes.{changed, content_of, edit, with_mine};
ghost use Rattle.tool_api.specs.Combine.{clashes, fold_runs, member_test, relations_among};
ghost use Rattle.tool_api.specs.Checks.{first_of, target_test};
ghost use Rattle.tool_api.specs.declared.kinds.Kinds.TheVariants.{Ways};

use dataset::{DataSet, Draft};
use osm_base::{Content, Key, ranked};
use osm_table::Entry;
use relation_upkeep::fold_members;
use std::alloc::{AllocError, Global};
use tool_api::{Refusal, all_users};

/// The living relations with a member among the ways, by rank. They are the users of the ways; it sorts those once.
///
/// # Errors
/// No memory was left.
fn relations_among(ds: &DataSet, ways: &[Key]) -> Result<Vec<Key>, AllocError>
    requires { first_of (target_test ds.now Ways) ways.now ≡ None }
    ensures { IfOk result (λ keys. keys.items ≡ relations_among ds.now ways.now) }
{
    ranked(all_users(ds, ways)?)
}

/// A content with each run of a relation's members as the kept way; `None` where they don't meet the run rule.
fn folded_content(
    alloc: Global,
    content: Content,
    ways: &[Key],
    kept: Key,
) -> Result<Option<Content>, AllocError>
    ensures { IfOk result (λ after. after ≡ (if clashes ways.now (Some content) then None else Some (fold_runs ways.now kept content))) }
{
    match content {
        Content::Relation { tags, members } => match fold_members(alloc, &members, ways, kept)? {
            None => Ok(None),
            Some(members) => Ok(Some(Content::Relation { tags, members })),
        },
        other => Ok(Some(other)),
    }
}

fn folded_entry(
    alloc: Global,
    entry: Entry,
    ways: &[Key],
    kept: Key,
) -> Result<Option<Entry>, AllocError>
    ensures { IfOk result (λ after. after ≡ (if clashes ways.now (mine_of entry) then None else Some (with_mine (fold_runs ways.now kept) entry))) }
{
    match entry {
        Entry::Incomplete => Ok(Some(Entry::Incomplete)),
        Entry::Known {
            base,
            mine,
            conflict,
        } => match mine {
            None => Ok(Some(Entry::Known {
                base,
                mine: None,
                conflict,
            })),
            Some(content) => match folded_content(alloc, content, ways, kept)? {
                None => Ok(None),
                Some(content) => Ok(Some(Entry::Known {
                    base,
                    mine: Some(content),
                    conflict,
                })),
            },
        },
    }
}

fn folded_at(
    ds: &DataSet,
    key: Key,
    ways: &[Key],
    kept: Key,
) -> Result<Option<Option<Entry>>, AllocError>
    ensures { IfOk result (λ after. after ≡ (if clashes ways.now (content_of ds.now key) then None else Some (edit ds.now (fold_runs ways.now kept) key))) }
{
    match ds.entry(key) {
        None => Ok(Some(None)),
        Some(entry) => match folded_entry(ds.alloc(), entry.to_entry()?, ways, kept)? {
            None => Ok(None),
            Some(after) => Ok(Some(Some(after))),
        },
    }
}

/// Puts each of the relations into the draft with its runs as the kept way, up to the first whose members don't meet the
/// run rule.
fn fold_each(
    ds: &DataSet,
    ways: &[Key],
    kept: Key,
    relations: &[Key],
    draft: &mut Draft,
) -> Result<Option<Key>, AllocError>
    ensures clash { IfOk result (λ found. found ≡ find (λ k. clashes ways.now (content_of ds.now k)) relations.now) }
    ensures draft { IfOk result (λ found. IfNone found (drafted draft.new ds.now ≡ changed (drafted draft.old ds.now) (edit ds.now (fold_runs ways.now kept)) relations.now)) }
{
    for relation in relations {
        match folded_at(ds, *relation, ways, kept)? {
            None => return Ok(Some(*relation)),
            Some(after) => draft.put(*relation, after)?,
        }
    }
    Ok(None)
}

/// Puts the relations among whose members the ways are into the draft, each run as the kept way; or MemberClash with the
/// first of them whose members don't meet the run rule. It walks the members of each once.
///
/// # Errors
/// No memory was left.
pub fn fold_relations(
    ds: &DataSet,
    ways: &[Key],
    kept: Key,
    draft: &mut Draft,
) -> Result<Option<Refusal>, AllocError>
    requires { first_of (target_test ds.now Ways) ways.now ≡ None }
    ensures test { IfOk result (λ refusal. refusal ≡ member_test ds.now ways.now) }
    ensures draft { IfOk result (λ refusal. IfNone refusal (drafted draft.new ds.now ≡ changed (drafted draft.old ds.now) (edit ds.now (fold_runs ways.now kept)) (relations_among ds.now ways.now))) }
{
    let relations = relations_among(ds, ways)?;
    match fold_each(ds, ways, kept, &relations, draft)? {
        None => Ok(None),
        Some(relation) => Ok(Some(Refusal::MemberClash(relation))),
    }
}
