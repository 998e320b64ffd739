//! The told map of a file.
ghost use Rattle.std.specs.Prelude.{◌≡◌, ◌++◌, map, OnOk, IfOk};
ghost use Rattle.osm_base.specs.Content.{node};
ghost use Rattle.osm_base.specs.declared.members.Member.{Member};
ghost use Rattle.opl_file.specs.Objects.{objects_in};
ghost use Rattle.osm_table.specs.Told.{with_told};
ghost use Rattle.download.specs.Tell.{refs_of_side, references, told_of_object, all_told, nothing, told_of, IsTellable, AreTellable};
ghost use Rattle.download.specs.TellCode.{keys_of_list, keys_in, ArePositive, AreMentioned};

use opl_file::Objects;
use opl_line::OplObject;
use osm_base::{Content, Member, Members, Refs, node_key};
use osm_table::{Told, ToldMap};
use std::alloc::{AllocError, Global};

/// What a way or a relation refers to, in the list that it has itself.
#[derive(Drop)]
pub(crate) enum ReferenceList {
    Way(Refs),
    Relation(Members),
}

/// What the objects of a file tell. It costs a look-up for each object and each reference. Each batch of the objects is
/// given back as soon as it was told.
///
/// # Errors
/// No memory was left.
pub fn tell(alloc: Global, objects: Objects) -> Result<ToldMap, AllocError>
    requires { AreTellable objects }
    ensures { IfOk result (λ told. told ≡ told_of objects) }
{
    tell_batches(alloc, objects.into_batches())
}

/// What the objects tell. It costs a look-up for each object and each reference. Where each reference is told of as there
/// the told map knows that it is closed.
///
/// What is mentioned comes behind all that is told, when the batches are gone. So one item is kept for each way and each
/// relation, and nothing for each reference.
///
/// # Errors
/// No memory was left.
pub fn tell_batches(alloc: Global, batches: Vec<Vec<OplObject>>) -> Result<ToldMap, AllocError>
    requires { AreTellable (objects_in batches.items) }
    ensures { IfOk result (λ told. told ≡ told_of (objects_in batches.items)) }
{
    let mut told = ToldMap::with_capacity(alloc, count(&batches))?;
    tell_onto(alloc, &mut told, batches)?;
    Ok(told)
}

// As `tell_batches`, onto a map that tells nothing yet. It is lent, so that the steps have no more to drop.
#[tactic(auto, using(crate::proofs::Found::positive_references))]
fn tell_onto(
    alloc: Global,
    told: &mut ToldMap,
    batches: Vec<Vec<OplObject>>,
) -> Result<(), AllocError>
    requires tellable { AreTellable (objects_in batches.items) }
    requires none { told.old ≡ nothing }
    ensures { OnOk result (told.new ≡ told_of (objects_in batches.items)) }
{
    let references = references(alloc, &batches)?;
    tell_all(told, batches)?;
    if mention_all(told, &references)? {
        told.close();
    }
    Ok(())
}

// What the objects refer to, in a list for each way and each relation. Each list is shared with its object, so no reference is
// copied.
fn references(alloc: Global, batches: &[Vec<OplObject>]) -> Result<Vec<ReferenceList>, AllocError>
    ensures { IfOk result (λ lists. keys_in lists.items ≡ references (objects_in batches.now)) }
{
    let mut lists = Vec::new(alloc);
    for batch in batches {
        push_sides(batch, &mut lists)?;
    }
    Ok(lists)
}

fn push_sides(objects: &[OplObject], lists: &mut Vec<ReferenceList>) -> Result<(), AllocError>
    ensures { OnOk result (keys_in lists.new.items ≡ keys_in lists.old.items ++ references objects.now) }
{
    for object in objects {
        push_side(&object.side, lists)?;
    }
    Ok(())
}

fn push_side(side: &Option<Content>, lists: &mut Vec<ReferenceList>) -> Result<(), AllocError>
    ensures { OnOk result (keys_in lists.new.items ≡ keys_in lists.old.items ++ refs_of_side side.now) }
{
    match side {
        Some(Content::Way { refs, .. }) => lists.push(ReferenceList::Way(refs.copy()?))?,
        Some(Content::Relation { members, .. }) => {
            lists.push(ReferenceList::Relation(members.copy()?))?
        }
        _ => {}
    }
    Ok(())
}

// How many objects there are, as the room that they ask for.
fn count(batches: &[Vec<OplObject>]) -> usize {
    batches
        .iter()
        .fold(0, |count: usize, batch| count.saturating_add(batch.len()))
}

fn tell_all(told: &mut ToldMap, batches: Vec<Vec<OplObject>>) -> Result<(), AllocError>
    requires { AreTellable (objects_in batches.items) }
    ensures { OnOk result (told.new ≡ all_told told.old (objects_in batches.items)) }
{
    for batch in batches {
        tell_batch(told, batch)?;
    }
    Ok(())
}

fn tell_batch(told: &mut ToldMap, objects: Vec<OplObject>) -> Result<(), AllocError>
    requires { AreTellable objects.items }
    ensures { OnOk result (told.new ≡ all_told told.old objects.items) }
{
    for object in objects {
        tell_object(told, object)?;
    }
    Ok(())
}

fn tell_object(told: &mut ToldMap, object: OplObject) -> Result<(), AllocError>
    requires { IsTellable object }
    ensures { OnOk result (told.new ≡ with_told told.old object.key (told_of_object object)) }
{
    let OplObject {
        key,
        version,
        side,
        meta,
    } = object;
    match side {
        None => told.put(key, Told::Gone { version, meta }),
        Some(content) => told.put(
            key,
            Told::Live {
                version,
                content,
                meta,
            },
        ),
    }
}

// Mentions what the lists name, and answers whether all of that is told of as there.
fn mention_all(told: &mut ToldMap, lists: &[ReferenceList]) -> Result<bool, AllocError>
    requires { ArePositive (keys_in lists.now) }
    ensures { IfOk result (λ there. AreMentioned told.old told.new (keys_in lists.now) there) }
{
    let mut there = true;
    for list in lists {
        there &= mention_list(told, list)?;
    }
    Ok(there)
}

fn mention_list(told: &mut ToldMap, list: &ReferenceList) -> Result<bool, AllocError>
    requires { ArePositive (keys_of_list list.now) }
    ensures { IfOk result (λ there. AreMentioned told.old told.new (keys_of_list list.now) there) }
{
    match list {
        ReferenceList::Way(refs) => mention_nodes(told, refs.as_slice()),
        ReferenceList::Relation(members) => mention_members(told, members.as_slice()),
    }
}

fn mention_nodes(told: &mut ToldMap, ids: &[i64]) -> Result<bool, AllocError>
    requires { ArePositive (map node ids.now) }
    ensures { IfOk result (λ there. AreMentioned told.old told.new (map node ids.now) there) }
{
    let mut there = true;
    for id in ids {
        there &= told.mention(node_key(*id))?;
    }
    Ok(there)
}

fn mention_members(told: &mut ToldMap, members: &[Member]) -> Result<bool, AllocError>
    requires { ArePositive (map (λ (member : Member). member.key) members.now) }
    ensures { IfOk result (λ there. AreMentioned told.old told.new (map (λ (member : Member). member.key) members.now) there) }
{
    let mut there = true;
    for member in members {
        there &= told.mention(member.key)?;
    }
    Ok(there)
}
