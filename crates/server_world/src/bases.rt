//! The world that has the bases of a data set.
ghost use Rattle.std.specs.Prelude.{◌≡◌, pos, false, map, IfOk, OnOk};
ghost use Rattle.std.specs.Option.{option_copied, option_map_or};
ghost use Rattle.osm_base.specs.Content.{node, refs_of};
ghost use Rattle.osm_base.specs.declared.key.Key.{Key};
ghost use Rattle.upload_order.specs.Kinds.{held_at, held_list};
ghost use Rattle.upload_order.specs.World.{stands, is_known};
ghost use Rattle.server_world.specs.Asked.{of_those};
ghost use Rattle.server_world.specs.Bases.{empty_content, of_base, standing, of_bases};
ghost use Rattle.server_world.specs.Putting.{based, empty_object, is_open, with_base, with_bases, with_mention, with_mentions, with_all_mentions};

use crate::entry::WorldEntry;
use crate::objects::Objects;
use crate::world::World;
use dataset::DataSet;
use osm_base::{Content, Coord, Key, Kind, Member, Members, Refs, Tags, node_key};
use osm_table::{Base, EntryParts, SharedEntry};
use std::alloc::{AllocError, Global};

impl World {
    /// A server that has the bases of a data set, and an empty object of version 1 where a base refers to one that isn't
    /// known.
    ///
    /// Costs a sort of all keys, two look-ups for each, two for each reference of a base, and a step of log n for each
    /// reference that has many users.
    ///
    /// # Errors
    /// No memory was left.
    pub fn of_bases(ds: &DataSet) -> Result<World, AllocError>
        // It is that of the definition.
        ensures value { IfOk result (λ w. w ≡ of_bases ds.now) }
        // The same by look-up.
        ensures stands { IfOk result (λ w. (key : Key) → stands w key ≡ standing ds.now key) }
    {
        let keys = ds.ordered()?;
        let world = World::of_those(ds, keys.as_slice())?;
        Ok(world)
    }

    /// The part of that server that has the objects of these keys, and those to which their bases refer and of which nothing is
    /// known. It costs what `of_bases` does, but for these keys alone.
    ///
    /// # Errors
    /// No memory was left.
    pub(crate) fn of_those(ds: &DataSet, keys: &[Key]) -> Result<World, AllocError>
        ensures { IfOk result (λ w. w ≡ of_those ds.now keys.now) }
    {
        let alloc = ds.alloc();
        let mut objects = Objects::new(alloc);
        put_bases(&mut objects, ds, keys)?;
        put_all_mentions(alloc, &mut objects, ds, keys)?;
        Ok(World::of_objects(alloc, objects))
    }
}

fn put_bases(objects: &mut Objects, ds: &DataSet, keys: &[Key]) -> Result<(), AllocError>
    ensures { OnOk result (objects.new ≡ with_bases ds.now objects.old keys.now) }
{
    for key in keys {
        put_base(objects, ds, *key)?;
    }
    Ok(())
}

fn put_base(objects: &mut Objects, ds: &DataSet, key: Key) -> Result<(), AllocError>
    ensures { OnOk result (objects.new ≡ with_base ds.now objects.old key) }
{
    match based(ds.entry(key))? {
        None => Ok(()),
        Some(entry) => objects.put(key, entry),
    }
}

/// What stands of an entry by its base.
fn based(entry: Option<&SharedEntry>) -> Result<Option<WorldEntry>, AllocError>
    ensures { IfOk result (λ o. o ≡ based (option_copied entry.entry)) }
{
    let Some(entry) = entry else {
        return Ok(None);
    };
    match entry.parts() {
        EntryParts::Incomplete => Ok(None),
        EntryParts::Known { base, .. } => of_base(base),
    }
}

fn of_base(base: &Base) -> Result<Option<WorldEntry>, AllocError>
    ensures { IfOk result (λ o. o ≡ of_base base.now) }
{
    match base {
        Base::New => Ok(None),
        Base::Live {
            version,
            content,
            ..
        } => Ok(Some(WorldEntry::new(u64::from(*version), Some(content.copy()?)))),
        Base::Gone { version, .. } => Ok(Some(WorldEntry::new(u64::from(*version), None))),
    }
}

fn put_all_mentions(
    alloc: Global,
    objects: &mut Objects,
    ds: &DataSet,
    keys: &[Key],
) -> Result<(), AllocError>
    ensures { OnOk result (objects.new ≡ with_all_mentions ds.now objects.old keys.now) }
{
    for key in keys {
        put_mentions_of(alloc, objects, ds, *key)?;
    }
    Ok(())
}

fn put_mentions_of(
    alloc: Global,
    objects: &mut Objects,
    ds: &DataSet,
    key: Key,
) -> Result<(), AllocError>
    ensures { OnOk result (objects.new ≡ with_mentions ds.now objects.old (held_list ds.now key)) }
{
    match held(ds.entry(key)) {
        None => Ok(()),
        Some(content) => put_mentions(alloc, objects, ds, content),
    }
}

/// What the base of an entry holds.
fn held(entry: Option<&SharedEntry>) -> Option<&Content>
    ensures { option_copied result ≡ held_at (option_copied entry.entry) }
{
    let Some(entry) = entry else {
        return None;
    };
    match entry.parts() {
        EntryParts::Incomplete => None,
        EntryParts::Known { base, .. } => base.content(),
    }
}

fn put_mentions(
    alloc: Global,
    objects: &mut Objects,
    ds: &DataSet,
    content: &Content,
) -> Result<(), AllocError>
    ensures { OnOk result (objects.new ≡ with_mentions ds.now objects.old (refs_of content.now)) }
{
    match content {
        Content::Node { .. } => Ok(()),
        Content::Way { refs, .. } => put_nodes(alloc, objects, ds, refs.as_slice()),
        Content::Relation { members, .. } => put_members(alloc, objects, ds, members.as_slice()),
    }
}

fn put_nodes(
    alloc: Global,
    objects: &mut Objects,
    ds: &DataSet,
    ids: &[i64],
) -> Result<(), AllocError>
    ensures { OnOk result (objects.new ≡ with_mentions ds.now objects.old (map node ids.now)) }
{
    for id in ids {
        put_mention(alloc, objects, ds, node_key(*id))?;
    }
    Ok(())
}

fn put_members(
    alloc: Global,
    objects: &mut Objects,
    ds: &DataSet,
    members: &[Member],
) -> Result<(), AllocError>
    ensures { OnOk result (objects.new ≡ with_mentions ds.now objects.old (map (λ m. m.key) members.now)) }
{
    for member in members {
        put_mention(alloc, objects, ds, member.key)?;
    }
    Ok(())
}

fn put_mention(
    alloc: Global,
    objects: &mut Objects,
    ds: &DataSet,
    key: Key,
) -> Result<(), AllocError>
    ensures { OnOk result (objects.new ≡ with_mention ds.now objects.old key) }
{
    if !is_open(ds, key) || objects.get(key).is_some() {
        return Ok(());
    }
    objects.put(key, empty_object(alloc, key.kind)?)
}

/// Whether a positive key isn't known.
fn is_open(ds: &DataSet, key: Key) -> bool
    ensures { result ≡ is_open ds.now key }
{
    0 < key.id && !is_known(ds.entry(key))
}

/// Whether an object is known.
pub fn is_known(entry: Option<&SharedEntry>) -> bool
    ensures { result ≡ option_map_or is_known (option_copied entry.entry) false }
{
    match entry {
        None => false,
        Some(entry) => !entry.is_incomplete(),
    }
}

fn empty_object(alloc: Global, kind: Kind) -> Result<WorldEntry, AllocError>
    ensures { IfOk result (λ entry. entry ≡ empty_object kind) }
{
    let content = empty_content(alloc, kind)?;
    Ok(WorldEntry::new(1, Some(content)))
}

fn empty_content(alloc: Global, kind: Kind) -> Result<Content, AllocError>
    ensures { IfOk result (λ content. content ≡ empty_content kind) }
{
    let tags = Tags::new(alloc);
    match kind {
        Kind::Node => Ok(Content::Node { tags, at: origin() }),
        Kind::Way => Ok(Content::Way {
            tags,
            refs: Refs::new(alloc)?,
        }),
        Kind::Relation => Ok(Content::Relation {
            tags,
            members: Members::new(alloc)?,
        }),
    }
}

/// The place at 0 0.
fn origin() -> Coord
    ensures lon { result.lon ≡ pos 0 }
    ensures lat { result.lat ≡ pos 0 }
{
    Coord { lon: 0, lat: 0 }
}
