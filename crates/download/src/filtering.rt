//! A part of a file: by a box, and by tags.
//!
//! Three passes drop what isn't kept, each as soon as it is known: ways, then nodes, then relations. Before each stands a
//! pass that fills the set of keys by which it decides, so a set holds only keys of what is asked for, and the order of
//! the file plays no part.
ghost use Rattle.std.specs.Prelude.{◌≡◌, ◌≤ℤ◌, [], Some, IfOk, OnOk, filter, fold, map, pos};
ghost use Rattle.std.specs.List.{list_any};
ghost use Rattle.std.specs.Option.{option_copied, option_map};
ghost use Rattle.osm_base.specs.Content.{kind_of_content, node, refs_of};
ghost use Rattle.osm_base.specs.Meta.{empty_meta};
ghost use Rattle.opl_file.specs.Objects.{keys_of, objects_in};
ghost use Rattle.download.specs.Tell.{references, told_of, AreTellable};
ghost use Rattle.download.specs.Filter.{among, in_box, in_area, is_between, is_wanted, has_tags, is_near, near, is_reached, is_related, on_side, keeps, kept, filtered};
ghost use Rattle.download.specs.FilterCode.{with_key, key_set, is_way, is_place, way_left, is_left, relation_left};

use crate::key_set::KeySet;
use crate::telling::tell_batches;
use opl_file::Objects;
use opl_line::OplObject;
use osm_base::{Area, Content, Coord, Key, Member, Tags, Text, node_key};
use osm_table::ToldMap;
use std::alloc::{AllocError, Global};

/// The value that stands for any value.
const ANY_VALUE: &[u8] = b"*";

/// What the part of a file tells that lies in a box and has the wanted tags, with what belongs to it.
///
/// Kept are the ways with the wanted tags and a node in the box, the nodes of these ways, the nodes in the box with the
/// wanted tags, the relations that refer to one of these, and the relations that refer to one of these relations. Deleted
/// objects are always kept, and with neither a box nor a wanted tag all is kept, in no more time than `tell` takes. What
/// is referred to and not kept is mentioned.
///
/// It costs a walk over the file for each step, and a look-up for each reference and for each object in the box.
///
/// # Errors
/// No memory was left.
pub fn filter(
    alloc: Global,
    objects: Objects,
    area: Option<Area>,
    wanted: Option<&Tags>,
) -> Result<ToldMap, AllocError>
    requires { AreTellable objects }
    ensures { IfOk result (λ told. told ≡ filtered objects area (option_copied wanted.entry)) }
{
    match wanted {
        None => filter_by(alloc, objects, area, &Tags::new(alloc)),
        Some(wanted) => filter_by(alloc, objects, area, wanted),
    }
}

#[tactic(auto, using(crate::proofs::Passes::kept_tellable))]
fn filter_by(
    alloc: Global,
    objects: Objects,
    area: Option<Area>,
    wanted: &Tags,
) -> Result<ToldMap, AllocError>
    requires { AreTellable objects }
    ensures { IfOk result (λ told. told ≡ told_of (kept objects area wanted.now)) }
{
    let kept = kept(alloc, objects.into_batches(), area, wanted)?;
    tell_batches(alloc, kept)
}

fn kept(
    alloc: Global,
    batches: Vec<Vec<OplObject>>,
    area: Option<Area>,
    wanted: &Tags,
) -> Result<Vec<Vec<OplObject>>, AllocError>
    ensures { IfOk result (λ left. objects_in left.items ≡ kept (objects_in batches.items) area wanted.now) }
{
    if area.is_none() && wanted.is_empty() {
        return Ok(batches);
    }
    kept_part(alloc, batches, area, wanted)
}

fn kept_part(
    alloc: Global,
    mut batches: Vec<Vec<OplObject>>,
    area: Option<Area>,
    wanted: &Tags,
) -> Result<Vec<Vec<OplObject>>, AllocError>
    ensures { IfOk result (λ left. objects_in left.items ≡ filter (keeps (objects_in batches.items) area wanted.now) (objects_in batches.items)) }
{
    leave_kept(alloc, &mut batches, area, wanted)?;
    Ok(batches)
}

// The three passes. The file is lent to them, and each set is dropped by a call behind its pass: on a way out, all that it owns
// would be written out.
fn leave_kept(
    alloc: Global,
    batches: &mut Vec<Vec<OplObject>>,
    area: Option<Area>,
    wanted: &Tags,
) -> Result<(), AllocError>
    ensures { OnOk result (objects_in batches.new.items ≡ filter (keeps (objects_in batches.old.items) area wanted.now) (objects_in batches.old.items)) }
{
    pass_ways(alloc, batches, area, wanted)?;
    pass_nodes(alloc, batches, area, wanted)?;
    let places = places(alloc, batches.as_slice())?;
    let passed = pass_relations(alloc, batches, &places);
    drop(places);
    passed
}

fn pass_ways(
    alloc: Global,
    batches: &mut Vec<Vec<OplObject>>,
    area: Option<Area>,
    wanted: &Tags,
) -> Result<(), AllocError>
    ensures { OnOk result (objects_in batches.new.items ≡ filter (on_side (way_left wanted.now (near area (objects_in batches.old.items)))) (objects_in batches.old.items)) }
{
    let near = near(alloc, batches.as_slice(), area)?;
    keep_ways(batches, wanted, &near);
    drop(near);
    Ok(())
}

fn pass_nodes(
    alloc: Global,
    batches: &mut Vec<Vec<OplObject>>,
    area: Option<Area>,
    wanted: &Tags,
) -> Result<(), AllocError>
    ensures { OnOk result (objects_in batches.new.items ≡ filter (is_left area wanted.now (among (key_set (references (filter (on_side is_way) (objects_in batches.old.items)))))) (objects_in batches.old.items)) }
{
    let of_ways = nodes_of_ways(alloc, batches.as_slice())?;
    keep_nodes(batches, area, wanted, &of_ways);
    drop(of_ways);
    Ok(())
}

fn pass_relations(
    alloc: Global,
    batches: &mut Vec<Vec<OplObject>>,
    places: &KeySet,
) -> Result<(), AllocError>
    ensures { OnOk result (objects_in batches.new.items ≡ filter (on_side (relation_left (among places.now) (among (key_set (keys_of (filter (on_side (is_related (among places.now))) (objects_in batches.old.items))))))) (objects_in batches.old.items)) }
{
    let relations = relations_to(alloc, batches.as_slice(), places)?;
    keep_relations(batches, places, &relations);
    drop(relations);
    Ok(())
}

// The nodes in the box, if there is one.
fn near(
    alloc: Global,
    batches: &[Vec<OplObject>],
    area: Option<Area>,
) -> Result<Option<KeySet>, AllocError>
    ensures { IfOk result (λ set. option_map among set ≡ near area (objects_in batches.now)) }
{
    match area {
        None => Ok(None),
        Some(area) => Ok(Some(nodes_in(alloc, batches, &area)?)),
    }
}

fn nodes_in(alloc: Global, batches: &[Vec<OplObject>], area: &Area) -> Result<KeySet, AllocError>
    ensures { IfOk result (λ set. set ≡ key_set (keys_of (filter (on_side (is_near (Some area.now))) (objects_in batches.now)))) }
{
    let mut keys = KeySet::new(alloc);
    for batch in batches {
        put_near(&mut keys, batch, area)?;
    }
    Ok(keys)
}

fn put_near(keys: &mut KeySet, objects: &[OplObject], area: &Area) -> Result<(), AllocError>
    ensures { OnOk result (keys.new ≡ fold with_key keys.old (keys_of (filter (on_side (is_near (Some area.now))) objects.now))) }
{
    for object in objects {
        if is_near(&object.side, area) {
            keys.put(object.key)?;
        }
    }
    Ok(())
}

fn is_near(side: &Option<Content>, area: &Area) -> bool
    ensures { result ≡ is_near (Some area.now) side.now }
{
    match side {
        Some(Content::Node { at, .. }) => in_box(*at, area),
        _ => false,
    }
}

/// Whether a place lies in a box. The edges belong to it.
pub fn in_box(at: Coord, area: &Area) -> bool
    ensures { result ≡ in_box at area.now }
{
    is_between(area.west, area.east, at.lon) && is_between(area.south, area.north, at.lat)
}

fn is_between(least: i32, most: i32, value: i32) -> bool
    ensures { result ≡ is_between least most value }
{
    least <= value && value <= most
}

/// Whether a content has all the wanted tags. The value `*` is wanted for any value, and an empty one for an empty one.
pub fn has_tags(content: &Content, wanted: &Tags) -> bool
    ensures { result ≡ has_tags content.now wanted.now }
{
    let tags = content.tags();
    wanted.as_slice().iter().all(|tag| is_wanted(tag.1.as_bytes(), tags.get(tag.0.as_bytes())))
}

fn is_wanted(wanted: &[u8], value: Option<&[u8]>) -> bool
    ensures { result ≡ is_wanted wanted.now (option_copied value.entry) }
{
    match value {
        None => false,
        Some(value) => wanted == ANY_VALUE || wanted == value,
    }
}

fn keep_ways(batches: &mut Vec<Vec<OplObject>>, wanted: &Tags, near: &Option<KeySet>)
    ensures { objects_in batches.new.items ≡ filter (on_side (way_left wanted.now (option_map among near.now))) (objects_in batches.old.items) }
{
    for batch in batches.iter_mut() {
        keep_ways_of(batch, wanted, near);
    }
}

fn keep_ways_of(objects: &mut Vec<OplObject>, wanted: &Tags, near: &Option<KeySet>)
    ensures { objects.new.items ≡ filter (on_side (way_left wanted.now (option_map among near.now))) objects.old.items }
{
    objects.retain(|object| way_stays(&object.side, wanted, near));
}

fn way_stays(side: &Option<Content>, wanted: &Tags, near: &Option<KeySet>) -> bool
    ensures { result ≡ way_left wanted.now (option_map among near.now) side.now }
{
    let Some(content) = side else {
        return true;
    };
    match content {
        Content::Way { refs, .. } => has_tags(content, wanted) && is_reached(near, refs.as_slice()),
        _ => true,
    }
}

#[tactic(auto, using(osm_base::proofs::AnyMap::list_any_map))]
fn is_reached(near: &Option<KeySet>, nodes: &[i64]) -> bool
    ensures { result ≡ is_reached (option_map among near.now) (map node nodes.now) }
{
    match near {
        None => true,
        Some(near) => has_node(near, nodes),
    }
}

fn has_node(keys: &KeySet, ids: &[i64]) -> bool
    ensures { result ≡ list_any (λ id. among keys.now (node id)) ids.now }
{
    ids.iter().any(|id| keys.contains(node_key(*id)))
}

// The nodes of the ways.
fn nodes_of_ways(alloc: Global, batches: &[Vec<OplObject>]) -> Result<KeySet, AllocError>
    ensures { IfOk result (λ set. set ≡ key_set (references (filter (on_side is_way) (objects_in batches.now)))) }
{
    let mut keys = KeySet::new(alloc);
    for batch in batches {
        put_of_ways(&mut keys, batch)?;
    }
    Ok(keys)
}

fn put_of_ways(keys: &mut KeySet, objects: &[OplObject]) -> Result<(), AllocError>
    ensures { OnOk result (keys.new ≡ fold with_key keys.old (references (filter (on_side is_way) objects.now))) }
{
    for object in objects {
        if let Some(Content::Way { refs, .. }) = &object.side {
            put_nodes(keys, refs.as_slice())?;
        }
    }
    Ok(())
}

fn put_nodes(keys: &mut KeySet, ids: &[i64]) -> Result<(), AllocError>
    ensures { OnOk result (keys.new ≡ fold with_key keys.old (map node ids.now)) }
{
    for id in ids {
        keys.put(node_key(*id))?;
    }
    Ok(())
}

fn keep_nodes(
    batches: &mut Vec<Vec<OplObject>>,
    area: Option<Area>,
    wanted: &Tags,
    of_ways: &KeySet,
)
    ensures { objects_in batches.new.items ≡ filter (is_left area wanted.now (among of_ways.now)) (objects_in batches.old.items) }
{
    for batch in batches.iter_mut() {
        keep_nodes_of(batch, area, wanted, of_ways);
    }
}

fn keep_nodes_of(objects: &mut Vec<OplObject>, area: Option<Area>, wanted: &Tags, of_ways: &KeySet)
    ensures { objects.new.items ≡ filter (is_left area wanted.now (among of_ways.now)) objects.old.items }
{
    objects.retain(|object| node_stays(object, area, wanted, of_ways));
}

fn node_stays(object: &OplObject, area: Option<Area>, wanted: &Tags, of_ways: &KeySet) -> bool
    ensures { result ≡ is_left area wanted.now (among of_ways.now) object.now }
{
    let Some(content) = &object.side else {
        return true;
    };
    match content {
        Content::Node { at, .. } => {
            in_area(*at, area) && has_tags(content, wanted) || of_ways.contains(object.key)
        }
        _ => true,
    }
}

fn in_area(at: Coord, area: Option<Area>) -> bool
    ensures { result ≡ in_area area at }
{
    match area {
        None => true,
        Some(area) => in_box(at, &area),
    }
}

// The nodes and the ways.
fn places(alloc: Global, batches: &[Vec<OplObject>]) -> Result<KeySet, AllocError>
    ensures { IfOk result (λ set. set ≡ key_set (keys_of (filter (on_side is_place) (objects_in batches.now)))) }
{
    let mut keys = KeySet::new(alloc);
    for batch in batches {
        put_places(&mut keys, batch)?;
    }
    Ok(keys)
}

fn put_places(keys: &mut KeySet, objects: &[OplObject]) -> Result<(), AllocError>
    ensures { OnOk result (keys.new ≡ fold with_key keys.old (keys_of (filter (on_side is_place) objects.now))) }
{
    for object in objects {
        if is_place(&object.side) {
            keys.put(object.key)?;
        }
    }
    Ok(())
}

fn is_place(side: &Option<Content>) -> bool
    ensures { result ≡ is_place side.now }
{
    match side {
        Some(Content::Node { .. }) => true,
        Some(Content::Way { .. }) => true,
        _ => false,
    }
}

// The relations that refer to one of these.
fn relations_to(
    alloc: Global,
    batches: &[Vec<OplObject>],
    places: &KeySet,
) -> Result<KeySet, AllocError>
    ensures { IfOk result (λ set. set ≡ key_set (keys_of (filter (on_side (is_related (among places.now))) (objects_in batches.now)))) }
{
    let mut keys = KeySet::new(alloc);
    for batch in batches {
        put_relations(&mut keys, batch, places)?;
    }
    Ok(keys)
}

fn put_relations(
    keys: &mut KeySet,
    objects: &[OplObject],
    places: &KeySet,
) -> Result<(), AllocError>
    ensures { OnOk result (keys.new ≡ fold with_key keys.old (keys_of (filter (on_side (is_related (among places.now))) objects.now))) }
{
    for object in objects {
        if is_related(&object.side, places) {
            keys.put(object.key)?;
        }
    }
    Ok(())
}

#[tactic(auto, using(osm_base::proofs::AnyMap::list_any_map))]
fn is_related(side: &Option<Content>, keys: &KeySet) -> bool
    ensures { result ≡ is_related (among keys.now) side.now }
{
    match side {
        Some(Content::Relation { members, .. }) => names_one(members.as_slice(), keys),
        _ => false,
    }
}

fn names_one(members: &[Member], keys: &KeySet) -> bool
    ensures { result ≡ list_any (λ member. among keys.now member.key) members.now }
{
    members.iter().any(|member| keys.contains(member.key))
}

fn keep_relations(batches: &mut Vec<Vec<OplObject>>, places: &KeySet, relations: &KeySet)
    ensures { objects_in batches.new.items ≡ filter (on_side (relation_left (among places.now) (among relations.now))) (objects_in batches.old.items) }
{
    for batch in batches.iter_mut() {
        keep_relations_of(batch, places, relations);
    }
}

fn keep_relations_of(objects: &mut Vec<OplObject>, places: &KeySet, relations: &KeySet)
    ensures { objects.new.items ≡ filter (on_side (relation_left (among places.now) (among relations.now))) objects.old.items }
{
    objects.retain(|object| relation_stays(&object.side, places, relations));
}

fn relation_stays(side: &Option<Content>, places: &KeySet, relations: &KeySet) -> bool
    ensures { result ≡ relation_left (among places.now) (among relations.now) side.now }
{
    match side {
        Some(Content::Relation { .. }) => is_related(side, places) || is_related(side, relations),
        _ => true,
    }
}
