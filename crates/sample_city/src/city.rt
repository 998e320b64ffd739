//! The objects of the city, one kind after the other.
ghost use Rattle.std.specs.Prelude.{◌≡◌, ◌≤◌, ◌*◌, ◌+◌, ◌-◌, ◌++◌, ◌<◌, IfOk, OnOk, codes, length, map, pos};
ghost use Rattle.std.specs.Fmt.{decimal};
ghost use Rattle.std.specs.List.{range_with_len};
ghost use Rattle.osm_base.specs.declared.key.Kind.TheVariants as kind;
ghost use Rattle.osm_base.specs.Tags.{with_tag};
ghost use Rattle.osm_table.specs.Told.{IsTold, with_told};
ghost use Rattle.sample_city.specs.City.{all_of, all_told, as_told, city, city_meta, junction, leg, named, numbered, origin, place_of, residential, route, route_tags, street, ten_from};
ghost use Rattle.sample_city.specs.Common.{in_common};

use osm_base::{
    Content, Coord, Key, Kind, Member, Members, Meta, Moment, Refs, Stamp, Tags, Text, coord_of,
    write_digits,
};
use osm_table::{Told, ToldMap};
use std::alloc::{AllocError, Global};

/// The nodes of a row of the grid, and how far they are from each other in units of 10^-7 degree.
const ROW: u32 = 1_000;

const STEP: u32 = 10_000;

// What the objects share.
#[derive(Drop)]
struct Common {
    meta: Meta,
    highway: Text,
    residential: Text,
    name: Text,
    number: Text,
    kind: Text,
    route: Text,
    no_role: Text,
}

impl Common {
    fn new(alloc: Global) -> Result<Self, AllocError>
        ensures { IfOk result (λ c. c ≡ in_common) }
    {
        let meta = city_meta(alloc)?;
        let streets = street_words(alloc)?;
        let routes = route_words(alloc)?;
        Ok(Common {
            meta,
            highway: streets.highway,
            residential: streets.residential,
            name: streets.name,
            number: routes.number,
            kind: routes.kind,
            route: routes.route,
            no_role: routes.no_role,
        })
    }
}

fn city_meta(alloc: Global) -> Result<Meta, AllocError>
    ensures { IfOk result (λ meta. meta ≡ city_meta) }
{
    let user = text(alloc, b"city")?;
    Ok(Meta {
        changeset: 1,
        time: Moment::new(Some(Stamp {
            year: 2020,
            month: 1,
            day: 1,
            hour: 0,
            minute: 0,
            second: 0,
        })),
        uid: 1,
        user,
    })
}

// The words of a street's tags.
#[derive(Drop)]
struct StreetWords {
    highway: Text,
    residential: Text,
    name: Text,
}

fn street_words(alloc: Global) -> Result<StreetWords, AllocError>
    ensures { IfOk result (λ words. words ≡ record { highway = in_common.highway; residential = in_common.residential; name = in_common.name }) }
{
    Ok(StreetWords {
        highway: text(alloc, b"highway")?,
        residential: text(alloc, b"residential")?,
        name: text(alloc, b"name")?,
    })
}

// The words of a route's tags, and the role of its members.
#[derive(Drop)]
struct RouteWords {
    number: Text,
    kind: Text,
    route: Text,
    no_role: Text,
}

fn route_words(alloc: Global) -> Result<RouteWords, AllocError>
    ensures { IfOk result (λ words. words ≡ record { number = in_common.number; kind = in_common.kind; route = in_common.route; no_role = in_common.no_role }) }
{
    Ok(RouteWords {
        number: text(alloc, b"ref")?,
        kind: text(alloc, b"type")?,
        route: text(alloc, b"route")?,
        no_role: Text::new(alloc)?,
    })
}

/// Tells of a city of so many streets: nine nodes for each and one more, the streets, and a route for each ten.
///
/// # Errors
/// No memory was left.
pub fn sample_city(alloc: Global, streets: u32) -> Result<ToldMap, AllocError>
    requires { (1 ≤ streets) × (streets ≤ 100000) }
    ensures { IfOk result (λ told. told ≡ city streets) }
{
    let common = Common::new(alloc)?;
    city_with(alloc, &common, streets)
}

fn city_with(alloc: Global, common: &Common, streets: u32) -> Result<ToldMap, AllocError>
    requires common { common.now ≡ in_common }
    requires few { (1 ≤ streets) × (streets ≤ 100000) }
    ensures { IfOk result (λ told. told ≡ city streets) }
{
    let nodes = 9 * streets + 1;
    let routes = streets / 10;
    let mut told = ToldMap::with_capacity(alloc, (nodes + streets + routes) as usize)?;
    tell_nodes(alloc, common, nodes, &mut told)?;
    tell_streets(alloc, common, streets, &mut told)?;
    tell_routes(alloc, common, routes, &mut told)?;
    Ok(told)
}

fn tell_nodes(
    alloc: Global,
    common: &Common,
    nodes: u32,
    told: &mut ToldMap,
) -> Result<(), AllocError>
    requires common { common.now ≡ in_common }
    requires few { nodes ≤ 900001 }
    ensures { OnOk result (told.new ≡ all_told told.old (all_of kind.Node junction nodes)) }
{
    for k in 1..nodes + 1 {
        tell(told, common, key(Kind::Node, k), junction(alloc, k))?;
    }
    Ok(())
}

fn tell_streets(
    alloc: Global,
    common: &Common,
    streets: u32,
    told: &mut ToldMap,
) -> Result<(), AllocError>
    requires common { common.now ≡ in_common }
    requires few { streets ≤ 100000 }
    ensures { OnOk result (told.new ≡ all_told told.old (all_of kind.Way street streets)) }
{
    for j in 1..streets + 1 {
        tell(told, common, key(Kind::Way, j), street(alloc, common, j)?)?;
    }
    Ok(())
}

fn tell_routes(
    alloc: Global,
    common: &Common,
    routes: u32,
    told: &mut ToldMap,
) -> Result<(), AllocError>
    requires common { common.now ≡ in_common }
    requires few { routes ≤ 10000 }
    ensures { OnOk result (told.new ≡ all_told told.old (all_of kind.Relation route routes)) }
{
    for q in 1..routes + 1 {
        tell(
            told,
            common,
            key(Kind::Relation, q),
            route(alloc, common, q)?,
        )?;
    }
    Ok(())
}

fn key(kind: Kind, number: u32) -> Key
    ensures { result ≡ numbered kind number }
{
    Key {
        kind,
        id: i64::from(number),
    }
}

// Tells of an object as it stands, in its first version.
fn tell(told: &mut ToldMap, common: &Common, key: Key, content: Content) -> Result<(), AllocError>
    requires common { common.now ≡ in_common }
    requires allowed { IsTold key (as_told content) }
    ensures { OnOk result (told.new ≡ with_told told.old key (as_told content)) }
{
    let meta = common.meta.copy()?;
    told.put(
        key,
        Told::Live {
            version: 1,
            content,
            meta,
        },
    )
}

fn junction(alloc: Global, k: u32) -> Content
    requires { 1 ≤ k }
    ensures { result ≡ junction k }
{
    Content::Node {
        tags: Tags::new(alloc),
        at: place_of(k),
    }
}

// The place of a node of the grid.
fn place_of(k: u32) -> Coord
    requires { 1 ≤ k }
    ensures { result ≡ place_of k }
{
    let column = (k - 1) % ROW;
    let row = (k - 1) / ROW;
    let at = coord_of(i64::from(column * STEP), i64::from(row) * i64::from(STEP));
    at.unwrap_or(Coord { lon: 0, lat: 0 })
}

fn street(alloc: Global, common: &Common, j: u32) -> Result<Content, AllocError>
    requires common { common.now ≡ in_common }
    requires few { (1 ≤ j) × (j ≤ 100000) }
    ensures { IfOk result (λ content. content ≡ street j) }
{
    let refs = Refs::from_vec(ten_from(alloc, 9 * (j - 1) + 1)?)?;
    let tags = street_tags(alloc, common, j)?;
    Ok(Content::Way { tags, refs })
}

fn street_tags(alloc: Global, common: &Common, j: u32) -> Result<Tags, AllocError>
    requires { common.now ≡ in_common }
    ensures { IfOk result (λ tags. tags ≡ residential ++ named (codes "Street " ++ decimal j)) }
{
    let name = with_number(alloc, "Street ", j)?;
    let mut tags = Tags::new(alloc);
    put_copied(&mut tags, &common.highway, &common.residential)?;
    put_tag(&mut tags, &common.name, name)?;
    Ok(tags)
}

fn put_copied(tags: &mut Tags, key: &Text, value: &Text) -> Result<(), AllocError>
    requires { 0 < length key.now }
    ensures { OnOk result (tags.new ≡ with_tag tags.old key.now value.now) }
{
    put_tag(tags, key, value.copy()?)
}

fn put_tag(tags: &mut Tags, key: &Text, value: Text) -> Result<(), AllocError>
    requires { 0 < length key.now }
    ensures { OnOk result (tags.new ≡ with_tag tags.old key.now value) }
{
    tags.put(key.copy()?, value)
}

fn route(alloc: Global, common: &Common, q: u32) -> Result<Content, AllocError>
    requires common { common.now ≡ in_common }
    requires few { (1 ≤ q) × (q ≤ 10000) }
    ensures { IfOk result (λ content. content ≡ route q) }
{
    let members = Members::from_vec(route_legs(alloc, common, q)?)?;
    let tags = route_tags(alloc, common, q)?;
    Ok(Content::Relation { tags, members })
}

fn route_tags(alloc: Global, common: &Common, q: u32) -> Result<Tags, AllocError>
    requires { common.now ≡ in_common }
    ensures { IfOk result (λ tags. tags ≡ route_tags (decimal q)) }
{
    let number = with_number(alloc, "", q)?;
    let mut tags = Tags::new(alloc);
    put_tag(&mut tags, &common.number, number)?;
    put_copied(&mut tags, &common.kind, &common.route)?;
    Ok(tags)
}

fn route_legs(alloc: Global, common: &Common, q: u32) -> Result<Vec<Member>, AllocError>
    requires common { common.now ≡ in_common }
    requires few { (1 ≤ q) × (q ≤ 10000) }
    ensures { IfOk result (λ members. members.items ≡ map leg (ten_from (10 * (q - 1) + 1))) }
{
    let streets = ten_from(alloc, 10 * (q - 1) + 1)?;
    legs(alloc, common, &streets)
}

// The ways as members without a role.
fn legs(alloc: Global, common: &Common, ways: &[i64]) -> Result<Vec<Member>, AllocError>
    requires { common.now ≡ in_common }
    ensures { IfOk result (λ members. members.items ≡ map leg ways.now) }
{
    let mut members = Vec::with_capacity(alloc, ways.len())?;
    for id in ways {
        members.push(Member {
            key: Key {
                kind: Kind::Way,
                id: *id,
            },
            role: common.no_role.copy()?,
        })?;
    }
    Ok(members)
}

// Ten ids in a row.
fn ten_from(alloc: Global, first: u32) -> Result<Vec<i64>, AllocError>
    requires { first ≤ 1000000 }
    ensures { IfOk result (λ ids. ids.items ≡ ten_from first) }
{
    let mut ids = Vec::with_capacity(alloc, 10)?;
    for id in first..first + 10 {
        ids.push(i64::from(id))?;
    }
    Ok(ids)
}

// A word with a number behind it.
fn with_number(alloc: Global, word: &str, number: u32) -> Result<Text, AllocError>
    ensures { IfOk result (λ text. text ≡ word.now ++ decimal number) }
{
    let mut bytes = Vec::from_slice(alloc, word.as_bytes())?;
    write_digits(u64::from(number), &mut bytes)?;
    text(alloc, &bytes)
}

// The text of bytes that are UTF-8, so that only memory can be wanting.
fn text(alloc: Global, bytes: &[u8]) -> Result<Text, AllocError>
    ensures { IfOk result (λ text. text ≡ bytes.now) }
{
    match Text::from_bytes(alloc, bytes) {
        Ok(text) => Ok(text),
        Err(_) => Err(AllocError),
    }
}
