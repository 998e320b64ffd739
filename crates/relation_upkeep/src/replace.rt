//! The members of a relation after a way was split.
ghost use Rattle.std.specs.Prelude.{◌≡◌, ◌++◌, ◌∷◌, [], length, ◌<◌, ◌||◌, map, None, Some, OnOk, IfOk};
ghost use Rattle.std.specs.List.{flat_map, find, slice_get};
ghost use Rattle.std.specs.Option.{option_copied, option_map};
ghost use Rattle.osm_base.specs.Content.{node};
ghost use Rattle.osm_base.specs.Same.{same_text};
ghost use Rattle.osm_base.specs.declared.content.Content.TheVariants.{Way};
ghost use Rattle.tool_api.specs.Checks.{is_named};
ghost use Rattle.tool_api.specs.Upkeep.{ends, ends_beside, via_nodes, is_among, restricted_piece, touches, is_backward, in_order, is_turn, first_node, last_node, is_restriction, replaced_from, replaced, member_of};
ghost use Rattle.relation_upkeep.specs.Replace.{piece_value, piece_values, members_of, via_of, turn_of, stood, ends_list, turn_value};

use dataset::DataSet;
use osm_base::{Content, Key, Kind, Member, Members, Tags, Text, node_key, same_key};
use std::alloc::{AllocError, Global};
use tool_api::{KeySet, content_of};

/// A piece of a way that was split.
#[derive(Clone, Copy)]
pub struct Piece {
    /// The way that has the piece now.
    pub key: Key,
    /// The id of its first node along the way.
    pub first: i64,
    /// The id of its last node.
    pub last: i64,
    /// Whether it stays in the way that was split.
    pub kept: bool,
}

fn same_bytes(a: &[u8], b: &[u8]) -> bool
    ensures { result ≡ same_text a.now b.now }
{
    a == b
}

fn ends_of(ids: &[i64]) -> Option<(i64, i64)>
    ensures { ends_list result ≡ ends (Way [] ids.now) }
{
    match (ids.first(), ids.last()) {
        (Some(first), Some(last)) => Some((*first, *last)),
        _ => None,
    }
}

/// The first and the last node of a way.
fn ends(content: &Content) -> Option<(i64, i64)>
    ensures { ends_list result ≡ ends content.now }
{
    match content {
        Content::Way { refs, .. } => ends_of(refs.as_slice()),
        _ => None,
    }
}

/// The first and the last node of a key that is a living way other than the split one.
fn ends_beside(ds: &DataSet, way: Key, key: Key) -> Option<(i64, i64)>
    ensures { ends_list result ≡ ends_beside ds.now way key }
{
    if same_key(way, key) {
        return None;
    }
    ends(content_of(ds, key)?)
}

fn is_end(ends: Option<(i64, i64)>, node: i64) -> bool
    ensures { result ≡ is_among (ends_list ends) node }
{
    ends.is_some_and(|(first, last)| node == first || node == last)
}

/// Whether a neighbour is a living way other than the split one, and the node is its first or last.
fn touches(ds: &DataSet, way: Key, node: i64, neighbour: Option<&Member>) -> bool
    ensures { result ≡ touches ds.now way node (option_copied neighbour.entry) }
{
    neighbour.is_some_and(|member| is_end(ends_beside(ds, way, member.key), node))
}

fn first_node(pieces: &[Piece]) -> i64
    ensures { result ≡ first_node (piece_values pieces.now) }
{
    match pieces.first() {
        None => 0,
        Some(piece) => piece.first,
    }
}

fn last_node(pieces: &[Piece]) -> i64
    ensures { result ≡ last_node (piece_values pieces.now) }
{
    match pieces.last() {
        None => 0,
        Some(piece) => piece.last,
    }
}

/// Whether the pieces stand backward between two neighbours. At most four look-ups.
fn is_backward(
    ds: &DataSet,
    way: Key,
    pieces: &[Piece],
    before: Option<&Member>,
    after: Option<&Member>,
) -> bool
    ensures { let a = first_node (piece_values pieces.now) in let b = last_node (piece_values pieces.now) in
        result ≡ is_backward (touches ds.now way a (option_copied before.entry)) (touches ds.now way b (option_copied before.entry)) (touches ds.now way a (option_copied after.entry)) (touches ds.now way b (option_copied after.entry)) }
{
    let a = first_node(pieces);
    let b = last_node(pieces);
    match (touches(ds, way, a, before), touches(ds, way, b, before)) {
        (false, true) => true,
        (true, false) => false,
        _ => touches(ds, way, a, after) && !touches(ds, way, b, after),
    }
}

/// The piece at a place, along the way or backward.
fn piece_at(pieces: &[Piece], i: usize, backward: bool) -> &Piece
    requires { i < length pieces.now }
    ensures { slice_get (in_order backward (piece_values pieces.now)) i ≡ Some (piece_value result.now) }
{
    if backward {
        &pieces[pieces.len() - 1 - i]
    } else {
        &pieces[i]
    }
}

fn push_piece(out: &mut Vec<Member>, piece: &Piece, role: &Text) -> Result<(), AllocError>
    ensures { OnOk result (out.new.items ≡ out.old.items ++ member_of (piece_value piece.now) role.now ∷ []) }
{
    out.push(Member {
        key: piece.key,
        role: role.copy()?,
    })?;
    Ok(())
}

fn push_pieces(
    out: &mut Vec<Member>,
    pieces: &[Piece],
    role: &Text,
    backward: bool,
) -> Result<(), AllocError>
    ensures { OnOk result (out.new.items ≡ out.old.items ++ map (λ p. member_of p role.now) (in_order backward (piece_values pieces.now))) }
{
    for i in 0..pieces.len() {
        push_piece(out, piece_at(pieces, i, backward), role)?;
    }
    Ok(())
}

fn is_turn(role: &Text) -> bool
    ensures { result ≡ is_turn role.now }
{
    same_bytes(role.as_bytes(), b"from") || same_bytes(role.as_bytes(), b"to")
}

/// Adds what stands for a member that names the way: in a restriction at `from` and `to` one piece, else all.
fn push_stood(
    out: &mut Vec<Member>,
    turn: Option<Option<Piece>>,
    pieces: &[Piece],
    role: &Text,
    backward: bool,
) -> Result<(), AllocError>
    ensures { OnOk result (out.new.items ≡ out.old.items ++ stood (turn_value turn) (piece_values pieces.now) role.now backward) }
{
    match turn {
        Some(one) if is_turn(role) => match one {
            None => Ok(()),
            Some(piece) => push_piece(out, &piece, role),
        },
        _ => push_pieces(out, pieces, role, backward),
    }
}

fn push_ends(out: &mut Vec<i64>, ends: Option<(i64, i64)>) -> Result<(), AllocError>
    ensures { OnOk result (out.new.items ≡ out.old.items ++ ends_list ends) }
{
    if let Some((first, last)) = ends {
        out.push(first)?;
        out.push(last)?;
    }
    Ok(())
}

/// Adds the nodes that a member with the role `via` brings.
fn push_via(out: &mut Vec<i64>, ds: &DataSet, way: Key, member: &Member) -> Result<(), AllocError>
    ensures { OnOk result (out.new.items ≡ out.old.items ++ via_nodes ds.now way member.now) }
{
    if !same_bytes(member.role.as_bytes(), b"via") {
        return Ok(());
    }
    match member.key.kind {
        Kind::Node => {
            out.push(member.key.id)?;
            Ok(())
        }
        _ => push_ends(out, ends_beside(ds, way, member.key)),
    }
}

fn via_nodes(ds: &DataSet, way: Key, members: &[Member]) -> Result<Vec<i64>, AllocError>
    ensures { IfOk result (λ out. out.items ≡ flat_map (via_nodes ds.now way) members.now) }
{
    let mut out = Vec::new(ds.alloc());
    for member in members {
        push_via(&mut out, ds, way, member)?;
    }
    Ok(out)
}

/// The keys of nodes, to be found without a walk.
fn node_set(alloc: Global, ids: &[i64]) -> Result<KeySet, AllocError>
    ensures { IfOk result (λ keys. keys ≡ map node ids.now) }
{
    let mut keys = Vec::with_capacity(alloc, ids.len())?;
    for id in ids {
        keys.push(node_key(*id))?;
    }
    KeySet::from_vec(keys)
}

fn first_at(via: &KeySet, pieces: &[Piece]) -> Option<Piece>
    ensures { result ≡ find (λ p. is_named via.now (node p.first) || is_named via.now (node p.last)) pieces.now }
{
    pieces.iter().copied().find(|piece| {
        via.contains(node_key(piece.first)) || via.contains(node_key(piece.last))
    })
}

fn kept_piece(pieces: &[Piece]) -> Option<Piece>
    ensures { result ≡ find (λ p. p.kept) pieces.now }
{
    pieces.iter().copied().find(|piece| piece.kept)
}

/// The first piece with an end among the nodes, else the kept one. The nodes are hashed once.
fn restricted_piece(
    alloc: Global,
    via: &[i64],
    pieces: &[Piece],
) -> Result<Option<Piece>, AllocError>
    ensures { IfOk result (λ piece. option_map piece_value piece ≡ restricted_piece via.now (piece_values pieces.now)) }
{
    let via = node_set(alloc, via)?;
    match first_at(&via, pieces) {
        Some(piece) => Ok(Some(piece)),
        None => Ok(kept_piece(pieces)),
    }
}

fn is_restriction(tags: &Tags) -> bool
    ensures { result ≡ is_restriction tags.now }
{
    tags.get(b"type")
        .is_some_and(|value| same_bytes(b"restriction", value))
}

/// In a restriction the piece that stands for the way at `from` and `to`.
fn turn(
    ds: &DataSet,
    way: Key,
    pieces: &[Piece],
    tags: &Tags,
    members: &[Member],
) -> Result<Option<Option<Piece>>, AllocError>
    ensures { IfOk result (λ turn. turn_value turn ≡ turn_of (via_of ds.now way tags.now members.now) (piece_values pieces.now)) }
{
    if !is_restriction(tags) {
        return Ok(None);
    }
    let via = via_nodes(ds, way, members)?;
    Ok(Some(restricted_piece(ds.alloc(), &via, pieces)?))
}

fn replaced_members(
    ds: &DataSet,
    way: Key,
    pieces: &[Piece],
    tags: &Tags,
    members: &[Member],
) -> Result<Vec<Member>, AllocError>
    ensures { IfOk result (λ out. out.items ≡ replaced_from ds.now way (piece_values pieces.now) (via_of ds.now way tags.now members.now) None members.now) }
{
    let turn = turn(ds, way, pieces, tags, members)?;
    let mut out = Vec::with_capacity(ds.alloc(), members.len())?;
    let mut before = None;
    for i in 0..members.len() {
        let member = &members[i];
        if same_key(way, member.key) {
            let backward = is_backward(ds, way, pieces, before, members.get(i + 1));
            push_stood(&mut out, turn, pieces, &member.role, backward)?;
        } else {
            out.push(member.copy()?)?;
        }
        before = Some(member);
    }
    Ok(out)
}

/// The members of a relation after a way was split into pieces: each that names the way is replaced, by itself, with
/// its neighbours as they are in the data set and the relation. An object that is no relation has none.
///
/// In a restriction (`type=restriction`) a member with the role `from` or `to` becomes one member, the first piece
/// with an end at a `via` node, else the kept piece. Every other becomes all pieces, in the order of the way or
/// backward, as the neighbours touch its ends. Roles stay.
///
/// It costs the members that there are afterwards, a few look-ups for each that names the way, and in a restriction
/// the nodes of the `via` members and one or two look-ups a piece.
///
/// # Errors
/// No memory was left.
pub fn replace_member(
    relation: &Content,
    way: Key,
    pieces: &[Piece],
    ds: &DataSet,
) -> Result<Members, AllocError>
    ensures { IfOk result (λ members. members ≡ members_of (replaced ds.now way (piece_values pieces.now) relation.now)) }
{
    match relation {
        Content::Relation { tags, members } => {
            Members::from_vec(replaced_members(ds, way, pieces, tags, members.as_slice())?)
        }
        _ => Members::new(ds.alloc()),
    }
}
