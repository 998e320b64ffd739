//! The pieces of a way that is cut at nodes.
ghost use Rattle.std.specs.Prelude.{◌≡◌, ◌++◌, ◌∷◌, [], if◌then◌else◌, IfOk, ◌<◌, ◌≤◌, ◌+◌, ◌&&◌, nat_lt, pos, slice_index_or, length};
ghost use Rattle.std.specs.List.{position, position_or_len};
ghost use Rattle.osm_base.specs.Content.{node};
ghost use Rattle.tool_api.specs.Checks.{is_named};
ghost use Rattle.tool_api.specs.Split.{pieces, is_closed, turned, all_pieces, kept_number};

use crate::nodes::node_at;
use osm_base::{Refs, node_key, same_key};
use std::alloc::{AllocError, Global};
use tool_api::KeySet;

/// Whether a way is cut at a place: inside, at a named node.
fn cut_at(refs: &[i64], i: usize, cuts: &KeySet) -> bool
    requires { i < length refs.now }
    ensures { result ≡ (nat_lt (i + 1) (length refs.now) && is_named cuts.now (node (slice_index_or refs.now i (pos 0)))) }
{
    i + 1 < refs.len() && cuts.contains(node_at(refs, i))
}

fn ref_at(refs: &[i64], i: usize) -> i64
    requires { i < length refs.now }
    ensures { result ≡ slice_index_or refs.now i (pos 0) }
{
    refs[i]
}

fn one_ref(alloc: Global, id: i64) -> Result<Refs, AllocError>
    ensures { IfOk result (λ refs. refs ≡ id ∷ []) }
{
    let mut refs = Refs::new(alloc)?;
    refs.push(id)?;
    Ok(refs)
}

/// Takes one reference more, and ends the piece there if it is a cut.
fn longer(
    alloc: Global,
    out: &mut Vec<Refs>,
    piece: Refs,
    id: i64,
    cut: bool,
) -> Result<Refs, AllocError>
    ensures out { IfOk result (λ _. out.new.items ≡ (if cut then out.old.items ++ (piece ++ id ∷ []) ∷ [] else out.old.items)) }
    ensures piece { IfOk result (λ next. next ≡ (if cut then id ∷ [] else piece ++ id ∷ [])) }
{
    let mut piece = piece;
    piece.push(id)?;
    if !cut {
        return Ok(piece);
    }
    out.push(piece)?;
    Ok(one_ref(alloc, id)?)
}

/// The pieces between the cuts, which share the nodes there.
fn pieces(alloc: Global, refs: &[i64], cuts: &KeySet) -> Result<Vec<Refs>, AllocError>
    ensures { IfOk result (λ ps. ps.items ≡ pieces (λ n. is_named cuts.now (node n)) refs.now) }
{
    let mut out = Vec::new(alloc);
    if refs.is_empty() {
        return Ok(out);
    }
    let mut piece = one_ref(alloc, refs[0])?;
    for i in 1..refs.len() {
        let cut = cut_at(refs, i, cuts);
        piece = longer(alloc, &mut out, piece, ref_at(refs, i), cut)?;
    }
    out.push(piece)?;
    Ok(out)
}

/// Whether a way has at least three references, and the first is the last.
fn is_closed(refs: &[i64]) -> bool
    ensures { result ≡ is_closed refs.now }
{
    3 <= refs.len() && same_key(node_at(refs, 0), node_at(refs, refs.len() - 1))
}

fn place_of_cut(circle: &[i64], cuts: &KeySet) -> Option<usize>
    ensures { result ≡ position (λ n. is_named cuts.now (node n)) circle.now }
{
    circle.iter().position(|id| cuts.contains(node_key(*id)))
}

/// The number of the first cut, or of references.
fn first_cut(circle: &[i64], cuts: &KeySet) -> usize
    ensures value { result ≡ position_or_len (λ n. is_named cuts.now (node n)) circle.now }
    ensures within { result ≤ length circle.now }
{
    match place_of_cut(circle, cuts) {
        None => circle.len(),
        Some(i) => i,
    }
}

/// The circle of a closed way, read from its first cut round to the same node.
fn turned(alloc: Global, circle: &[i64], cuts: &KeySet) -> Result<Vec<i64>, AllocError>
    ensures { IfOk result (λ ids. ids.items ≡ turned (λ n. is_named cuts.now (node n)) circle.now) }
{
    let from = first_cut(circle, cuts);
    let mut ids = Vec::from_slice(alloc, &circle[from..])?;
    ids.extend_from_slice(&circle[..from])?;
    if let Some(id) = circle.get(from) {
        ids.push(*id)?;
    }
    Ok(ids)
}

/// The pieces of an open or a closed way. It costs the references, each with a hashed look-up.
///
/// # Errors
/// No memory was left.
pub fn all_pieces(alloc: Global, refs: &[i64], cuts: &KeySet) -> Result<Vec<Refs>, AllocError>
    ensures { IfOk result (λ ps. ps.items ≡ all_pieces (λ n. is_named cuts.now (node n)) refs.now) }
{
    if !is_closed(refs) {
        return pieces(alloc, refs, cuts);
    }
    let circle = turned(alloc, &refs[..refs.len() - 1], cuts)?;
    pieces(alloc, &circle, cuts)
}

/// The number of the longest piece, the first of equals: the one that stays in the way.
pub fn kept_number(pieces: &[Refs]) -> usize
    ensures { result ≡ kept_number pieces.now }
{
    let mut kept = 0;
    let mut most = 0;
    for i in 0..pieces.len() {
        let size = pieces[i].as_slice().len();
        if size <= most {
            continue;
        }
        kept = i;
        most = size;
    }
    kept
}
