//! The pieces of a way with their keys.
ghost use Rattle.std.specs.Prelude.{◌≡◌, ◌≤◌, ◌^◌, map, pos, IfOk};
ghost use Rattle.std.specs.Option.{unwrap_or, option_copied};
ghost use Rattle.tool_api.specs.Split.{keyed, piece_of, others, kept_refs};
ghost use Rattle.relation_upkeep.specs.Replace.{piece_value, piece_values};

use osm_base::{Key, Keys, Kind, Refs, same_key};
use relation_upkeep::Piece;
use std::alloc::{AllocError, Global};
use tool_api::new_key;

/// The pieces with their keys: the kept one has the way's, the others new ones in order, from a number on.
///
/// # Errors
/// No memory was left.
pub fn keyed(
    alloc: Global,
    way: Key,
    kept: usize,
    next: u64,
    pieces: &[Refs],
) -> Result<Vec<(Key, Refs)>, AllocError>
    requires low { 1 ≤ next }
    requires high { next ≤ 10 ^ 18 }
    ensures { IfOk result (λ parts. parts.items ≡ keyed way kept 0 next pieces.now) }
{
    let mut parts = Vec::with_capacity(alloc, pieces.len())?;
    let mut number = next;
    for i in 0..pieces.len() {
        let refs = pieces[i].copy()?;
        if i == kept {
            parts.push((way, refs))?;
            continue;
        }
        parts.push((new_key(Kind::Way, number), refs))?;
        number += 1;
    }
    Ok(parts)
}

/// The keys of the new ways, in order along the way.
///
/// # Errors
/// No memory was left.
pub fn new_keys(alloc: Global, way: Key, parts: &[(Key, Refs)]) -> Result<Keys, AllocError>
    ensures { IfOk result (λ keys. keys ≡ map (λ p. p.0) (others way parts.now)) }
{
    let mut keys = Keys::new(alloc);
    for part in parts {
        if same_key(way, part.0) {
            continue;
        }
        keys.push(part.0)?;
    }
    Ok(keys)
}

/// The references that stay in the way.
///
/// # Errors
/// No memory was left.
pub fn kept_refs(alloc: Global, way: Key, parts: &[(Key, Refs)]) -> Result<Refs, AllocError>
    ensures { IfOk result (λ refs. refs ≡ kept_refs way parts.now) }
{
    for part in parts {
        if same_key(way, part.0) {
            return part.1.copy();
        }
    }
    Refs::new(alloc)
}

fn or_zero(id: Option<&i64>) -> i64
    ensures { result ≡ unwrap_or (option_copied id.entry) (pos 0) }
{
    id.copied().unwrap_or(0)
}

fn piece_of(way: Key, part: &(Key, Refs)) -> Piece
    ensures { piece_value result ≡ piece_of way part.now }
{
    let ids = part.1.as_slice();
    Piece {
        key: part.0,
        first: or_zero(ids.first()),
        last: or_zero(ids.last()),
        kept: same_key(way, part.0),
    }
}

/// The pieces as members of relations see them.
///
/// # Errors
/// No memory was left.
pub fn pieces_of(alloc: Global, way: Key, parts: &[(Key, Refs)]) -> Result<Vec<Piece>, AllocError>
    ensures { IfOk result (λ pieces. piece_values pieces.items ≡ map (piece_of way) parts.now) }
{
    let mut pieces = Vec::with_capacity(alloc, parts.len())?;
    for part in parts {
        pieces.push(piece_of(way, part))?;
    }
    Ok(pieces)
}
