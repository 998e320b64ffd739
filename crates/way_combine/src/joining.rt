//! Joins the references of ways end to end.
ghost use Rattle.std.specs.Prelude.{◌≡◌, ◌≤◌, ◌++◌, [], drop, length, IfOk, OnOk};
ghost use Rattle.tool_api.specs.Combine.{same_end, last_in, is_end, first_way, next_way, joined_on, joined};
ghost use Rattle.tool_api.specs.Upkeep.{first_in};
ghost use Rattle.relation_upkeep.specs.Union.{unless};

use crate::ways::turned;
use dataset::DataSet;
use osm_base::{Key, Refs};
use std::alloc::AllocError;
use tool_api::{Refusal, first_in, last_in, refs_at};

fn same_end(a: Option<i64>, b: Option<i64>) -> bool
    ensures { result ≡ same_end a b }
{
    match (a, b) {
        (Some(a), Some(b)) => a == b,
        _ => false,
    }
}

/// Whether the node is the first or last of the references.
fn is_end(node: Option<i64>, refs: &[i64]) -> bool
    ensures { result ≡ is_end node refs.now }
{
    same_end(node, first_in(refs)) || same_end(node, last_in(refs))
}

/// Adds all but the first of the references.
fn push_rest(joined: &mut Vec<i64>, refs: &[i64]) -> Result<(), AllocError>
    ensures { OnOk result (joined.new.items ≡ joined.old.items ++ drop 1 refs.now) }
{
    if let Some((_, rest)) = refs.split_first() {
        joined.extend_from_slice(rest)?;
    }
    Ok(())
}

/// Puts the first way, forward where its last node is an end of the second, else backward.
fn put_first(
    joined: &mut Vec<i64>,
    refs: &[i64],
    second: Key,
    next: &[i64],
) -> Result<Option<Refusal>, AllocError>
    requires { joined.old.items ≡ [] }
    ensures { IfOk result (λ refusal. first_way second refs.now next.now ≡ unless refusal joined.new.items) }
{
    if is_end(last_in(refs), next) {
        joined.extend_from_slice(refs)?;
        return Ok(None);
    }
    if is_end(first_in(refs), next) {
        let back = turned(*joined.allocator(), refs)?;
        joined.extend_from_slice(&back)?;
        return Ok(None);
    }
    Ok(Some(Refusal::NotJoined(second)))
}

/// Puts a next way, forward where its first node is the end so far, else backward. The joint stands once.
fn put_next(joined: &mut Vec<i64>, way: Key, refs: &[i64]) -> Result<Option<Refusal>, AllocError>
    ensures { IfOk result (λ refusal. next_way way joined.old.items refs.now ≡ unless refusal joined.new.items) }
{
    if same_end(last_in(joined), first_in(refs)) {
        push_rest(joined, refs)?;
        return Ok(None);
    }
    if same_end(last_in(joined), last_in(refs)) {
        let back = turned(*joined.allocator(), refs)?;
        push_rest(joined, &back)?;
        return Ok(None);
    }
    Ok(Some(Refusal::NotJoined(way)))
}

/// Puts the ways one after the other.
fn put_all(joined: &mut Vec<i64>, ds: &DataSet, ways: &[Key]) -> Result<Option<Refusal>, AllocError>
    ensures { IfOk result (λ refusal. joined_on ds.now joined.old.items ways.now ≡ unless refusal joined.new.items) }
{
    for way in ways {
        if let Some(refusal) = put_next(joined, *way, refs_at(ds, *way))? {
            return Ok(Some(refusal));
        }
    }
    Ok(None)
}

/// The references of all the ways, each joint once, or NotJoined for the first way that doesn't meet the end of those
/// before. It walks the references once.
///
/// # Errors
/// No memory was left.
pub fn joined(ds: &DataSet, ways: &[Key]) -> Result<Result<Refs, Refusal>, AllocError>
    requires { 2 ≤ length ways.now }
    ensures { IfOk result (λ refs. refs ≡ joined ds.now ways.now) }
{
    let mut refs = Vec::new(ds.alloc());
    let second = ways[1];
    if let Some(refusal) = put_first(
        &mut refs,
        refs_at(ds, ways[0]),
        second,
        refs_at(ds, second),
    )? {
        return Ok(Err(refusal));
    }
    if let Some(refusal) = put_all(&mut refs, ds, &ways[1..])? {
        return Ok(Err(refusal));
    }
    Ok(Ok(Refs::from_vec(refs)?))
}
