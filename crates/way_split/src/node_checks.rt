//! The tests of the nodes that a split names.
ghost use Rattle.std.specs.Prelude.{◌≡◌, [], IfOk};
ghost use Rattle.std.specs.Option.{IfNone};
ghost use Rattle.tool_api.specs.Split.{node_tests};
ghost use Rattle.way_split.specs.NodeChecks.{one_test};

use crate::nodes::node_set;
use osm_base::{Key, node_key};
use std::alloc::AllocError;
use tool_api::{KeySet, Kinds, Refusal};

/// One node: NamedTwice, WrongKind, NotInWay. Two hashed look-ups.
fn one_test(seen: &KeySet, in_way: &KeySet, key: Key) -> Option<Refusal>
    ensures { result ≡ one_test in_way.now seen.now key }
{
    if seen.contains(key) {
        return Some(Refusal::NamedTwice(key));
    }
    if !Kinds::Nodes.takes(key.kind) {
        return Some(Refusal::WrongKind(key));
    }
    if !in_way.contains(node_key(key.id)) {
        return Some(Refusal::NotInWay(key));
    }
    None
}

/// The tests of the nodes as they are given. Nodes that pass are put into `seen`.
///
/// # Errors
/// No memory was left.
pub fn node_tests(
    seen: &mut KeySet,
    refs: &[i64],
    nodes: &[Key],
) -> Result<Option<Refusal>, AllocError>
    requires { seen.old ≡ [] }
    ensures test { IfOk result (λ r. r ≡ node_tests refs.now [] nodes.now) }
    ensures seen { IfOk result (λ r. IfNone r (seen.new ≡ nodes.now)) }
{
    let in_way = node_set(seen.alloc(), refs)?;
    for key in nodes {
        if let Some(refusal) = one_test(seen, &in_way, *key) {
            return Ok(Some(refusal));
        }
        seen.put(*key)?;
    }
    Ok(None)
}
