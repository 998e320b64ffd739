//! The ways that are to be joined: the tests of each by itself, and references turned round.
ghost use Rattle.std.specs.Prelude.{◌≡◌, reverse, IfOk};
ghost use Rattle.tool_api.specs.Combine.{way_test};
ghost use Rattle.tool_api.specs.Checks.{first_of};

use dataset::DataSet;
use osm_base::Key;
use std::alloc::{AllocError, Global};
use tool_api::{Refusal, complete_test, first_refusal, refs_at};

/// The references from the last to the first.
///
/// # Errors
/// No memory was left.
pub fn turned(alloc: Global, refs: &[i64]) -> Result<Vec<i64>, AllocError>
    ensures { IfOk result (λ back. back.items ≡ reverse refs.now) }
{
    refs.iter().rev().copied().collect(alloc)
}

fn way_test(ds: &DataSet, way: Key) -> Option<Refusal>
    ensures { result ≡ way_test ds.now way }
{
    let refs = refs_at(ds, way);
    if let Some(refusal) = complete_test(ds, refs) {
        return Some(refusal);
    }
    if refs.is_empty() {
        return Some(Refusal::NotJoined(way));
    }
    None
}

/// Per way as given: IncompleteObject for its first Incomplete reference, NotJoined where it has no references. A
/// look-up for each reference.
pub fn way_tests(ds: &DataSet, ways: &[Key]) -> Option<Refusal>
    ensures { result ≡ first_of (way_test ds.now) ways.now }
{
    first_refusal(ways, |way| way_test(ds, way))
}
