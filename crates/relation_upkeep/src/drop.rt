//! Members without those that go.
ghost use Rattle.std.specs.Prelude.{◌≡◌, IfOk};
ghost use Rattle.tool_api.specs.Checks.{is_named};
ghost use Rattle.tool_api.specs.Gone.{members_without};

use osm_base::{Member, Members};
use std::alloc::{AllocError, Global};
use tool_api::KeySet;

/// The members without those whose keys are among the gone, in their order. A look-up for each member, and a copy of
/// each that stays.
///
/// # Errors
/// No memory was left.
pub fn drop_members(alloc: Global, members: &Members, gone: &KeySet) -> Result<Members, AllocError>
    ensures { IfOk result (λ left. left ≡ members_without (is_named gone.now) members.now) }
{
    let left = staying(alloc, members.as_slice(), gone)?;
    Members::from_vec(left)
}

fn staying(alloc: Global, members: &[Member], gone: &KeySet) -> Result<Vec<Member>, AllocError>
    ensures { IfOk result (λ left. left.items ≡ members_without (is_named gone.now) members.now) }
{
    let mut left = Vec::new(alloc);
    for member in members {
        if !gone.contains(member.key) {
            left.push(member.copy()?)?;
        }
    }
    Ok(left)
}
