//! The members of a relation after ways are joined to one.
ghost use Rattle.std.specs.Prelude.{◌≡◌, ◌<◌, ◌≤◌, map, reverse, take, drop, length, true, IfOk};
ghost use Rattle.std.specs.Cmp.Lexicographic.{pointwise};
ghost use Rattle.std.specs.List.{list_all};
ghost use Rattle.std.specs.Option.{option_map_or};
ghost use Rattle.osm_base.specs.Rank.{is_key};
ghost use Rattle.osm_base.specs.Same.{same_text};
ghost use Rattle.tool_api.specs.Upkeep.{first_in, is_run, folded, folded_from};
ghost use Rattle.relation_upkeep.specs.Folding.{behind, read_on};

use osm_base::{Key, Member, Members, same_key};
use std::alloc::{AllocError, Global};
use tool_api::KeySet;

/// Whether the members name just these keys, in this order.
fn name_in_order(run: &[Member], keys: &[Key]) -> bool
    ensures { result ≡ pointwise is_key (map (λ m. m.key) run.now) keys.now }
{
    if run.len() != keys.len() {
        return false;
    }
    for i in 0..run.len() {
        if !same_key(run[i].key, keys[i]) {
            return false;
        }
    }
    true
}

fn have_role(run: &[Member], role: &[u8]) -> bool
    ensures { result ≡ list_all (λ n. same_text n.role role.now) run.now }
{
    run.iter().all(|member| member.role.as_bytes() == role)
}

fn have_one_role(run: &[Member]) -> bool
    ensures { result ≡ option_map_or (λ m. list_all (λ n. same_text n.role m.role) run.now) (first_in run.now) true }
{
    run.first()
        .is_none_or(|member| have_role(run, member.role.as_bytes()))
}

/// Whether the members are a run of the ways, which are given forward and backward.
fn is_run(run: &[Member], ways: &[Key], back: &[Key]) -> bool
    requires back { back.now ≡ reverse ways.now }
    ensures { result ≡ is_run ways.now run.now }
{
    (name_in_order(run, ways) || name_in_order(run, back)) && have_one_role(run)
}

fn first_of(members: &[Member], count: usize) -> &[Member]
    ensures { result.now ≡ take count members.now }
{
    if count < members.len() {
        &members[..count]
    } else {
        members
    }
}

fn members_from(members: &[Member], start: usize) -> &[Member]
    requires { start ≤ length members.now }
    ensures { result.now ≡ drop start members.now }
{
    &members[start..]
}

/// Reads the first of the members, and tells how many behind it belong to its run; `None` where its run isn't whole.
fn read_first(
    folded: &mut Vec<Member>,
    rest: &[Member],
    ways: &[Key],
    back: &[Key],
    among: &KeySet,
    kept: Key,
) -> Result<Option<usize>, AllocError>
    requires some { 0 < length rest.now }
    requires back { back.now ≡ reverse ways.now }
    requires among { among.now ≡ ways.now }
    ensures { IfOk result (λ skip. behind folded.old.items (folded_from ways.now kept 0 rest.now) ≡ read_on ways.now kept folded.new.items skip (drop 1 rest.now)) }
{
    let first = &rest[0];
    if !among.contains(first.key) {
        folded.push(first.copy()?)?;
        return Ok(Some(0));
    }
    if !is_run(first_of(rest, ways.len()), ways, back) {
        return Ok(None);
    }
    folded.push(Member {
        key: kept,
        role: first.role.copy()?,
    })?;
    Ok(Some(ways.len() - 1))
}

/// The members after the ways are joined: each run of all the ways, in their order or wholly reversed and with one
/// role, becomes the kept way with that role. `None` exactly where a member is one of the ways and begins no such run.
///
/// It hashes the ways once, and walks the members once.
///
/// # Errors
/// No memory was left.
pub fn fold_members(
    alloc: Global,
    members: &Members,
    ways: &[Key],
    kept: Key,
) -> Result<Option<Members>, AllocError>
    ensures { IfOk result (λ members_after. members_after ≡ folded ways.now kept members.now) }
{
    let among = KeySet::from_slice(alloc, ways)?;
    let back: Vec<Key> = ways.iter().rev().copied().collect(alloc)?;
    let items = members.as_slice();
    let mut folded = Vec::new(alloc);
    let mut skip = 0usize;
    for i in 0..items.len() {
        if 0 < skip {
            skip -= 1;
            continue;
        }
        let rest = members_from(items, i);
        match read_first(&mut folded, rest, ways, &back, &among, kept)? {
            None => return Ok(None),
            Some(behind) => skip = behind,
        }
    }
    Ok(Some(Members::from_vec(folded)?))
}
