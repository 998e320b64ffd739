//! The list of all findings.
ghost use Rattle.std.specs.Prelude.{◌≡◌, ◌&&◌, ◌||◌, ◌++◌, [], not, map, nat_le, length, IfOk, OnOk};
ghost use Rattle.std.specs.List.{cons_option, filter, filter_map};
ghost use Rattle.std.specs.Option.{option_map};
ghost use Rattle.std.specs.Ordering.{int_eq};
ghost use Rattle.osm_base.specs.Content.{node};
ghost use Rattle.osm_table.specs.Table.{keys_by_rank};
ghost use Rattle.tool_api.specs.Checks.{is_named};
ghost use Rattle.tool_api.specs.Findings.{are_together, ends_meet, is_repeated, is_open_ring};
ghost use Rattle.tool_api.specs.Combine.{last_in};
ghost use Rattle.tool_api.specs.Upkeep.{first_in};
ghost use Rattle.map_checks.specs.Findings.{doubled_finding, doubled_key, findings, HasDoubled};
ghost use Rattle.map_checks.specs.declared.finding.Finding.TheVariants.{Doubled, Repeated, OpenRing};

use crate::by_kind::refs_near;
use crate::finding::{Finding, Findings};
use crate::places::{Places, are_together};
use crate::repeats::has_repeat;
use dataset::DataSet;
use osm_base::{Key, node_key};
use std::alloc::{AllocError, Global};
use std::cell::Cell;
use tool_api::{KeySet, first_in, last_in};

fn push_doubled(found: &mut Vec<Finding>, key: Key, of: Option<Key>) -> Result<(), AllocError>
    ensures { OnOk result (found.new.items ≡ found.old.items ++ cons_option (option_map (λ first. Doubled key first) of) []) }
{
    if let Some(of) = of {
        found.push(Finding::Doubled { key, of })?;
    }
    Ok(())
}

/// Appends the doubled nodes, by rank.
fn push_doubled_nodes(
    ds: &DataSet,
    keys: &[Key],
    found: &mut Vec<Finding>,
) -> Result<(), AllocError>
    requires keys { keys.now ≡ keys_by_rank ds.now }
    requires none { found.old.items ≡ [] }
    ensures { OnOk result (found.new.items ≡ filter_map (doubled_finding ds.now) keys.now) }
{
    let mut places = Places::with_capacity(ds.alloc(), keys.len())?;
    note_nodes(ds, keys, &mut places, found)
}

/// Notes each node at its place, and appends those that are doubled. The places are lent, so that they are dropped once.
fn note_nodes(
    ds: &DataSet,
    keys: &[Key],
    places: &mut Places,
    found: &mut Vec<Finding>,
) -> Result<(), AllocError>
    requires keys { keys.now ≡ keys_by_rank ds.now }
    requires places { places.old.first.entries ≡ [] }
    requires none { found.old.items ≡ [] }
    ensures { OnOk result (found.new.items ≡ filter_map (doubled_finding ds.now) keys.now) }
{
    let near = Cell::new(0);
    for key in keys {
        let of = places.look_at(ds, &near, *key)?;
        push_doubled(found, *key, of)?;
    }
    Ok(())
}

fn keys_of(alloc: Global, found: &[Finding]) -> Result<Vec<Key>, AllocError>
    ensures { IfOk result (λ keys. keys.items ≡ filter_map doubled_key found.now) }
{
    found
        .iter()
        .copied()
        .filter_map(|finding| finding.doubled_key())
        .collect(alloc)
}

/// Which nodes are doubled. It hashes each of them once.
fn doubled_keys(ds: &DataSet, keys: &[Key], found: &[Finding]) -> Result<KeySet, AllocError>
    requires keys { keys.now ≡ keys_by_rank ds.now }
    requires found { found.now ≡ filter_map (doubled_finding ds.now) keys.now }
    ensures { IfOk result (HasDoubled ds.now) }
{
    let doubled = keys_of(ds.alloc(), found)?;
    let set = KeySet::from_vec(doubled)?;
    Ok(set)
}

/// Appends the repeated ways, by rank.
fn push_repeated_ways(
    ds: &DataSet,
    keys: &[Key],
    found: &mut Vec<Finding>,
) -> Result<(), AllocError>
    ensures { OnOk result (found.new.items ≡ found.old.items ++ map Repeated (filter (is_repeated ds.now) keys.now)) }
{
    let near = Cell::new(0);
    for key in keys {
        if has_repeat(refs_near(ds, &near, *key)) {
            found.push(Finding::Repeated(*key))?;
        }
    }
    Ok(())
}

fn is_either(doubled: &KeySet, a: Key, b: Key) -> bool
    ensures { result ≡ (is_named doubled.now a || is_named doubled.now b) }
{
    doubled.contains(a) || doubled.contains(b)
}

/// Whether these are two nodes, living at one place, of which one is doubled. Only of such the places are looked up.
fn meet_doubled(ds: &DataSet, doubled: &KeySet, a: i64, b: i64) -> bool
    ensures { result ≡ (not (int_eq a b) && ((is_named doubled.now (node a) || is_named doubled.now (node b)) && are_together ds.now (node a) (node b))) }
{
    a != b
        && (is_either(doubled, node_key(a), node_key(b))
            && are_together(ds, node_key(a), node_key(b)))
}

/// Whether these are two nodes, living at one place: the one of higher rank is doubled then.
fn two_meet(ds: &DataSet, doubled: &KeySet, a: i64, b: i64) -> bool
    requires doubled { HasDoubled ds.now doubled.now }
    ensures { result ≡ (not (int_eq a b) && are_together ds.now (node a) (node b)) }
{
    meet_doubled(ds, doubled, a, b)
}

/// Whether the ends are two living nodes, at one place.
fn ends_meet(ds: &DataSet, doubled: &KeySet, first: Option<i64>, last: Option<i64>) -> bool
    requires doubled { HasDoubled ds.now doubled.now }
    ensures { result ≡ ends_meet ds.now first last }
{
    match (first, last) {
        (Some(first), Some(last)) => two_meet(ds, doubled, first, last),
        _ => false,
    }
}

fn is_open(ds: &DataSet, doubled: &KeySet, refs: &[i64]) -> bool
    requires doubled { HasDoubled ds.now doubled.now }
    ensures { result ≡ (nat_le 3 (length refs.now) && ends_meet ds.now (first_in refs.now) (last_in refs.now)) }
{
    3 <= refs.len() && ends_meet(ds, doubled, first_in(refs), last_in(refs))
}

/// Whether the key's object lives as an open ring. The key is sought at the place `near`, as in a walk. Two look-ups among
/// the doubled nodes, and two of the ends where one of them is doubled.
fn is_open_ring(ds: &DataSet, near: &Cell<usize>, doubled: &KeySet, key: Key) -> bool
    requires doubled { HasDoubled ds.now doubled.now }
    ensures { result ≡ is_open_ring ds.now key }
{
    is_open(ds, doubled, refs_near(ds, near, key))
}

/// Appends the open rings, by rank.
fn push_open_rings(
    ds: &DataSet,
    keys: &[Key],
    doubled: &KeySet,
    found: &mut Vec<Finding>,
) -> Result<(), AllocError>
    requires doubled { HasDoubled ds.now doubled.now }
    ensures { OnOk result (found.new.items ≡ found.old.items ++ map OpenRing (filter (is_open_ring ds.now) keys.now)) }
{
    let near = Cell::new(0);
    for key in keys {
        if is_open_ring(ds, &near, doubled, *key) {
            found.push(Finding::OpenRing(*key))?;
        }
    }
    Ok(())
}

/// Appends all findings, where these are the keys of the table by rank.
fn push_findings(ds: &DataSet, keys: &[Key], found: &mut Vec<Finding>) -> Result<(), AllocError>
    requires keys { keys.now ≡ keys_by_rank ds.now }
    requires none { found.old.items ≡ [] }
    ensures { OnOk result (found.new.items ≡ findings ds.now) }
{
    push_doubled_nodes(ds, keys, found)?;
    let doubled = doubled_keys(ds, keys, found.as_slice())?;
    push_repeated_ways(ds, keys, found)?;
    push_open_rings(ds, keys, &doubled, found)
}

/// All findings: the doubled nodes, then the repeated ways, then the open rings, each by rank. Where the keys of the table
/// stand by rank they are lent, and else sorted once. It goes over the nodes once and over the ways twice, and finds each
/// where it lies, so a key is looked up only if it didn't come into the table behind the one before it. The first node at
/// each place stands in a hash map, one look-up a node and one more for one that is doubled. The ends of a way of at least
/// three references that ends elsewhere than it begins are looked up where one of them is doubled, which two look-ups among
/// these tell.
///
/// # Errors
/// No memory was left.
pub fn list_findings(ds: &DataSet) -> Result<Findings, AllocError>
    ensures { IfOk result (λ found. found ≡ findings ds.now) }
{
    let keys = ds.ordered()?;
    let mut found = Vec::new(ds.alloc());
    push_findings(ds, keys.as_slice(), &mut found)?;
    Ok(Findings::from_vec(found))
}
