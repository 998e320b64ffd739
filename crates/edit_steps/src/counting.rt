//! The text of `count`.
ghost use Rattle.std.specs.Prelude.{◌≡◌, ◌++◌, ◌<◌, OnOk, OnErr};
ghost use Rattle.osm_base.specs.Extends.{Extends};
ghost use Rattle.edit_steps.specs.Counted.{count_text, counts_text, kinds_text, states_text, counts_among, count_line, part, with_one, with_key, HasRoom};
ghost use Rattle.map_search.specs.Meets.{same_kind};

use dataset::DataSet;
use osm_base::{Key, Kind, write_digits};
use osm_table::SharedEntry;
use std::alloc::AllocError;

/// How many entries of a table are so.
#[derive(Clone, Copy)]
pub struct Counts {
    /// Living nodes.
    pub nodes: u64,

    /// Living ways.
    pub ways: u64,

    /// Living relations.
    pub relations: u64,

    /// Keys of which nothing more is known.
    pub incomplete: u64,

    /// Known objects that aren't living.
    pub deleted: u64,

    /// Objects that differ from what a server has.
    pub changed: u64,

    /// Objects in conflict.
    pub conflicts: u64,
}

/// Appends the text of `count`, one line. It sorts the keys once.
///
/// # Errors
/// No memory was left; what stood in `out` stays at its front.
#[tactic(auto, using(osm_base::proofs::ExtendLaws::extends_steps))]
pub fn write_count(ds: &DataSet, out: &mut Vec<u8>) -> Result<(), AllocError>
    ensures written { OnOk result (out.new.items ≡ out.old.items ++ count_text ds.now) }
    ensures kept { OnErr result (Extends out.old.items out.new.items) }
{
    let keys = ds.ordered()?;
    write_counts(counts_among(ds, keys.as_slice()), out)
}

#[tactic(auto, using(osm_base::proofs::ExtendLaws::extends_steps))]
fn write_counts(counts: Counts, out: &mut Vec<u8>) -> Result<(), AllocError>
    ensures written { OnOk result (out.new.items ≡ out.old.items ++ counts_text counts) }
    ensures kept { OnErr result (Extends out.old.items out.new.items) }
{
    write_kinds(counts, out)?;
    write_states(counts, out)?;
    Ok(())
}

#[tactic(auto, using(osm_base::proofs::ExtendLaws::extends_steps))]
fn write_kinds(counts: Counts, out: &mut Vec<u8>) -> Result<(), AllocError>
    ensures written { OnOk result (out.new.items ≡ out.old.items ++ kinds_text counts) }
    ensures kept { OnErr result (Extends out.old.items out.new.items) }
{
    write_part(b"count nodes ", counts.nodes, out)?;
    write_part(b" ways ", counts.ways, out)?;
    write_part(b" relations ", counts.relations, out)?;
    Ok(())
}

#[tactic(auto, using(osm_base::proofs::ExtendLaws::extends_steps))]
fn write_states(counts: Counts, out: &mut Vec<u8>) -> Result<(), AllocError>
    ensures written { OnOk result (out.new.items ≡ out.old.items ++ states_text counts) }
    ensures kept { OnErr result (Extends out.old.items out.new.items) }
{
    write_part(b" incomplete ", counts.incomplete, out)?;
    write_part(b" deleted ", counts.deleted, out)?;
    write_part(b" changed ", counts.changed, out)?;
    write_part(b" conflicts ", counts.conflicts, out)?;
    out.push(b'\n')?;
    Ok(())
}

/// Appends a name and a number.
///
/// # Errors
/// No memory was left; what stood in `out` stays at its front.
#[tactic(auto, using(osm_base::proofs::ExtendLaws::extends_steps), unfolding(crate::specs::Counted::part))]
pub fn write_part(name: &[u8], count: u64, out: &mut Vec<u8>) -> Result<(), AllocError>
    ensures written { OnOk result (out.new.items ≡ out.old.items ++ part name.now count) }
    ensures kept { OnErr result (Extends out.old.items out.new.items) }
{
    out.extend_from_slice(name)?;
    write_digits(count, out)
}

/// Appends a name, a number and the end of the line.
///
/// # Errors
/// No memory was left; what stood in `out` stays at its front.
#[tactic(auto, using(osm_base::proofs::ExtendLaws::extends_steps))]
pub fn write_count_line(name: &[u8], count: u64, out: &mut Vec<u8>) -> Result<(), AllocError>
    ensures written { OnOk result (out.new.items ≡ out.old.items ++ count_line name.now count) }
    ensures kept { OnErr result (Extends out.old.items out.new.items) }
{
    write_part(name, count, out)?;
    out.push(b'\n')?;
    Ok(())
}

fn counts_among(ds: &DataSet, keys: &[Key]) -> Counts
    ensures { result ≡ counts_among ds.now keys.now }
{
    let mut counts = Counts {
        nodes: 0,
        ways: 0,
        relations: 0,
        incomplete: 0,
        deleted: 0,
        changed: 0,
        conflicts: 0,
    };
    for key in keys {
        counts = counts.with_key(ds, *key);
    }
    counts
}

impl Counts {
    // The counts with the entry of one key more.
    fn with_key(self, ds: &DataSet, key: Key) -> Counts
        requires room { HasRoom self }
        ensures { result ≡ with_key self ds.now key }
    {
        match ds.entry(key) {
            None => self,
            Some(entry) => self.with_one(key.kind, entry),
        }
    }

    fn with_one(self, kind: Kind, entry: &SharedEntry) -> Counts
        requires room { HasRoom self }
        ensures { result ≡ with_one self kind entry.now }
    {
        let living = entry.is_living();
        Counts {
            nodes: self.nodes + u64::from(living && is_node(kind)),
            ways: self.ways + u64::from(living && is_way(kind)),
            relations: self.relations + u64::from(living && is_relation(kind)),
            incomplete: self.incomplete + u64::from(entry.is_incomplete()),
            deleted: self.deleted + u64::from(!entry.is_incomplete() && !living),
            changed: self.changed + u64::from(entry.is_changed()),
            conflicts: self.conflicts + u64::from(entry.conflict().is_some()),
        }
    }
}

fn is_node(kind: Kind) -> bool
    ensures { result ≡ same_kind Kind.Node kind }
{
    match kind {
        Kind::Node => true,
        Kind::Way | Kind::Relation => false,
    }
}

fn is_way(kind: Kind) -> bool
    ensures { result ≡ same_kind Kind.Way kind }
{
    match kind {
        Kind::Way => true,
        Kind::Node | Kind::Relation => false,
    }
}

fn is_relation(kind: Kind) -> bool
    ensures { result ≡ same_kind Kind.Relation kind }
{
    match kind {
        Kind::Relation => true,
        Kind::Node | Kind::Way => false,
    }
}
