//! A sound table with an exact index.
ghost use Rattle.std.specs.Prelude.{◌≡◌, not, neg_ℤ, pos, T, OnOk, OnErr, IfOk};
ghost use Rattle.std.specs.List.{AllByRecursion};
ghost use Rattle.std.specs.Option.{option_copied, option_map};
ghost use Rattle.std.specs.FinMap as fin;
ghost use Rattle.std.specs.Map.{keys_of};
ghost use Rattle.osm_base.specs.RisingKeys.{rises, is_in};
ghost use Rattle.osm_table.specs.Table.{entry_of, keys_by_rank, users};
ghost use Rattle.osm_table.specs.Told.{table_told};
ghost use Rattle.dataset.specs.Sound.{IsSound};
ghost use Rattle.dataset.specs.Patch.{IsDiff, in_order, StandsBefore, StandsAfter, after_of, before_of};
ghost use Rattle.dataset.specs.Diff.{diff};
ghost use Rattle.dataset.specs.Draft.{drafted};
ghost use Rattle.dataset.specs.Arrivals.{arrivals};
ghost use Rattle.dataset.specs.Exact.{IsExact};
ghost use Rattle.dataset.specs.Index.{count_kept};
ghost use Rattle.dataset.specs.PatchKept.{edits_told};
ghost use Rattle.dataset.specs.Sides.{side, led};

use crate::difference::{edits_of_draft, edits_of_entries, edits_of_told, told_edits};
use crate::draft::Draft;
use crate::edit::Edit;
use crate::index::Index;
use crate::patch::{Edits, Patch};
use crate::writes::{drop_keys, put_keys, write_all, writes_of};
use osm_base::Key;
use osm_table::{KeyedEntries, Ordered, OwnTable, Shared, SharedEntry, Table, ToldMap};
use std::alloc::{AllocError, Global};
use std::marker::Model;
use std::mem::replace;

/// The objects of a session. Its table is always sound, and it knows the users of each key.
#[derive(Drop)]
pub struct DataSet {
    table: Table,
    index: Index,
}

impl Model for DataSet {
    ghost use Rattle.osm_table.specs.Table.{TableValue};
    ghost use Rattle.osm_table.specs.TableCode.{table_code};
    ghost use Rattle.dataset.specs.Sound.{IsSound};
    ghost use Rattle.dataset.specs.Exact.{IsExact};
    ghost use Rattle.dataset.specs.Index.{count_kept};

    ghost Value = { TableValue };

    ghost coded = { table_code };

    ghost view = { λ d. d.table };

    ghost invariant = { λ d. IsSound d.table × IsExact d.table (count_kept d.index) };
}

impl DataSet {
    /// A data set without objects, whose first new object has the id -1.
    pub fn new(alloc: Global) -> DataSet
        ensures { result ≡ record { entries = fin.empty; next = 1 } }
    {
        DataSet {
            table: Table::new(alloc),
            index: Index::new(alloc),
        }
    }

    /// What is known of a key.
    pub fn entry(&self, key: Key) -> Option<&SharedEntry>
        ensures { option_copied result ≡ entry_of self.now key }
    {
        self.table.get(key)
    }

    /// As `entry`, with a place to look at first, and with the place behind the one where the key
    /// stands. Who goes over keys in the order in which they came in, each time from the place that
    /// the last gave, pays no look-up; a key that isn't at the place costs one.
    pub fn entry_near(&self, near: usize, key: Key) -> Option<(usize, &SharedEntry)>
        ensures { option_map (λ found. found.1.now) result ≡ entry_of self.now key }
    {
        self.table.get_near(near, key)
    }

    /// The living entries that refer to the key, by rank, each once. Costs one look-up and takes no
    /// memory.
    pub fn users(&self, key: Key) -> &[Key]
        ensures { result.now ≡ users self.now key }
    {
        self.index.users(key)
    }

    /// Whether a living entry refers to the key. Costs one look-up and a search by halving, and
    /// takes no memory.
    pub fn is_user(&self, key: Key, user: Key) -> bool
        ensures { result ≡ is_in user (users self.now key) }
    {
        self.index.is_user(key, user)
    }

    /// The number of the next new object.
    pub fn next(&self) -> u64
        ensures { result ≡ self.now.next }
    {
        self.table.next()
    }

    /// The id of the next new object.
    pub fn next_id(&self) -> i64
        ensures { result ≡ neg_ℤ (pos self.now.next) }
    {
        -(self.table.next() as i64)
    }

    /// How many keys it has.
    pub fn len(&self) -> usize
        ensures { result ≡ fin.len self.now.entries }
    {
        self.table.len()
    }

    /// All keys by rank: lent where they stand so, after one pass, and else sorted once.
    ///
    /// # Errors
    ///
    /// Where no memory is found.
    pub fn ordered(&self) -> Result<Ordered<'_>, AllocError>
        ensures { IfOk result (λ keys. keys ≡ keys_by_rank self.now) }
    {
        self.table.ordered()
    }

    /// What every data set keeps. Costs nothing.
    pub fn sound(&self)
        ensures { IsSound self.now }
    {
        let _ = &self.table;
    }

    /// The allocator that it takes its memory from.
    pub fn alloc(&self) -> Global {
        self.table.alloc()
    }

    /// The difference between the table and the draft's table. Keys whose entries stay are left out.
    /// Costs the draft's entries and one sort of its keys, which is one pass where they were put by
    /// rank.
    ///
    /// # Errors
    ///
    /// Where no memory is found.
    pub fn patch_of(&self, draft: &Draft) -> Result<Patch, AllocError>
        ensures value { IfOk result (λ patch. patch ≡ diff self.now (drafted draft.now self.now)) }
        ensures differs { IfOk result (λ patch. IsDiff self.now (drafted draft.now self.now) patch) }
    {
        let edits = edits_of_draft(&self.table, draft)?;
        Ok(Patch::listed(edits, self.table.next(), draft.next()))
    }

    /// The difference between the table and the one where all that is told has come. Keys whose
    /// entries stay are left out. Where the table has no objects it shares what is told and costs
    /// nothing; else it costs what is told and one sort of its keys, which is one pass where they were
    /// told by rank; no look-up in what is told then, nor in the table where its keys came by rank too.
    /// The entries are shared, none is copied.
    ///
    /// # Errors
    ///
    /// Where no memory is found.
    pub fn patch_of_told(&self, told: &Shared<ToldMap>) -> Result<Patch, AllocError>
        ensures value { IfOk result (λ patch. patch ≡ diff self.now (drafted (arrivals told.now.told self.now.next) self.now)) }
        ensures differs { IfOk result (λ patch. IsDiff self.now (drafted (arrivals told.now.told self.now.next) self.now) patch) }
    {
        let number = self.table.next();
        if self.table.len() == 0 {
            return Ok(Patch::told(told.copy()?, number));
        }
        let edits = edits_of_told(self.alloc(), &self.table, told.value())?;
        Ok(Patch::listed(edits, number, number))
    }

    /// The difference between a table without objects and the one that has just these entries, which stand by rank, and that
    /// number of the next new object. Costs a step for each entry, no look-up and no sort. The entries are shared.
    ///
    /// # Errors
    ///
    /// Where no memory is found.
    pub fn patch_of_entries(&self, entries: &KeyedEntries, next: u64) -> Result<Patch, AllocError>
        requires empty { fin.len self.now.entries ≡ 0 }
        requires order { T (rises (keys_of entries.now)) }
        ensures value { IfOk result (λ patch. patch ≡ diff self.now (record { entries = fin.from_entries entries.now; next = next })) }
        ensures differs { IfOk result (λ patch. IsDiff self.now (record { entries = fin.from_entries entries.now; next = next }) patch) }
    {
        let edits = edits_of_entries(self.alloc(), entries)?;
        Ok(Patch::listed(edits, self.table.next(), next))
    }

    /// Leads the table on, from what the patch has before to what it has after. Costs the edited
    /// entries and their references; an edit that keeps the references, as one of tags alone, costs
    /// the index nothing. Where all that is told comes into a table without objects, the told map
    /// becomes the table, so only references are walked, with one search each at most. The patch that
    /// follows such a one costs a copy of the told map's keys, and the first that moves a reference one
    /// look-up for each of its references.
    ///
    /// # Errors
    ///
    /// Where no memory is found; then nothing changes.
    pub fn apply(&mut self, patch: &Patch) -> Result<(), AllocError>
        requires stands { StandsBefore patch.now self.old }
        requires sound { IsSound (after_of patch.now self.old) }
        ensures ok { OnOk result (self.new ≡ after_of patch.now self.old) }
        ensures err { OnErr result (self.new ≡ self.old) }
    {
        lead(
            &mut self.table,
            &mut self.index,
            patch,
            true,
            patch.next_after(),
        )?;
        Ok(())
    }

    /// Leads the table back, from what the patch has after to what it has before. Costs what
    /// `apply` does; where the table has all that is told and nothing else, it only gives them back.
    ///
    /// # Errors
    ///
    /// Where no memory is found; then nothing changes.
    pub fn revert(&mut self, patch: &Patch) -> Result<(), AllocError>
        requires stands { StandsAfter patch.now self.old }
        requires sound { IsSound (before_of patch.now self.old) }
        ensures ok { OnOk result (self.new ≡ before_of patch.now self.old) }
        ensures err { OnErr result (self.new ≡ self.old) }
    {
        lead(
            &mut self.table,
            &mut self.index,
            patch,
            false,
            patch.next_before(),
        )?;
        Ok(())
    }
}

/// Leads the table by one side of a patch to the number of its next new object, or leaves all as it was. Costs what its edits
/// cost.
fn lead(
    table: &mut Table,
    index: &mut Index,
    patch: &Patch,
    forth: bool,
    next: u64,
) -> Result<(), AllocError>
    requires stands { AllByRecursion (λ e. entry_of table.old e.key ≡ side (not forth) e) patch.now.edits }
    requires exact { IsExact table.old (count_kept index.old) }
    ensures ok { OnOk result (table.new ≡ record { entries = (led (side forth) patch.now.edits table.old).entries; next = next }) }
    ensures exact { IsExact table.new (count_kept index.new) }
    ensures err { OnErr result (table.new ≡ table.old) }
{
    match patch.kept() {
        Edits::Listed(edits) => lead_listed(table, index, edits.as_slice(), forth, next),
        Edits::Told { told } => lead_told(table, index, told, forth, next),
    }
}

/// As `lead`, by the edits by which a table without objects gets all that is told. The told map becomes the table where that
/// has no objects, and the table is emptied where it has no others.
fn lead_told(
    table: &mut Table,
    index: &mut Index,
    told: &Shared<ToldMap>,
    forth: bool,
    next: u64,
) -> Result<(), AllocError>
    requires stands { AllByRecursion (λ e. entry_of table.old e.key ≡ side (not forth) e) (edits_told told.now.told) }
    requires exact { IsExact table.old (count_kept index.old) }
    ensures ok { OnOk result (table.new ≡ record { entries = (led (side forth) (edits_told told.now.told) table.old).entries; next = next }) }
    ensures exact { IsExact table.new (count_kept index.new) }
    ensures err { OnErr result (table.new ≡ table.old) }
{
    if forth && table.len() == 0 {
        return become_told(table, index, told, next);
    }
    if !forth && table.len() == told.value().len() {
        become_empty(table, index, next);
        return Ok(());
    }
    let edits = told_edits(told.value())?;
    let led = lead_listed(table, index, edits.as_slice(), forth, next);
    drop(edits);
    led
}

/// The told map becomes the table, or all stays as it was.
fn become_told(
    table: &mut Table,
    index: &mut Index,
    told: &Shared<ToldMap>,
    next: u64,
) -> Result<(), AllocError>
    requires { IsExact table.old (count_kept index.old) }
    ensures ok { OnOk result (table.new ≡ table_told told.now.told next) }
    ensures exact { IsExact table.new (count_kept index.new) }
    ensures err { OnErr result (table.new ≡ table.old) }
{
    let users = Index::told(told.copy()?)?;
    // Dropped by a call: on a way out, the code of all that an index owns would be written out.
    match told.copy() {
        Ok(told) => {
            set_both(table, index, Table::told(told, next), users);
            Ok(())
        }
        Err(e) => {
            drop(users);
            Err(e)
        }
    }
}

/// The table gives up its objects.
fn become_empty(table: &mut Table, index: &mut Index, next: u64)
    ensures table { table.new ≡ record { entries = fin.empty; next = next } }
    ensures exact { IsExact table.new (count_kept index.new) }
{
    let alloc = table.alloc();
    let mut nothing = OwnTable::new(alloc);
    nothing.set_next(next);
    let nobody = Index::new(alloc);
    set_both(table, index, Table::own(nothing), nobody);
}

fn set_both(table: &mut Table, index: &mut Index, new_table: Table, new_index: Index)
    ensures table { table.new ≡ new_table }
    ensures index { index.new ≡ new_index }
{
    drop(replace(table, new_table));
    drop(replace(index, new_index));
}

/// Leads the table by one side of edits to the number of its next new object, or leaves all as it was. Costs one look-up an
/// edit, and what it costs to take the table as its own.
fn lead_listed(
    table: &mut Table,
    index: &mut Index,
    edits: &[Edit],
    forth: bool,
    next: u64,
) -> Result<(), AllocError>
    requires order { T (in_order edits.now) }
    requires stands { AllByRecursion (λ e. entry_of table.old e.key ≡ side (not forth) e) edits.now }
    requires exact { IsExact table.old (count_kept index.old) }
    ensures ok { OnOk result (table.new ≡ record { entries = (led (side forth) edits.now table.old).entries; next = next }) }
    ensures exact { IsExact table.new (count_kept index.new) }
    ensures err { OnErr result (table.new ≡ table.old) }
{
    let mut own = table.take()?;
    let led = lead_own(&mut own, index, edits, forth);
    if led.is_ok() {
        own.set_next(next);
    }
    *table = Table::own(own);
    led
}

/// Leads the table by one side of edits, or leaves all as it was. Costs one look-up an edit.
///
/// All that can find no memory comes first: the writes with their entries, the hashes of the keys where some go, the new keys,
/// the index. Where that finds none the new keys are taken out again.
fn lead_own(
    table: &mut OwnTable,
    index: &mut Index,
    edits: &[Edit],
    forth: bool,
) -> Result<(), AllocError>
    requires order { T (in_order edits.now) }
    requires stands { AllByRecursion (λ e. entry_of table.old e.key ≡ side (not forth) e) edits.now }
    requires exact { IsExact table.old (count_kept index.old) }
    ensures ok { OnOk result (table.new ≡ led (side forth) edits.now table.old) }
    ensures exact { IsExact table.new (count_kept index.new) }
    ensures err { OnErr result (table.new ≡ table.old) }
{
    let writes = writes_of(table.alloc(), edits, forth)?;
    if let Err(e) = put_keys(table, edits, forth) {
        drop(writes);
        return Err(e);
    }
    if let Err(e) = index.lead(edits, forth) {
        drop(writes);
        drop_keys(table, edits, !forth);
        return Err(e);
    }
    write_all(table, writes);
    drop_keys(table, edits, forth);
    Ok(())
}
