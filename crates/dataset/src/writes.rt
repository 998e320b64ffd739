//! What edits make of a table's entries, in three parts: keys that come, keys that go, and keys
//! that get another entry. Only the first and the copies for the last can find no memory.
ghost use Rattle.std.specs.Prelude.{◌≡◌, ◌∷◌, ◌++◌, [], not, T, OnOk, OnErr, IfOk, IsSome};
ghost use Rattle.std.specs.List.{AllByRecursion, count_by, cons_option};
ghost use Rattle.osm_table.specs.Table.{entry_of, with_entry};
ghost use Rattle.dataset.specs.Patch.{in_order};
ghost use Rattle.dataset.specs.Sides.{side, led, fresh, gone, is_fresh, write_of, writes_of, written};

use crate::edit::Edit;
use osm_base::Key;
use osm_table::{OwnTable, SharedEntry};
use std::alloc::{AllocError, Global};

/// What a key gets in place of the entry that it has.
#[derive(Drop)]
pub struct Write {
    pub key: Key,
    pub entry: SharedEntry,
}

/// What an edit writes over the entry of its key, where that stays.
fn write_of(edit: &Edit, forth: bool) -> Result<Option<Write>, AllocError>
    ensures { IfOk result (λ write. write ≡ write_of forth edit.now) }
{
    match (edit.side(forth), edit.side(!forth)) {
        (Some(entry), Some(_)) => Ok(Some(Write {
            key: edit.key(),
            entry: entry.copy()?,
        })),
        _ => Ok(None),
    }
}

fn push_write(writes: &mut Vec<Write>, write: Option<Write>) -> Result<(), AllocError>
    ensures { OnOk result (writes.new.items ≡ writes.old.items ++ cons_option write []) }
{
    if let Some(write) = write {
        writes.push(write)?;
    }
    Ok(())
}

/// Adds the writes of the edits behind others.
fn push_writes(writes: &mut Vec<Write>, edits: &[Edit], forth: bool) -> Result<(), AllocError>
    requires { writes.old.items ≡ [] }
    ensures { OnOk result (writes.new.items ≡ writes_of forth edits.now) }
{
    for edit in edits {
        let write = write_of(edit, forth)?;
        push_write(writes, write)?;
    }
    Ok(())
}

/// The writes of the edits whose keys stay. Edits that bring or take out keys have none.
pub fn writes_of(alloc: Global, edits: &[Edit], forth: bool) -> Result<Vec<Write>, AllocError>
    ensures { IfOk result (λ writes. writes.items ≡ writes_of forth edits.now) }
{
    let mut writes = Vec::new(alloc);
    push_writes(&mut writes, edits, forth).and(Ok(writes))
}

fn put_fresh(table: &mut OwnTable, edit: &Edit, forth: bool) -> Result<(), AllocError>
    ensures ok { OnOk result (table.new ≡ led (side forth) (fresh forth (edit.now ∷ [])) table.old) }
    ensures err { OnErr result (table.new ≡ table.old) }
{
    match (edit.side(forth), edit.side(!forth)) {
        (Some(entry), None) => table.set(edit.key(), entry.copy()?),
        _ => Ok(()),
    }
}

/// How many keys the edits bring.
fn keys_to_come(edits: &[Edit], forth: bool) -> usize
    ensures { result ≡ count_by (is_fresh forth) edits.now }
{
    edits
        .iter()
        .filter(|edit| edit.side(forth).is_some() && edit.side(!forth).is_none())
        .count()
}

/// Makes a table ready for edits: its keys are hashed where some go, so that each goes by one look-up, and there is room for
/// those that come, for no more than they take, so that edits of objects that stay ask for none.
fn make_ready(table: &mut OwnTable, edits: &[Edit], forth: bool) -> Result<(), AllocError>
    ensures { table.new ≡ table.old }
{
    if edits.iter().any(|edit| edit.side(forth).is_none()) {
        table.hash()?;
    }
    table.reserve(keys_to_come(edits, forth))
}

/// Puts the keys in that edits bring, or leaves all as it was. Costs one look-up each.
pub fn put_keys(table: &mut OwnTable, edits: &[Edit], forth: bool) -> Result<(), AllocError>
    requires order { T (in_order edits.now) }
    requires stands { AllByRecursion (λ e. entry_of table.old e.key ≡ side (not forth) e) edits.now }
    ensures ok { OnOk result (table.new ≡ led (side forth) (fresh forth edits.now) table.old) }
    ensures err { OnErr result (table.new ≡ table.old) }
{
    make_ready(table, edits, forth)?;
    for edit in edits {
        if let Err(e) = put_fresh(table, edit, forth) {
            drop_keys(table, edits, !forth);
            return Err(e);
        }
    }
    Ok(())
}

fn drop_gone(table: &mut OwnTable, edit: &Edit, forth: bool)
    ensures { table.new ≡ led (side forth) (gone forth (edit.now ∷ [])) table.old }
{
    if edit.side(forth).is_none() {
        table.remove(edit.key());
    }
}

/// Takes the keys out for which a side has no entry. It begins at the last, since a table gives up
/// its newest keys at least cost.
pub fn drop_keys(table: &mut OwnTable, edits: &[Edit], forth: bool)
    ensures { table.new ≡ led (side forth) (gone forth edits.now) table.old }
{
    for i in (0..edits.len()).rev() {
        drop_gone(table, &edits[i], forth);
    }
}

/// Sets the entry of a key that is there, which takes no memory.
fn set_there(table: &mut OwnTable, write: Write)
    requires { IsSome (entry_of table.old write.key) }
    ensures { table.new ≡ with_entry table.old write.key write.entry }
{
    if let Err(_) = table.set(write.key, write.entry) {
        unreachable!();
    }
}

/// Makes writes whose keys are there, which takes no memory.
pub fn write_all(table: &mut OwnTable, writes: Vec<Write>)
    requires { AllByRecursion (λ w. IsSome (entry_of table.old w.key)) writes.items }
    ensures { table.new ≡ written writes.items table.old }
{
    let mut writes = writes;
    while let Some(write) = writes.pop() {
        set_there(table, write);
    }
}
