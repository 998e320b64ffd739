//! The changes of an upload, part by part.
ghost use Rattle.std.specs.Prelude.{◌≡◌, ◌≤◌, ◌++◌, IfOk, OnOk, map, false};
ghost use Rattle.std.specs.Option.{option_copied};
ghost use Rattle.osm_table.specs.Table.{entry_of};
ghost use Rattle.upload_order.specs.declared.down.Down.TheVariants.{Remove};
ghost use Rattle.upload_order.specs.declared.part.Part.TheVariants.{FallingRelations};
ghost use Rattle.upload_order.specs.Fall.{falls};
ghost use Rattle.upload_order.specs.Kinds.{held_refers};
ghost use Rattle.upload_order.specs.Part.{changed_keys, keys_in};
ghost use Rattle.upload_order.specs.Plan.{up_known, up_entry, up_of, version_at, later, down_of, empty_relation, plain_removes, made, plan};

use crate::change::{Change, Changes};
use crate::down::Down;
use crate::falling::falls_of;
use crate::part::{Part, part_of};
use dataset::DataSet;
use osm_base::{Content, Key, Members, Tags};
use osm_table::{Base, EntryParts, SharedEntry};
use std::alloc::{AllocError, Global};

/// The change that brings a content to the server.
fn up_known(key: Key, base: &Base, content: Content) -> Change
    ensures { result ≡ up_known key base.now content }
{
    match base {
        Base::New => Change::Create { key, content },
        _ => Change::Modify {
            key,
            version: base.version(),
            content,
        },
    }
}

/// The same of an entry. Of one that doesn't live no content is sent, and none is asked for.
fn up_entry(key: Key, entry: Option<&SharedEntry>) -> Result<Change, AllocError>
    ensures { IfOk result (λ change. change ≡ up_entry key (option_copied entry.entry)) }
{
    let Some(entry) = entry else {
        return Ok(Change::Delete { key, version: 0 });
    };
    match entry.parts() {
        EntryParts::Known {
            base,
            mine: Some(content),
            ..
        } => Ok(up_known(key, base, content.copy()?)),
        _ => Ok(Change::Delete { key, version: 0 }),
    }
}

fn version_at(entry: Option<&SharedEntry>) -> u32
    ensures { result ≡ version_at (option_copied entry.entry) }
{
    let Some(entry) = entry else {
        return 0;
    };
    match entry.parts() {
        EntryParts::Incomplete => 0,
        EntryParts::Known { base, .. } => base.version(),
    }
}

/// A version, or one more where the object was emptied before.
fn later(version: u32, cleared: bool) -> u32
    requires { version ≤ 2000000000 }
    ensures { result ≡ later cleared version }
{
    if cleared { version + 1 } else { version }
}

fn empty_relation(alloc: Global) -> Result<Content, AllocError>
    ensures { IfOk result (λ content. content ≡ empty_relation) }
{
    Ok(Content::Relation {
        members: Members::new(alloc)?,
        tags: Tags::new(alloc),
    })
}

fn version_of(ds: &DataSet, key: Key) -> u32
    ensures value { result ≡ version_at (entry_of ds.now key) }
    ensures bound { result ≤ 2000000000 }
{
    ds.sound();
    version_at(ds.entry(key))
}

fn down_of(alloc: Global, ds: &DataSet, down: Down) -> Result<Change, AllocError>
    ensures { IfOk result (λ change. change ≡ down_of ds.now down) }
{
    match down {
        Down::Clear(key) => Ok(Change::Modify {
            key,
            version: version_of(ds, key),
            content: empty_relation(alloc)?,
        }),
        Down::Remove(key, cleared) => Ok(Change::Delete {
            key,
            version: later(version_of(ds, key), cleared),
        }),
    }
}

fn push_ups(ds: &DataSet, keys: &[Key], changes: &mut Changes) -> Result<(), AllocError>
    ensures { OnOk result (changes.new ≡ changes.old ++ map (up_of ds.now) keys.now) }
{
    for key in keys {
        changes.push(up_entry(*key, ds.entry(*key))?)?;
    }
    Ok(())
}

fn push_downs(
    alloc: Global,
    ds: &DataSet,
    downs: &[Down],
    changes: &mut Changes,
) -> Result<(), AllocError>
    ensures { OnOk result (changes.new ≡ changes.old ++ map (down_of ds.now) downs.now) }
{
    for down in downs {
        changes.push(down_of(alloc, ds, *down)?)?;
    }
    Ok(())
}

fn push_removes(
    alloc: Global,
    ds: &DataSet,
    keys: &[Key],
    changes: &mut Changes,
) -> Result<(), AllocError>
    ensures { OnOk result (changes.new ≡ changes.old ++ map (λ k. down_of ds.now (Remove k false)) keys.now) }
{
    for key in keys {
        changes.push(down_of(alloc, ds, Down::Remove(*key, false))?)?;
    }
    Ok(())
}

fn push_part(
    alloc: Global,
    ds: &DataSet,
    changed: &[Key],
    part: Part,
    changes: &mut Changes,
) -> Result<(), AllocError>
    requires { changed.now ≡ changed_keys ds.now }
    ensures { OnOk result (changes.new ≡ changes.old ++ map (up_of ds.now) (keys_in ds.now part)) }
{
    let keys = part_of(alloc, ds, changed, part)?;
    push_ups(ds, &keys, changes)?;
    Ok(())
}

fn push_gone(
    alloc: Global,
    ds: &DataSet,
    changed: &[Key],
    part: Part,
    changes: &mut Changes,
) -> Result<(), AllocError>
    requires { changed.now ≡ changed_keys ds.now }
    ensures { OnOk result (changes.new ≡ changes.old ++ map (down_of ds.now) (plain_removes (keys_in ds.now part))) }
{
    let keys = part_of(alloc, ds, changed, part)?;
    push_removes(alloc, ds, &keys, changes)?;
    Ok(())
}

fn push_falls(
    alloc: Global,
    ds: &DataSet,
    changed: &[Key],
    changes: &mut Changes,
) -> Result<(), AllocError>
    requires { changed.now ≡ changed_keys ds.now }
    ensures { OnOk result (changes.new ≡ changes.old ++ map (down_of ds.now) (falls (held_refers ds.now) (keys_in ds.now FallingRelations))) }
{
    let relations = part_of(alloc, ds, changed, Part::FallingRelations)?;
    let downs = falls_of(alloc, ds, &relations)?;
    push_downs(alloc, ds, &downs, changes)?;
    Ok(())
}

/// The changes, in order. The order is that of the rising relations.
///
/// # Errors
/// No memory was left.
pub fn changes_of(
    alloc: Global,
    ds: &DataSet,
    changed: &[Key],
    order: &[Key],
) -> Result<Changes, AllocError>
    requires changed { changed.now ≡ changed_keys ds.now }
    requires order { order.now ≡ (made ds.now).order }
    ensures { IfOk result (λ changes. changes ≡ plan ds.now) }
{
    let mut changes = Changes::new(alloc);
    push_part(alloc, ds, changed, Part::RisingNodes, &mut changes)?;
    push_part(alloc, ds, changed, Part::RisingWays, &mut changes)?;
    push_ups(ds, order, &mut changes)?;
    push_part(alloc, ds, changed, Part::Updates, &mut changes)?;
    push_falls(alloc, ds, changed, &mut changes)?;
    push_gone(alloc, ds, changed, Part::FallingWays, &mut changes)?;
    push_gone(alloc, ds, changed, Part::FallingNodes, &mut changes)?;
    Ok(changes)
}
