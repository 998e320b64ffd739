//! One look at all entries.
ghost use Rattle.std.specs.Prelude.{◌≡◌, ◌++◌, ◌∷◌, [], false, IfOk, OnOk, if◌then◌else◌};
ghost use Rattle.std.specs.List.{filter};
ghost use Rattle.std.specs.Option.{option_copied, option_map_or};
ghost use Rattle.osm_table.specs.Table.{entry_of, is_changed, keys_by_rank};
ghost use Rattle.upload_order.specs.Kinds.{at_key};
ghost use Rattle.upload_order.specs.Marked.{with_marked};
ghost use Rattle.upload_order.specs.Part.{changed_keys};
ghost use Rattle.upload_order.specs.Refused.{is_open};

use dataset::DataSet;
use osm_base::Key;
use osm_table::SharedEntry;
use std::alloc::AllocError;

/// The objects that an upload asks for, by rank.
#[derive(Drop)]
pub struct Marks {
    /// Those in conflict.
    pub open: Vec<Key>,
    /// Those of which it has something to say.
    pub changed: Vec<Key>,
}

/// The keys of all that is changed, by rank: of each object that is new, or has another content than at the server.
///
/// It looks at each entry once, where it lies if keys lie by rank; else it sorts them and looks each up.
///
/// # Errors
/// No memory was left.
pub fn changed_keys(ds: &DataSet) -> Result<Vec<Key>, AllocError>
    ensures { IfOk result (λ keys. keys.items ≡ changed_keys ds.now) }
{
    let Marks { changed, .. } = marked(ds)?;
    Ok(changed)
}

/// The objects in conflict, and those that are changed. It costs what `changed_keys` does.
///
/// # Errors
/// No memory was left.
pub fn marked(ds: &DataSet) -> Result<Marks, AllocError>
    ensures open { IfOk result (λ m. m.open.items ≡ filter (at_key ds.now is_open) (keys_by_rank ds.now)) }
    ensures changed { IfOk result (λ m. m.changed.items ≡ changed_keys ds.now) }
{
    let keys = ds.ordered()?;
    let marked = marked_among(ds, keys.as_slice())?;
    Ok(marked)
}

fn marked_among(ds: &DataSet, keys: &[Key]) -> Result<Marks, AllocError>
    ensures open { IfOk result (λ m. m.open.items ≡ with_marked (at_key ds.now is_open) [] keys.now) }
    ensures changed { IfOk result (λ m. m.changed.items ≡ with_marked (at_key ds.now is_changed) [] keys.now) }
{
    let mut open = Vec::new(ds.alloc());
    let mut changed = Vec::new(ds.alloc());
    let mut near = 0;
    for key in keys {
        let entry = entry_from(ds, &mut near, *key);
        push_if(&mut open, *key, is_open(entry))?;
        push_if(&mut changed, *key, is_changed(entry))?;
    }
    Ok(Marks { open, changed })
}

/// The entry of a key, sought first where the last one was found.
fn entry_from<'a>(ds: &'a DataSet, near: &mut usize, key: Key) -> Option<&'a SharedEntry>
    ensures { option_copied result ≡ entry_of ds.now key }
{
    match ds.entry_near(*near, key) {
        None => None,
        Some((behind, entry)) => {
            *near = behind;
            Some(entry)
        }
    }
}

fn is_open(entry: Option<&SharedEntry>) -> bool
    ensures { result ≡ option_map_or is_open (option_copied entry.entry) false }
{
    match entry {
        None => false,
        Some(entry) => entry.conflict().is_some(),
    }
}

fn is_changed(entry: Option<&SharedEntry>) -> bool
    ensures { result ≡ option_map_or is_changed (option_copied entry.entry) false }
{
    match entry {
        None => false,
        Some(entry) => entry.is_changed(),
    }
}

/// Adds a key at the end, if a test says so.
///
/// # Errors
/// No memory was left.
pub fn push_if(keys: &mut Vec<Key>, key: Key, test: bool) -> Result<(), AllocError>
    ensures { OnOk result (keys.new.items ≡ (if test then keys.old.items ++ key ∷ [] else keys.old.items)) }
{
    if test {
        keys.push(key)?;
    }
    Ok(())
}
