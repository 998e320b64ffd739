//! The new objects of a file.
ghost use Rattle.std.specs.Prelude.{◌≡◌, List, ℕ, Ok, IfOk};
ghost use Rattle.opl_line.specs.declared.mode.Mode.TheVariants.{Import};
ghost use Rattle.opl_file.specs.Reading.{objects_of};
ghost use Rattle.import_tool.specs.Counted.{new_object, new_objects_of};

use opl_file::Objects;
use opl_line::OplObject;
use std::alloc::{AllocError, Global};
use tool_api::{NewObject, NewObjects};

fn new_object(object: OplObject) -> Option<NewObject>
    ensures { result ≡ new_object object }
{
    let OplObject { key, side, .. } = object;
    if key.id >= 0 {
        return None;
    }
    match side {
        None => None,
        Some(content) => Some(NewObject { key, content }),
    }
}

/// The objects that an import adds of a file that was read for it: those with a negative id that aren't deleted, in the order
/// of the file. The contents are moved, not copied, and each batch of the objects is given back as soon as it was gone over.
///
/// # Errors
/// No memory was left.
pub fn new_objects(alloc: Global, objects: Objects) -> Result<NewObjects, AllocError>
    requires { (limit : ℕ) × (bytes : List ℕ) × (objects_of Import limit bytes ≡ Ok objects) }
    ensures { IfOk result (λ new. new ≡ new_objects_of objects) }
{
    let list = list_of(alloc, objects)?;
    Ok(NewObjects::from_vec(list))
}

fn list_of(alloc: Global, objects: Objects) -> Result<Vec<NewObject>, AllocError>
    ensures { IfOk result (λ list. list.items ≡ new_objects_of objects) }
{
    let list = objects
        .into_batches()
        .into_iter()
        .flatten()
        .filter_map(|object| new_object(object))
        .collect(alloc)?;
    Ok(list)
}
