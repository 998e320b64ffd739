//! The lines of `print`.
ghost use Rattle.std.specs.Prelude.{◌≡◌, ◌++◌, OnOk, OnErr};
ghost use Rattle.osm_base.specs.Extends.{Extends};
ghost use Rattle.osm_base.specs.Meta.{empty_meta};
ghost use Rattle.edit_steps.specs.Printed.{entry_text};

use conflict::write_known;
use dataset::DataSet;
use osm_base::{Key, Meta};
use osm_table::EntryParts;
use std::alloc::AllocError;

/// Appends the line of the object with that key, and nothing where it isn't known; `unknown` is the empty metadata. The
/// object is looked for at the place `near` first, which then is the one behind it.
///
/// # Errors
/// No memory was left; what stood in `out` stays at its front.
#[tactic(auto, using(osm_base::proofs::ExtendLaws::extends_steps))]
pub fn write_entry(
    ds: &DataSet,
    key: Key,
    near: &mut usize,
    unknown: &Meta,
    out: &mut Vec<u8>,
) -> Result<(), AllocError>
    requires { unknown.now ≡ empty_meta }
    ensures written { OnOk result (out.new.items ≡ out.old.items ++ entry_text ds.now key) }
    ensures kept { OnErr result (Extends out.old.items out.new.items) }
{
    let Some((behind, entry)) = ds.entry_near(*near, key) else {
        return Ok(());
    };
    *near = behind;
    match entry.parts() {
        EntryParts::Known { base, mine, .. } => write_known(key, base, mine, unknown, out),
        EntryParts::Incomplete => Ok(()),
    }
}
