//! The text of conflicts.
ghost use Rattle.std.specs.Prelude.{◌≡◌, ◌++◌, OnOk, OnErr};
ghost use Rattle.std.specs.Option.{option_copied};
ghost use Rattle.osm_base.specs.Extends.{Extends};
ghost use Rattle.osm_base.specs.Meta.{empty_meta};
ghost use Rattle.osm_table.specs.Table.{held_by};
ghost use Rattle.conflict.specs.Shown.{conflict_text, known_text, side_line, side_lines, why_line, why_name};

use dataset::DataSet;
use opl_line::write_line;
use osm_base::{Content, Key, Meta, write_key};
use osm_table::{Base, EntryParts, Why};
use std::alloc::AllocError;

/// Appends the four lines of the object in conflict with that key, and nothing where it isn't in conflict: its key and
/// why, and its base, mine and theirs. One look-up.
///
/// # Errors
/// No memory was left; what stood in `out` stays at its front.
#[tactic(auto, using(osm_base::proofs::ExtendLaws::extends_steps))]
pub fn write_conflict(ds: &DataSet, key: Key, out: &mut Vec<u8>) -> Result<(), AllocError>
    ensures written { OnOk result (out.new.items ≡ out.old.items ++ conflict_text ds.now key) }
    ensures kept { OnErr result (Extends out.old.items out.new.items) }
{
    let Some(entry) = ds.entry(key) else {
        return Ok(());
    };
    match entry.parts() {
        EntryParts::Incomplete => Ok(()),
        EntryParts::Known { conflict: None, .. } => Ok(()),
        EntryParts::Known {
            base,
            mine,
            conflict: Some(conflict),
        } => {
            write_why(key, conflict.why, out)?;
            write_sides(key, base, mine, &conflict.theirs, out)
        }
    }
}

#[tactic(auto, using(osm_base::proofs::ExtendLaws::extends_steps))]
fn write_why(key: Key, why: Why, out: &mut Vec<u8>) -> Result<(), AllocError>
    ensures written { OnOk result (out.new.items ≡ out.old.items ++ why_line key why) }
    ensures kept { OnErr result (Extends out.old.items out.new.items) }
{
    out.extend_from_slice(b"conflict ")?;
    write_key(key, out)?;
    out.push(b' ')?;
    out.extend_from_slice(why_name(why))?;
    out.push(b'\n')?;
    Ok(())
}

fn why_name(why: Why) -> &'static [u8]
    ensures { result.now ≡ why_name why }
{
    match why {
        Why::Changed => b"changed",
        Why::Held => b"held",
        Why::Withdrawn => b"withdrawn",
    }
}

#[tactic(auto, using(osm_base::proofs::ExtendLaws::extends_steps))]
fn write_sides(
    key: Key,
    base: &Base,
    mine: Option<&Content>,
    theirs: &Base,
    out: &mut Vec<u8>,
) -> Result<(), AllocError>
    ensures written { OnOk result (out.new.items ≡ out.old.items ++ side_lines key base.now (option_copied mine.entry) theirs.now) }
    ensures kept { OnErr result (Extends out.old.items out.new.items) }
{
    let unknown = Meta::empty(*out.allocator())?;
    write_side(b"base ", key, base, base.content(), &unknown, out)?;
    write_side(b"mine ", key, base, mine, &unknown, out)?;
    write_side(b"theirs ", key, theirs, theirs.content(), &unknown, out)
}

#[tactic(auto, using(osm_base::proofs::ExtendLaws::extends_steps))]
fn write_side(
    name: &[u8],
    key: Key,
    base: &Base,
    content: Option<&Content>,
    unknown: &Meta,
    out: &mut Vec<u8>,
) -> Result<(), AllocError>
    requires { unknown.now ≡ empty_meta }
    ensures written { OnOk result (out.new.items ≡ out.old.items ++ side_line name.now key base.now (option_copied content.entry)) }
    ensures kept { OnErr result (Extends out.old.items out.new.items) }
{
    out.extend_from_slice(name)?;
    write_known(key, base, content, unknown, out)
}

/// Appends the line of a content with a base's version and metadata, or of a deleted object; `unknown` is the empty metadata.
///
/// # Errors
/// No memory was left; what stood in `out` stays at its front.
#[tactic(auto, using(osm_base::proofs::ExtendLaws::extends_steps))]
pub fn write_known(
    key: Key,
    base: &Base,
    content: Option<&Content>,
    unknown: &Meta,
    out: &mut Vec<u8>,
) -> Result<(), AllocError>
    requires { unknown.now ≡ empty_meta }
    ensures written { OnOk result (out.new.items ≡ out.old.items ++ known_text key base.now (option_copied content.entry)) }
    ensures kept { OnErr result (Extends out.old.items out.new.items) }
{
    write_line(key, base.version(), content, base.meta(unknown), out)?;
    out.push(b'\n')?;
    Ok(())
}
