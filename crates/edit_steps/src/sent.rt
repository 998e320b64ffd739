//! The text of `send`.
ghost use Rattle.std.specs.Prelude.{◌≡◌, ◌++◌, ◌+◌, ◌<◌, ◌^◌, OnOk, OnErr};
ghost use Rattle.osm_base.specs.Extends.{Extends};
ghost use Rattle.edit_script.specs.Reply.{key_behind};
ghost use Rattle.edit_steps.specs.Sent.{carried, refused_text, sent_text};

use crate::counting::write_part;
use osm_base::{Key, write_key};
use std::alloc::AllocError;
use upload_order::WorldRefusal;

/// Appends how many changes a server accepted, and why it refused the next one, in a line.
///
/// # Errors
/// No memory was left; what stood in `out` stays at its front.
#[tactic(auto, using(osm_base::proofs::ExtendLaws::extends_steps))]
pub fn write_sent(
    count: u64,
    refused: Option<WorldRefusal>,
    out: &mut Vec<u8>,
) -> Result<(), AllocError>
    ensures written { OnOk result (out.new.items ≡ out.old.items ++ sent_text count refused) }
    ensures kept { OnErr result (Extends out.old.items out.new.items) }
{
    write_part(b"sent ", count, out)?;
    write_refused(count, refused, out)?;
    out.push(b'\n')?;
    Ok(())
}

#[tactic(auto, using(osm_base::proofs::ExtendLaws::extends_steps))]
fn write_refused(
    accepted: u64,
    refused: Option<WorldRefusal>,
    out: &mut Vec<u8>,
) -> Result<(), AllocError>
    ensures written { OnOk result (out.new.items ≡ out.old.items ++ refused_text (accepted + 1) refused) }
    ensures kept { OnErr result (Extends out.old.items out.new.items) }
{
    let Some(why) = refused else {
        return Ok(());
    };
    let change = accepted.checked_add(1).ok_or(AllocError)?;
    write_part(b" refused ", change, out)?;
    write_part(b" ", u64::from(why.number()), out)?;
    write_carried(why, out)
}

// What the server's refusal carries.
#[tactic(auto, using(osm_base::proofs::ExtendLaws::extends_steps))]
fn write_carried(why: WorldRefusal, out: &mut Vec<u8>) -> Result<(), AllocError>
    ensures written { OnOk result (out.new.items ≡ out.old.items ++ carried why) }
    ensures kept { OnErr result (Extends out.old.items out.new.items) }
{
    match why {
        WorldRefusal::OldVersion { has } => write_part(b" ", has, out),
        WorldRefusal::BadRef(key) | WorldRefusal::Used(key) => write_key_behind(key, out),
        WorldRefusal::Exists | WorldRefusal::Missing | WorldRefusal::Unfit => Ok(()),
    }
}

#[tactic(auto, using(osm_base::proofs::ExtendLaws::extends_steps))]
fn write_key_behind(key: Key, out: &mut Vec<u8>) -> Result<(), AllocError>
    ensures written { OnOk result (out.new.items ≡ out.old.items ++ key_behind key) }
    ensures kept { OnErr result (Extends out.old.items out.new.items) }
{
    out.push(b' ')?;
    write_key(key, out)
}
