//! The looks at a table: what each answers, and the text that stands behind its reply.
//!
//! A new look has its arm in `look_at`, and where a text stands behind its reply, a variant of `Behind` with its arm in
//! `send_behind`; its lines in `specs/Looks.antt` say the same. A text of a line or two is written here.
ghost use Rattle.std.specs.Prelude.{◌≡◌, IfOk, OnOk, OnErr};
ghost use Rattle.std.specs.Io.KnownBytes.{Appends};
ghost use Rattle.osm_outside.specs.Lines.{CutsNoLine};
ghost use Rattle.osm_outside.specs.Outside.{AppendsFront};
ghost use Rattle.edit_script.specs.Order.{IsMeant};
ghost use Rattle.edit_script.specs.declared.step.Act.TheVariants as acts;
ghost use Rattle.edit_steps.specs.Looks.{behind_text, look_answer};
ghost use Rattle.edit_steps.specs.Planned.{IsSized};
ghost use Rattle.edit_steps.specs.Stop.{WriteCause};

use crate::response::Response;
use crate::searching::{answer_check, answer_find};
use crate::sending::{
    send_changes, send_conflicts, send_count, send_findings, send_found, send_rehearsed,
    send_saved, send_sent, send_table,
};
use crate::stop::Stop;
use crate::uploading::{answer_rehearsal, answer_upload};
use dataset::DataSet;
use edit_script::Look;
use map_checks::Findings;
use osm_base::Keys;
use osm_outside::Sink;
use std::alloc::{AllocError, Global};
use upload_order::{Changes, WorldRefusal};

/// What stands behind the reply line of a step.
#[derive(Drop)]
pub enum Behind {
    /// No text.
    Nothing,
    /// The objects of the table.
    Table,
    /// How many objects the table has.
    Counts,
    /// The objects in conflict.
    Conflicts,
    /// The whole table, as a session that is taken up later.
    Saved,
    /// The changes of an upload, in chunks of so many.
    Changes { changes: Changes, size: u32 },
    /// How many changes a rehearsal accepted.
    Rehearsed(u64),
    /// The keys that were found.
    Found(Keys),
    /// What is broken.
    Findings(Findings),
    /// How many changes a server accepted, and why it refused the next one, if it did.
    Sent(u64, Option<WorldRefusal>),
}

/// What a look at the table answers. It costs what it looks at.
///
/// # Errors
/// No memory was left.
pub fn look_at(alloc: Global, ds: &DataSet, look: &Look) -> Result<Response, AllocError>
    requires { IsMeant (acts.Look look.now) }
    ensures answer { IfOk result (λ answer. answer ≡ look_answer look.now ds.now) }
    ensures sized { IfOk result (λ answer. IsSized answer.behind) }
{
    match look {
        Look::Print => Ok(Response::look(alloc, Behind::Table)),
        Look::Count => Ok(Response::look(alloc, Behind::Counts)),
        Look::Conflicts => Ok(Response::look(alloc, Behind::Conflicts)),
        Look::Save => Ok(Response::look(alloc, Behind::Saved)),
        Look::Find(query) => answer_find(ds, query),
        Look::Check => answer_check(ds),
        Look::Rehearse => answer_rehearsal(ds),
        Look::Upload { size } => answer_upload(ds, *size),
    }
}

/// Sends the text behind a reply.
///
/// # Errors
/// The sink failed, or no memory was left. A front of the text may have been written.
pub fn send_behind<K: Sink>(
    alloc: Global,
    out: &mut K,
    behind: &Behind,
    ds: &DataSet,
) -> Result<(), Stop>
    requires { IsSized behind.now }
    ensures ok { OnOk result (Appends (K.taken out.old) (K.taken out.new) (behind_text behind.now ds.now)) }
    ensures err { OnErr result (AppendsFront (K.taken out.old) (K.taken out.new) (behind_text behind.now ds.now)) }
    ensures lines { CutsNoLine Stop.WriteFault (K.taken out.old) (K.taken out.new) result }
    ensures cause { WriteCause (K.faults out.old) (K.faults out.new) result }
{
    match behind {
        Behind::Nothing => Ok(()),
        Behind::Table => send_table(alloc, out, ds),
        Behind::Counts => send_count(alloc, out, ds),
        Behind::Conflicts => send_conflicts(alloc, out, ds),
        Behind::Saved => send_saved(alloc, out, ds),
        Behind::Changes { changes, size } => send_changes(out, changes, *size),
        Behind::Rehearsed(count) => send_rehearsed(alloc, out, *count),
        Behind::Found(keys) => send_found(alloc, out, ds, keys.as_slice()),
        Behind::Findings(findings) => send_findings(alloc, out, findings),
        Behind::Sent(count, refused) => send_sent(alloc, out, *count, *refused),
    }
}
