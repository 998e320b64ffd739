//! Text that goes to the sink.
ghost use Rattle.std.specs.Prelude.{◌≡◌, ◌++◌, ◌≤◌, OnOk, OnErr, flat_map};
ghost use Rattle.std.specs.Io.KnownBytes.{Appends};
ghost use Rattle.osm_outside.specs.Lines.{AreLines, CutsNoLine};
ghost use Rattle.osm_outside.specs.Outside.{AppendsFront};
ghost use Rattle.osm_base.specs.Extends.{Extends};
ghost use Rattle.osm_base.specs.Meta.{empty_meta};
ghost use Rattle.chunking.specs.Chunks.{chunks};
ghost use Rattle.conflict.specs.Shown.{conflicts_text};
ghost use Rattle.saved_session.specs.Saved.{saved, saved_end, saved_head};
ghost use Rattle.edit_script.specs.Reply.{reply_line};
ghost use Rattle.edit_steps.specs.Planned.{rehearsed_text};
ghost use Rattle.edit_steps.specs.Printed.{lines_of, saved_rest, table_text};
ghost use Rattle.edit_steps.specs.Sent.{sent_text};
ghost use Rattle.edit_steps.specs.Counted.{count_line, count_text};
ghost use Rattle.edit_steps.specs.Searched.{findings_lines, findings_text, found_text};
ghost use Rattle.edit_steps.specs.Stop.{WriteCause};

use crate::counting::{write_count, write_count_line};
use crate::printing::write_entry;
use crate::searching::{write_findings, write_key_line};
use crate::sent::write_sent;
use crate::stop::Stop;
use chunking::{ChunkFault, write_chunks};
use conflict::{conflicts, write_conflict};
use dataset::DataSet;
use edit_script::{StepReply, write_reply};
use map_checks::Findings;
use osm_base::{Key, Meta};
use osm_outside::{Failed, Sink, pass_full};
use saved_session::{write_saved_end, write_saved_entry, write_saved_head};
use std::alloc::{AllocError, Global};
use upload_order::{Changes, WorldRefusal};

// Gives the sink a text.
fn put<K: Sink>(out: &mut K, text: &[u8]) -> Result<(), Stop>
    ensures ok { OnOk result (Appends (K.taken out.old) (K.taken out.new) text.now) }
    ensures err { OnErr result (AppendsFront (K.taken out.old) (K.taken out.new) text.now) }
    ensures lines { AreLines text.now → CutsNoLine Stop.WriteFault (K.taken out.old) (K.taken out.new) result }
    ensures cause { WriteCause (K.faults out.old) (K.faults out.new) result }
{
    match out.put(text) {
        Ok(()) => Ok(()),
        Err(Failed) => Err(Stop::WriteFault),
    }
}

/// Sends the reply line of a step.
///
/// # Errors
/// The sink failed, or no memory was left. A front of the line may have been written.
pub fn send_reply<K: Sink>(
    alloc: Global,
    out: &mut K,
    line: u64,
    reply: &StepReply,
) -> Result<(), Stop>
    ensures ok { OnOk result (Appends (K.taken out.old) (K.taken out.new) (reply_line line reply.now)) }
    ensures err { OnErr result (AppendsFront (K.taken out.old) (K.taken out.new) (reply_line line reply.now)) }
    ensures lines { CutsNoLine Stop.WriteFault (K.taken out.old) (K.taken out.new) result }
    ensures cause { WriteCause (K.faults out.old) (K.faults out.new) result }
{
    let mut text = Vec::new(alloc);
    write_reply(line, reply, &mut text)?;
    put(out, &text)
}

/// Sends the text of `count`.
///
/// # Errors
/// The sink failed, or no memory was left. A front of the text may have been written.
pub fn send_count<K: Sink>(alloc: Global, out: &mut K, ds: &DataSet) -> Result<(), Stop>
    ensures ok { OnOk result (Appends (K.taken out.old) (K.taken out.new) (count_text ds.now)) }
    ensures err { OnErr result (AppendsFront (K.taken out.old) (K.taken out.new) (count_text ds.now)) }
    ensures lines { CutsNoLine Stop.WriteFault (K.taken out.old) (K.taken out.new) result }
    ensures cause { WriteCause (K.faults out.old) (K.faults out.new) result }
{
    let mut text = Vec::new(alloc);
    write_count(ds, &mut text)?;
    put(out, &text)
}

/// Sends the text of `print`, in pieces of some tens of KiB.
///
/// # Errors
/// The sink failed, or no memory was left. A front of the text may have been written.
pub fn send_table<K: Sink>(alloc: Global, out: &mut K, ds: &DataSet) -> Result<(), Stop>
    ensures ok { OnOk result (Appends (K.taken out.old) (K.taken out.new) (table_text ds.now)) }
    ensures err { OnErr result (AppendsFront (K.taken out.old) (K.taken out.new) (table_text ds.now)) }
    ensures lines { CutsNoLine Stop.WriteFault (K.taken out.old) (K.taken out.new) result }
    ensures cause { WriteCause (K.faults out.old) (K.faults out.new) result }
{
    let keys = ds.ordered()?;
    send_lines(alloc, out, Lines::Object, ds, keys.as_slice())
}

/// Sends the text of `conflicts`, in pieces of some tens of KiB.
///
/// # Errors
/// The sink failed, or no memory was left. A front of the text may have been written.
pub fn send_conflicts<K: Sink>(alloc: Global, out: &mut K, ds: &DataSet) -> Result<(), Stop>
    ensures ok { OnOk result (Appends (K.taken out.old) (K.taken out.new) (conflicts_text ds.now)) }
    ensures err { OnErr result (AppendsFront (K.taken out.old) (K.taken out.new) (conflicts_text ds.now)) }
    ensures lines { CutsNoLine Stop.WriteFault (K.taken out.old) (K.taken out.new) result }
    ensures cause { WriteCause (K.faults out.old) (K.faults out.new) result }
{
    let keys = conflicts(ds)?;
    send_lines(alloc, out, Lines::Conflict, ds, keys.as_slice())
}

/// Sends the text of `save`, in pieces of some tens of KiB.
///
/// # Errors
/// The sink failed, or no memory was left. A front of the text may have been written.
#[tactic(auto, unfolding(saved_session::specs::Saved::saved), using(osm_outside::proofs::Along::front_of_first, osm_outside::proofs::Along::front_of_second))]
pub fn send_saved<K: Sink>(alloc: Global, out: &mut K, ds: &DataSet) -> Result<(), Stop>
    ensures ok { OnOk result (Appends (K.taken out.old) (K.taken out.new) (saved ds.now)) }
    ensures err { OnErr result (AppendsFront (K.taken out.old) (K.taken out.new) (saved ds.now)) }
    ensures lines { CutsNoLine Stop.WriteFault (K.taken out.old) (K.taken out.new) result }
    ensures cause { WriteCause (K.faults out.old) (K.faults out.new) result }
{
    send_saved_head(alloc, out, ds)?;
    send_saved_rest(alloc, out, ds)
}

fn send_saved_head<K: Sink>(alloc: Global, out: &mut K, ds: &DataSet) -> Result<(), Stop>
    ensures ok { OnOk result (Appends (K.taken out.old) (K.taken out.new) (saved_head ds.now.next)) }
    ensures err { OnErr result (AppendsFront (K.taken out.old) (K.taken out.new) (saved_head ds.now.next)) }
    ensures lines { CutsNoLine Stop.WriteFault (K.taken out.old) (K.taken out.new) result }
    ensures cause { WriteCause (K.faults out.old) (K.faults out.new) result }
{
    let mut text = Vec::new(alloc);
    write_saved_head(ds, &mut text)?;
    put(out, &text)
}

#[tactic(auto, using(osm_outside::proofs::Along::front_of_first, osm_outside::proofs::Along::front_of_second))]
fn send_saved_rest<K: Sink>(alloc: Global, out: &mut K, ds: &DataSet) -> Result<(), Stop>
    ensures ok { OnOk result (Appends (K.taken out.old) (K.taken out.new) (saved_rest ds.now)) }
    ensures err { OnErr result (AppendsFront (K.taken out.old) (K.taken out.new) (saved_rest ds.now)) }
    ensures lines { CutsNoLine Stop.WriteFault (K.taken out.old) (K.taken out.new) result }
    ensures cause { WriteCause (K.faults out.old) (K.faults out.new) result }
{
    let keys = ds.ordered()?;
    send_lines(alloc, out, Lines::Saved, ds, keys.as_slice())?;
    send_saved_end(alloc, out)
}

fn send_saved_end<K: Sink>(alloc: Global, out: &mut K) -> Result<(), Stop>
    ensures ok { OnOk result (Appends (K.taken out.old) (K.taken out.new) saved_end) }
    ensures err { OnErr result (AppendsFront (K.taken out.old) (K.taken out.new) saved_end) }
    ensures lines { CutsNoLine Stop.WriteFault (K.taken out.old) (K.taken out.new) result }
    ensures cause { WriteCause (K.faults out.old) (K.faults out.new) result }
{
    let mut text = Vec::new(alloc);
    write_saved_end(&mut text)?;
    put(out, &text)
}

/// What is written of an object.
#[derive(Clone, Copy)]
enum Lines {
    /// Its line, as `print` has it.
    Object,
    /// Its lines where it is in conflict.
    Conflict,
    /// Its lines in a saved session.
    Saved,
    /// Its key alone.
    Key,
}

// Appends what is written of the object with that key; `unknown` is the empty metadata, and `near` where a line of `print`
// looks for the object first.
fn write_lines(
    lines: Lines,
    ds: &DataSet,
    key: Key,
    near: &mut usize,
    unknown: &Meta,
    piece: &mut Vec<u8>,
) -> Result<(), AllocError>
    requires { unknown.now ≡ empty_meta }
    ensures written { OnOk result (piece.new.items ≡ piece.old.items ++ lines_of lines ds.now key) }
    ensures kept { OnErr result (Extends piece.old.items piece.new.items) }
{
    match lines {
        Lines::Object => write_entry(ds, key, near, unknown, piece),
        Lines::Conflict => write_conflict(ds, key, piece),
        Lines::Saved => write_saved_entry(ds, key, unknown, piece),
        Lines::Key => write_key_line(key, piece),
    }
}

// Sends what is written of these objects.
fn send_lines<K: Sink>(
    alloc: Global,
    out: &mut K,
    lines: Lines,
    ds: &DataSet,
    keys: &[Key],
) -> Result<(), Stop>
    ensures ok { OnOk result (Appends (K.taken out.old) (K.taken out.new) (flat_map (lines_of lines ds.now) keys.now)) }
    ensures err { OnErr result (AppendsFront (K.taken out.old) (K.taken out.new) (flat_map (lines_of lines ds.now) keys.now)) }
    ensures lines { CutsNoLine Stop.WriteFault (K.taken out.old) (K.taken out.new) result }
    ensures cause { WriteCause (K.faults out.old) (K.faults out.new) result }
{
    let unknown = Meta::empty(alloc)?;
    let mut piece = Vec::new(alloc);
    let mut near = 0;
    for key in keys {
        write_lines(lines, ds, *key, &mut near, &unknown, &mut piece)?;
        match pass_full(out, &mut piece) {
            Ok(()) => (),
            Err(Failed) => return Err(Stop::WriteFault),
        }
    }
    put(out, &piece)?;
    Ok(())
}

/// Sends the changes of an upload in chunks of a size, in pieces of some tens of KiB.
///
/// # Errors
/// The sink failed, or no memory was left. A front of the text may have been written.
pub fn send_changes<K: Sink>(out: &mut K, changes: &Changes, size: u32) -> Result<(), Stop>
    requires { (1 ≤ size) × (size ≤ 10000) }
    ensures ok { OnOk result (Appends (K.taken out.old) (K.taken out.new) (chunks changes.now size)) }
    ensures err { OnErr result (AppendsFront (K.taken out.old) (K.taken out.new) (chunks changes.now size)) }
    ensures lines { CutsNoLine Stop.WriteFault (K.taken out.old) (K.taken out.new) result }
    ensures cause { WriteCause (K.faults out.old) (K.faults out.new) result }
{
    match write_chunks(changes, size, out) {
        Ok(()) => Ok(()),
        Err(ChunkFault::Write) => Err(Stop::WriteFault),
        Err(ChunkFault::Memory) => Err(Stop::Memory),
    }
}

/// Sends how many changes a rehearsal accepted.
///
/// # Errors
/// The sink failed, or no memory was left. A front of the text may have been written.
pub fn send_rehearsed<K: Sink>(alloc: Global, out: &mut K, count: u64) -> Result<(), Stop>
    ensures ok { OnOk result (Appends (K.taken out.old) (K.taken out.new) (rehearsed_text count)) }
    ensures err { OnErr result (AppendsFront (K.taken out.old) (K.taken out.new) (rehearsed_text count)) }
    ensures lines { CutsNoLine Stop.WriteFault (K.taken out.old) (K.taken out.new) result }
    ensures cause { WriteCause (K.faults out.old) (K.faults out.new) result }
{
    send_count_line(alloc, out, b"rehearse accepted ", count)
}

/// Sends how many changes a server accepted, and why it refused the next one.
///
/// # Errors
/// The sink failed, or no memory was left. A front of the text may have been written.
pub fn send_sent<K: Sink>(
    alloc: Global,
    out: &mut K,
    count: u64,
    refused: Option<WorldRefusal>,
) -> Result<(), Stop>
    ensures ok { OnOk result (Appends (K.taken out.old) (K.taken out.new) (sent_text count refused)) }
    ensures err { OnErr result (AppendsFront (K.taken out.old) (K.taken out.new) (sent_text count refused)) }
    ensures lines { CutsNoLine Stop.WriteFault (K.taken out.old) (K.taken out.new) result }
    ensures cause { WriteCause (K.faults out.old) (K.faults out.new) result }
{
    let mut text = Vec::new(alloc);
    write_sent(count, refused, &mut text)?;
    put(out, &text)
}

/// Sends a line with a name and a number.
///
/// # Errors
/// The sink failed, or no memory was left. A front of the line may have been written.
pub fn send_count_line<K: Sink>(
    alloc: Global,
    out: &mut K,
    name: &[u8],
    count: u64,
) -> Result<(), Stop>
    ensures ok { OnOk result (Appends (K.taken out.old) (K.taken out.new) (count_line name.now count)) }
    ensures err { OnErr result (AppendsFront (K.taken out.old) (K.taken out.new) (count_line name.now count)) }
    ensures lines { CutsNoLine Stop.WriteFault (K.taken out.old) (K.taken out.new) result }
    ensures cause { WriteCause (K.faults out.old) (K.faults out.new) result }
{
    let mut text = Vec::new(alloc);
    write_count_line(name, count, &mut text)?;
    put(out, &text)
}

/// Sends the keys that were found, in pieces of some tens of KiB.
///
/// # Errors
/// The sink failed, or no memory was left. A front of the text may have been written.
#[tactic(auto, using(osm_outside::proofs::Along::front_of_first, osm_outside::proofs::Along::front_of_second))]
pub fn send_found<K: Sink>(
    alloc: Global,
    out: &mut K,
    ds: &DataSet,
    keys: &[Key],
) -> Result<(), Stop>
    ensures ok { OnOk result (Appends (K.taken out.old) (K.taken out.new) (found_text keys.now)) }
    ensures err { OnErr result (AppendsFront (K.taken out.old) (K.taken out.new) (found_text keys.now)) }
    ensures lines { CutsNoLine Stop.WriteFault (K.taken out.old) (K.taken out.new) result }
    ensures cause { WriteCause (K.faults out.old) (K.faults out.new) result }
{
    send_count_line(alloc, out, b"found ", keys.len() as u64)?;
    send_lines(alloc, out, Lines::Key, ds, keys)
}

/// Sends what is broken, at once.
///
/// # Errors
/// The sink failed, or no memory was left. A front of the text may have been written.
#[tactic(auto, using(osm_outside::proofs::Along::front_of_first, osm_outside::proofs::Along::front_of_second))]
pub fn send_findings<K: Sink>(alloc: Global, out: &mut K, findings: &Findings) -> Result<(), Stop>
    ensures ok { OnOk result (Appends (K.taken out.old) (K.taken out.new) (findings_text findings.now)) }
    ensures err { OnErr result (AppendsFront (K.taken out.old) (K.taken out.new) (findings_text findings.now)) }
    ensures lines { CutsNoLine Stop.WriteFault (K.taken out.old) (K.taken out.new) result }
    ensures cause { WriteCause (K.faults out.old) (K.faults out.new) result }
{
    send_count_line(alloc, out, b"check ", findings.len() as u64)?;
    send_finding_lines(alloc, out, findings)
}

fn send_finding_lines<K: Sink>(alloc: Global, out: &mut K, findings: &Findings) -> Result<(), Stop>
    ensures ok { OnOk result (Appends (K.taken out.old) (K.taken out.new) (findings_lines findings.now)) }
    ensures err { OnErr result (AppendsFront (K.taken out.old) (K.taken out.new) (findings_lines findings.now)) }
    ensures lines { CutsNoLine Stop.WriteFault (K.taken out.old) (K.taken out.new) result }
    ensures cause { WriteCause (K.faults out.old) (K.faults out.new) result }
{
    let mut text = Vec::new(alloc);
    write_findings(findings, &mut text)?;
    put(out, &text)
}
