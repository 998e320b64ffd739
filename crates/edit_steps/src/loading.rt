//! What a step finds on the shelf: the job that the objects of its file make, or the bytes of its file.
ghost use Rattle.std.specs.Prelude.{◌≡◌, ◌<◌, ◌∷◌, ◌++◌, [], true, length, Result, Ok, IfOk, IfSome};
ghost use Rattle.std.specs.Option.{option_copied, option_map};
ghost use Rattle.osm_outside.specs.Noted.{note_of};
ghost use Rattle.osm_outside.specs.Outside.{held};
ghost use Rattle.opl_line.specs.declared.mode.Mode.TheVariants as modes;
ghost use Rattle.opl_file.specs.Feeding.{reads_on};
ghost use Rattle.opl_file.specs.Reading.{objects_of};
ghost use Rattle.download.specs.Filter.{filtered};
ghost use Rattle.import_tool.specs.Counted.{new_objects_of};
ghost use Rattle.tool_api.specs.declared.job.Job.TheVariants as jobs;
ghost use Rattle.tool_api.specs.declared.verb.Verb.TheVariants as verbs;
ghost use Rattle.edit_steps.specs.Fetch.{reading};
ghost use Rattle.edit_steps.specs.Given.{AreBytes, Finds};
ghost use Rattle.edit_steps.specs.Load.{job_found, bytes_found, objects_found, file_found, AreRead, AreServable, IsFor, IsFoundIn, MayFind, MayFindFor, FinishCause};
ghost use Rattle.edit_steps.specs.Reads.{begins_in};
ghost use Rattle.edit_steps.specs.Stop.{ReadCause};

use crate::doing::is_given_up;
use crate::files::{Bytes, Fetched, fetch};
use crate::limits::Limits;
use crate::stop::Stop;
use download::{filter, what_is_read_may_be_told};
use edit_history::Group;
use edit_script::{Act, Purpose};
use import_tool::new_objects;
use opl_file::{FileAnswer, FileFault, Objects, Reader};
use opl_line::Mode;
use osm_base::{Area, Tags};
use osm_outside::{Shelf, Sink};
use osm_table::Shared;
use std::alloc::Global;
use tool_api::Job;

/// What was found.
#[derive(Drop)]
pub enum Found {
    /// Nothing: the step reads no file, or the shelf has none of that name.
    Nothing,
    /// A file that isn't taken.
    Bad(FileFault),
    /// The job that the objects of a file make.
    Job(Job),
    /// The bytes of a file that is read with the table at hand: answers, or a saved session.
    Bytes(Bytes),
    /// The objects of a file that a server gets.
    Objects(Objects),
}

/// Reads the file that an act names, piece by piece. In a group that was given up it reads none. It costs what the file
/// costs. The shelf notes what the sink has taken then.
///
/// # Errors
/// The shelf failed, or no memory was left.
pub fn find<S: Shelf, K: Sink>(
    alloc: Global,
    limits: Limits,
    shelf: &mut S,
    out: &K,
    group: Group,
    act: &Act,
) -> Result<Found, Stop>
    ensures told { S.told shelf.new ≡ S.told shelf.old }
    ensures found { IfOk result (IsFoundIn (S.told shelf.old) limits group act.now) }
    ensures may_be_found { IfOk result (MayFind act.now) }
    ensures noted { S.noted shelf.new ≡ S.noted shelf.old ++ note_of (begins_in group act.now) (K.taken out.now) }
    ensures cause { ReadCause (S.faults shelf.old) (S.faults shelf.new) result }
{
    if is_given_up(group) {
        return Ok(Found::Nothing);
    }
    match act {
        Act::File { name, purpose } => find_file(
            alloc,
            limits,
            shelf,
            out,
            name.as_bytes(),
            purpose,
        ),
        Act::Serve { name } => find_objects(alloc, shelf, out, name.as_bytes(), limits.file),
        Act::Job(_) => Ok(Found::Nothing),
        Act::Generate { .. } => Ok(Found::Nothing),
        Act::History(_) => Ok(Found::Nothing),
        Act::Look(_) => Ok(Found::Nothing),
        Act::Editor { .. } => Ok(Found::Nothing),
        Act::Meet(_) => Ok(Found::Nothing),
    }
}

// What is found in a file, by what it is read for.
fn find_file<S: Shelf, K: Sink>(
    alloc: Global,
    limits: Limits,
    shelf: &mut S,
    out: &K,
    name: &[u8],
    purpose: &Purpose,
) -> Result<Found, Stop>
    ensures told { S.told shelf.new ≡ S.told shelf.old }
    ensures found { IfOk result (λ found. Finds (S.told shelf.old) (λ files. held files name.now) found (file_found limits purpose.now)) }
    ensures may_be_found { IfOk result (MayFindFor purpose.now) }
    ensures noted { S.noted shelf.new ≡ S.noted shelf.old ++ (name.now, K.taken out.now) ∷ [] }
    ensures cause { ReadCause (S.faults shelf.old) (S.faults shelf.new) result }
{
    let limit = limits.file;
    match purpose {
        Purpose::Download { area, wanted } => {
            find_map(alloc, shelf, out, name, limit, *area, wanted.as_ref())
        }
        Purpose::Import => find_new(alloc, shelf, out, name, limit),
        Purpose::Confirm => find_bytes(alloc, shelf, out, name, limit),
        Purpose::Resume => find_bytes(alloc, shelf, out, name, limit),
    }
}

// The job that merges what is wanted of a file that a server gave.
fn find_map<S: Shelf, K: Sink>(
    alloc: Global,
    shelf: &mut S,
    out: &K,
    name: &[u8],
    limit: u64,
    area: Option<Area>,
    wanted: Option<&Tags>,
) -> Result<Found, Stop>
    ensures told { S.told shelf.new ≡ S.told shelf.old }
    ensures found { IfOk result (λ found. Finds (S.told shelf.old) (λ files. held files name.now) found (λ given. job_found (λ objects. jobs.Merge (filtered objects area (option_copied wanted.entry))) (option_map (objects_of modes.Download limit) given))) }
    ensures may_be_found { IfOk result (IsFor verbs.Merge) }
    ensures noted { S.noted shelf.new ≡ S.noted shelf.old ++ (name.now, K.taken out.now) ∷ [] }
    ensures cause { ReadCause (S.faults shelf.old) (S.faults shelf.new) result }
{
    match load(alloc, shelf, out, name, Mode::Download, limit)? {
        None => Ok(Found::Nothing),
        Some(Err(fault)) => Ok(Found::Bad(fault)),
        Some(Ok(objects)) => {
            what_is_read_may_be_told();
            let told = Shared::new(alloc, filter(alloc, objects, area, wanted)?)?;
            Ok(Found::Job(Job::Merge { told }))
        }
    }
}

// The job that imports the new objects of a file.
fn find_new<S: Shelf, K: Sink>(
    alloc: Global,
    shelf: &mut S,
    out: &K,
    name: &[u8],
    limit: u64,
) -> Result<Found, Stop>
    ensures told { S.told shelf.new ≡ S.told shelf.old }
    ensures found { IfOk result (λ found. Finds (S.told shelf.old) (λ files. held files name.now) found (λ given. job_found (λ objects. jobs.Import (new_objects_of objects)) (option_map (objects_of modes.Import limit) given))) }
    ensures may_be_found { IfOk result (IsFor verbs.Import) }
    ensures noted { S.noted shelf.new ≡ S.noted shelf.old ++ (name.now, K.taken out.now) ∷ [] }
    ensures cause { ReadCause (S.faults shelf.old) (S.faults shelf.new) result }
{
    match load(alloc, shelf, out, name, Mode::Import, limit)? {
        None => Ok(Found::Nothing),
        Some(Err(fault)) => Ok(Found::Bad(fault)),
        Some(Ok(objects)) => {
            let objects = new_objects(alloc, objects)?;
            Ok(Found::Job(Job::Import { objects }))
        }
    }
}

// The objects of a file that a server gets.
fn find_objects<S: Shelf, K: Sink>(
    alloc: Global,
    shelf: &mut S,
    out: &K,
    name: &[u8],
    limit: u64,
) -> Result<Found, Stop>
    ensures told { S.told shelf.new ≡ S.told shelf.old }
    ensures found { IfOk result (λ found. Finds (S.told shelf.old) (λ files. held files name.now) found (λ given. objects_found (option_map (objects_of modes.Download limit) given))) }
    ensures servable { IfOk result AreServable }
    ensures noted { S.noted shelf.new ≡ S.noted shelf.old ++ (name.now, K.taken out.now) ∷ [] }
    ensures cause { ReadCause (S.faults shelf.old) (S.faults shelf.new) result }
{
    match load(alloc, shelf, out, name, Mode::Download, limit)? {
        None => Ok(Found::Nothing),
        Some(Err(fault)) => Ok(Found::Bad(fault)),
        Some(Ok(objects)) => {
            what_is_read_may_be_told();
            Ok(Found::Objects(objects))
        }
    }
}

// The bytes of a file.
fn find_bytes<S: Shelf, K: Sink>(
    alloc: Global,
    shelf: &mut S,
    out: &K,
    name: &[u8],
    limit: u64,
) -> Result<Found, Stop>
    ensures told { S.told shelf.new ≡ S.told shelf.old }
    ensures found { IfOk result (λ found. Finds (S.told shelf.old) (λ files. held files name.now) found (λ given. bytes_found (reading limit given))) }
    ensures noted { S.noted shelf.new ≡ S.noted shelf.old ++ (name.now, K.taken out.now) ∷ [] }
    ensures cause { ReadCause (S.faults shelf.old) (S.faults shelf.new) result }
{
    match fetch(alloc, shelf, out, name, limit as usize)? {
        Fetched::Missing => Ok(Found::Nothing),
        Fetched::TooLong => Ok(Found::Bad(FileFault::FileTooLong)),
        Fetched::Whole(bytes) => Ok(Found::Bytes(bytes)),
    }
}

// Reads the objects of a file, where the shelf has it.
fn load<S: Shelf, K: Sink>(
    alloc: Global,
    shelf: &mut S,
    out: &K,
    name: &[u8],
    mode: Mode,
    limit: u64,
) -> Result<Option<Result<Objects, FileFault>>, Stop>
    ensures told { S.told shelf.new ≡ S.told shelf.old }
    ensures loaded { IfOk result (λ file. Finds (S.told shelf.old) (λ files. held files name.now) file (option_map (objects_of mode limit))) }
    ensures read { IfOk result (λ file. IfSome file (AreRead mode limit)) }
    ensures noted { S.noted shelf.new ≡ S.noted shelf.old ++ (name.now, K.taken out.now) ∷ [] }
    ensures cause { ReadCause (S.faults shelf.old) (S.faults shelf.new) result }
{
    let Ok(found) = shelf.begin(name, out) else {
        return Err(Stop::ReadFault);
    };
    if !found {
        return Ok(None);
    }
    let mut buffer = [0u8; 65_536];
    let read = read_objects(alloc, shelf, &mut buffer, mode, limit)?;
    Ok(Some(read))
}

// Reads what is left of the file begun, and no piece more once the limit is passed.
fn read_objects<S: Shelf>(
    alloc: Global,
    shelf: &mut S,
    buffer: &mut [u8],
    mode: Mode,
    limit: u64,
) -> Result<Result<Objects, FileFault>, Stop>
    requires begun { S.begun shelf.old ≡ true }
    requires room { 0 < length buffer.old }
    ensures told { S.told shelf.new ≡ S.told shelf.old }
    ensures objects { IfOk result (λ read. IfSome (S.rest shelf.old) (λ bytes. read ≡ objects_of mode limit bytes)) }
    ensures bytes { IfOk result (λ read. AreBytes read (objects_of mode limit)) }
    ensures read { IfOk result (AreRead mode limit) }
    ensures noted { S.noted shelf.new ≡ S.noted shelf.old }
    ensures cause { ReadCause (S.faults shelf.old) (S.faults shelf.new) result }
{
    let mut reader = Reader::new(alloc, mode, limit);
    let mut left = limit;
    loop {
        let Ok(count) = shelf.next(buffer) else {
            return Err(Stop::ReadFault);
        };
        if count == 0 {
            return finished(reader);
        }
        if left < count as u64 {
            return Ok(Err(FileFault::FileTooLong));
        }
        reader.feed(&buffer[..count])?;
        left -= count as u64;
    }
}

// What the bytes that the reader was fed are.
fn finished(reader: Reader) -> Result<Result<Objects, FileFault>, Stop>
    ensures objects { IfOk result (λ read. read ≡ reads_on reader []) }
    ensures cause { FinishCause result }
{
    match reader.finish() {
        Ok(objects) => Ok(Ok(objects)),
        Err(FileAnswer::Bad(fault)) => Ok(Err(fault)),
        Err(FileAnswer::Memory) => Err(Stop::Memory),
    }
}
