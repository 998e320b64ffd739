//! The lines of a saved session, read one after the other.

ghost use Rattle.std.specs.Prelude.{◌≡◌, ◌++◌, ◌+◌, ◌<◌, ◌^◌, [], Some, None, Ok, length, MatchResult, OnOk, IfOk};
ghost use Rattle.std.specs.Option.{option_map, option_to_list};
ghost use Rattle.opl_file.specs.Cut.{lines_of};
ghost use Rattle.saved_session.specs.declared.place.Place.{Place};
ghost use Rattle.saved_session.specs.declared.place.Place.TheVariants.{Head};
ghost use Rattle.saved_session.specs.Reading.{Entries, has_ended, entries_from, session_from, behind_header, step, stepped};
ghost use Rattle.saved_session.specs.Words.{header_of};
ghost use Rattle.saved_session.specs.Drafting.{Refuses};

use crate::fault::SavedFault;
use crate::heads::{is_header, read_header};
use crate::place::{Place, SavedEntry, Step};
use crate::steps::{Desk, step};
use opl_file::{Unread, next_line};
use opl_line::freed;
use std::alloc::{AllocError, Global};

/// A saved table, as it was read: its number, and its entries in the order of their lines.
#[derive(Drop)]
pub struct SavedTable {
    pub next: u64,
    pub entries: Vec<SavedEntry>,
}

/// Adds what a line made.
fn push_made(entries: &mut Vec<SavedEntry>, made: Option<SavedEntry>) -> Result<(), AllocError>
    ensures { OnOk result (entries.new.items ≡ entries.old.items ++ option_to_list made) }
{
    if let Some(entry) = made {
        entries.push(entry)?;
    }
    Ok(())
}

fn has_ended(place: &Place) -> bool
    ensures { result ≡ has_ended place.now }
{
    match place {
        Place::Behind => true,
        _ => false,
    }
}

/// Adds what a line made, and answers where the next one stands.
fn put_made(entries: &mut Vec<SavedEntry>, made: Step) -> Result<Place, AllocError>
    ensures place { IfOk result (λ next. next ≡ made.place) }
    ensures entries { OnOk result (entries.new.items ≡ entries.old.items ++ option_to_list made.entry) }
{
    let Step { place, entry } = made;
    push_made(entries, entry).and(Ok(place))
}

/// Adds what the line, which has that number, makes in its place, and answers where the next one stands.
fn next_place(
    desk: &mut Desk,
    entries: &mut Vec<SavedEntry>,
    here: Place,
    number: u64,
    line: &[u8],
) -> Result<Place, SavedFault>
    ensures { MatchResult result (λ next. option_map {U = Place × Entries} (λ s. (s.place, entries.old.items ++ option_to_list s.entry)) (step here line.now) ≡ Some (next, entries.new.items)) (Refuses (stepped number (step here line.now) (λ _. Ok []))) }
{
    match step(desk, here, line) {
        Err(Unread::Memory) => Err(SavedFault::Memory),
        Err(Unread::Outside) => Err(SavedFault::BadSaved { line: number }),
        Ok(made) => Ok(put_made(entries, made)?),
    }
}

/// Adds the entries of the lines behind a header, which has that number.
fn read_lines(
    desk: &mut Desk,
    entries: &mut Vec<SavedEntry>,
    number: u64,
    bytes: &[u8],
) -> Result<(), SavedFault>
    requires none { entries.old.items ≡ [] }
    requires few { number + 1 + length bytes.now < 2 ^ 64 }
    ensures { MatchResult result (λ _. entries_from (number + 1) (Head None) (lines_of bytes.now) ≡ Ok entries.new.items) (Refuses (entries_from (number + 1) (Head None) (lines_of bytes.now))) }
{
    let mut place = Place::Head { last: None };
    let mut count = number;
    let mut rest = bytes;
    while !rest.is_empty() {
        let (line, after) = next_line(rest);
        count += 1;
        place = next_place(desk, entries, place, count, freed(line))?;
        rest = after;
    }
    // Dropped by a call: on a way out, the code of all that a place owns would be written out.
    let ended = has_ended(&place);
    drop(place);
    if ended {
        Ok(())
    } else {
        Err(SavedFault::BadSaved { line: count + 1 })
    }
}

/// The entries of the lines behind a header, which has that number.
fn read_entries(desk: &mut Desk, number: u64, bytes: &[u8]) -> Result<Vec<SavedEntry>, SavedFault>
    requires { number + 1 + length bytes.now < 2 ^ 64 }
    ensures { MatchResult result (λ es. entries_from (number + 1) (Head None) (lines_of bytes.now) ≡ Ok es.items) (Refuses (entries_from (number + 1) (Head None) (lines_of bytes.now))) }
{
    let mut entries = Vec::new(desk.pool.allocator());
    read_lines(desk, &mut entries, number, bytes)?;
    Ok(entries)
}

/// The table of a text. All before the first line that begins with `session ` is skipped.
///
/// # Errors
/// `BadSaved` with the first line that can't stand in its place; `Memory` where no memory was left.
pub fn read_table(alloc: Global, bytes: &[u8]) -> Result<SavedTable, SavedFault>
    ensures { MatchResult result (λ s. session_from 1 (lines_of bytes.now) ≡ Ok (record { next = s.next; entries = s.entries.items })) (Refuses (session_from 1 (lines_of bytes.now))) }
{
    let mut desk = Desk::new(alloc);
    let mut count = 0u64;
    let mut rest = bytes;
    while !rest.is_empty() {
        let (line, after) = next_line(rest);
        count += 1;
        if is_header(freed(line)) {
            return read_behind(&mut desk, count, freed(line), after);
        }
        rest = after;
    }
    Err(SavedFault::BadSaved { line: count + 1 })
}

/// The table of a header, which has that number, and of the lines behind it.
fn read_behind(
    desk: &mut Desk,
    number: u64,
    header: &[u8],
    bytes: &[u8],
) -> Result<SavedTable, SavedFault>
    requires { number + 1 + length bytes.now < 2 ^ 64 }
    ensures { MatchResult result (λ s. behind_header number (header_of header.now) (lines_of bytes.now) ≡ Ok (record { next = s.next; entries = s.entries.items })) (Refuses (behind_header number (header_of header.now) (lines_of bytes.now))) }
{
    match read_header(&mut desk.written, header) {
        Err(Unread::Memory) => Err(SavedFault::Memory),
        Err(Unread::Outside) => Err(SavedFault::BadSaved { line: number }),
        Ok(next) => {
            let entries = read_entries(desk, number, bytes)?;
            Ok(SavedTable { next, entries })
        }
    }
}
