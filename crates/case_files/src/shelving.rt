//! The shelf and the sink of a run.
ghost use Rattle.std.specs.Prelude.{◌≡◌, List, ℕ, None, false, IfOk, OnOk};
ghost use Rattle.std.specs.Str.{bytes_eq};
ghost use Rattle.osm_outside.specs.Outside.{held};
ghost use Rattle.case_files.specs.Named.{is_named, LacksUnnamed};

use crate::case::{Case, CaseFile, Run};
use osm_outside::{Calls, Files, MemoryShelf, MemorySink};
use std::alloc::{AllocError, Global};

/// The shelf of a run, with the files of its case; of two with one name it has the first.
///
/// # Errors
/// No memory was left.
pub fn shelf_of(alloc: Global, case: &Case, run: &Run) -> Result<MemoryShelf, AllocError> {
    Ok(MemoryShelf::new(
        files_of(alloc, &case.files)?,
        calls(alloc, run.failing.of_shelf())?,
    ))
}

/// The sink of a run.
///
/// # Errors
/// No memory was left.
pub fn sink_of(alloc: Global, run: &Run) -> Result<MemorySink, AllocError> {
    Ok(MemorySink::new(alloc, calls(alloc, run.failing.of_sink())?))
}

fn calls(alloc: Global, number: u64) -> Result<Calls, AllocError> {
    let mut calls = Calls::new(alloc);
    calls.push(number)?;
    Ok(calls)
}

// The shelf's files; of two with one name the first.
fn files_of(alloc: Global, named: &[CaseFile]) -> Result<Files, AllocError>
    ensures { IfOk result (λ files. LacksUnnamed files named.now) }
{
    let mut files = Files::new(alloc);
    for (i, file) in named.iter().enumerate() {
        add_unnamed(&mut files, &named[..i], file)?;
    }
    Ok(files)
}

fn add_unnamed(files: &mut Files, before: &[CaseFile], file: &CaseFile) -> Result<(), AllocError>
    requires { LacksUnnamed files.old before.now }
    ensures { OnOk result ((name : List ℕ) → is_named name before.now ≡ false → bytes_eq file.now.name.items name ≡ false → held files.new name ≡ None) }
{
    if is_named(before, &file.name) {
        return Ok(());
    }
    files.push(&file.name, &file.bytes)?;
    Ok(())
}

fn is_named(files: &[CaseFile], name: &[u8]) -> bool
    ensures { result ≡ is_named name.now files.now }
{
    files.iter().any(|file| file.name.as_slice() == name)
}
