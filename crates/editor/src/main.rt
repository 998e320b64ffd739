//! An editor of OpenStreetMap data without screen or network: runs a script over files of the working folder.
//!
//! `main` alone speaks with the world: in one call it hands the words, the working folder, standard output and the error
//! stream to `run_program`, and ends with the code that it gives. `run_program` is proved for any folder and any two streams:
//! the session is right over the files that the folder tells and what the streams hold (`run_over`), the status stands on the
//! error stream (`tell`), and the code is its number (`exit_code`).
#![tactic(auto)]

ghost use Rattle.std.specs.Prelude.{◌≡◌, IfOk, IfErr, OnOk, OnErr, map, string_bytes};
ghost use Rattle.std.specs.Io.KnownBytes.{Appends};
ghost use Rattle.std.specs.IoError.{error_kind};
ghost use Rattle.std.specs.Process.{exit_status};
ghost use Rattle.tool_api.specs.declared.verb.Verb.{Verb};
ghost use Rattle.editor.specs.Over.{IsRightOver};
ghost use Rattle.edit_session.specs.Moment.{outside};
ghost use Rattle.edit_session.specs.Right.{IsRight};
ghost use Rattle.edit_session.specs.StatusText.{number_of};
ghost use Rattle.edit_session.specs.Verbs.{four_of_each};
ghost use Rattle.editor.specs.Told.{SaysWhy, told_text};

use edit_session::{Status, run_editor};
use osm_outside::{Folder, HostShelf, HostSink, Shelf, Sink};
use std::alloc::{AllocError, Global};
use std::env;
use std::io::{self, ErrorKind, Write};
use std::process::ExitCode;

// What a reader has to believe stands here: these are the words, the working folder, standard output and the error stream, and
// the program ends with the code.
fn main(rt: HostRuntime) -> ExitCode {
    run_program(
        rt.alloc(),
        words(&rt),
        rt.clone(),
        io::writer(&rt),
        rt.stderr(),
    )
    .code
}

fn words(rt: &HostRuntime) -> io::Result<Vec<String>> {
    Ok(env::args(rt)?.collect(rt.alloc())?)
}

/// How the program ended.
#[derive(Drop)]
struct Ended<W, E> {
    /// How its session ended.
    status: Status,
    /// The code with which the program ends.
    code: ExitCode,
    /// Whether the error stream took what was said.
    said: io::Result<()>,
    /// Where the session wrote.
    out: W,
    /// Where the status was said.
    err: E,
}

/// Runs the session that the words ask for over this folder, and says how it ended.
fn run_program<F: Folder + Drop, W: Write, E: Write>(
    alloc: Global,
    words: io::Result<Vec<String>>,
    folder: Result<F, AllocError>,
    out: W,
    err: E,
) -> Ended<W, E>
    // Right in all that `IsRight` names, over the files that the folder tells and what the two streams hold.
    ensures right { IfOk words (λ list. IfOk folder (λ f. IsRightOver four_of_each (map string_bytes list.items) (F.files f) (W.contents out) (W.contents result.out) result.status)) }
    // No step misses its tool.
    ensures tools { (verb : Verb) → result.status ≡ Status.NoTool verb → ⊥ }
    // Without words, or without a folder, nothing is written, and the status says why.
    ensures no_words { IfErr words (λ e. SaysWhy (error_kind e ≡ ErrorKind.OutOfMemory) result.status × (W.contents result.out ≡ W.contents out)) }
    ensures no_folder { IfOk words (λ list. OnErr folder ((result.status ≡ Status.Memory) × (W.contents result.out ≡ W.contents out))) }
    // The code is the number of the status, and the error stream, unless it failed, took its text.
    ensures code { exit_status result.code ≡ number_of result.status }
    ensures said { OnOk result.said (Appends (E.contents err) (E.contents result.err) (told_text result.status)) }
{
    let (status, out) = run_words(alloc, words, folder, out);
    let mut err = err;
    let said = tell(&mut err, status);
    Ended {
        status,
        code: exit_code(status),
        said,
        out,
        err,
    }
}

// The session, where there are words and a folder.
fn run_words<F: Folder + Drop, W: Write>(
    alloc: Global,
    words: io::Result<Vec<String>>,
    folder: Result<F, AllocError>,
    out: W,
) -> (Status, W)
    ensures right { IfOk words (λ list. IfOk folder (λ f. IsRightOver four_of_each (map string_bytes list.items) (F.files f) (W.contents out) (W.contents result.1) result.0)) }
    ensures tools { (verb : Verb) → result.0 ≡ Status.NoTool verb → ⊥ }
    ensures no_words { IfErr words (λ e. SaysWhy (error_kind e ≡ ErrorKind.OutOfMemory) result.0 × (W.contents result.1 ≡ W.contents out)) }
    ensures no_folder { IfOk words (λ list. OnErr folder ((result.0 ≡ Status.Memory) × (W.contents result.1 ≡ W.contents out))) }
{
    match words {
        Ok(words) => match folder {
            Ok(folder) => run_over(alloc, &words, folder, out),
            Err(_) => (Status::Memory, out),
        },
        Err(error) => match error.kind() {
            ErrorKind::OutOfMemory => (Status::Memory, out),
            _ => (Status::BadWords, out),
        },
    }
}

/// Runs the session that the words ask for over the files of a folder, and writes its text to a writer, which it gives back.
fn run_over<F: Folder + Drop, W: Write>(
    alloc: Global,
    words: &[String],
    folder: F,
    writer: W,
) -> (Status, W)
    ensures right { IsRightOver four_of_each (map string_bytes words.now) (F.files folder) (W.contents writer) (W.contents result.1) result.0 }
    ensures tools { (verb : Verb) → result.0 ≡ Status.NoTool verb → ⊥ }
{
    let mut shelf = HostShelf::new(folder);
    let mut out = HostSink::new(writer);
    let status = run_with(alloc, words, &mut shelf, &mut out);
    (status, out.into_inner())
}

// Want of memory for the tools is one more way to end.
fn run_with<S: Shelf, K: Sink>(
    alloc: Global,
    words: &[String],
    shelf: &mut S,
    out: &mut K,
) -> Status
    ensures right { IsRight four_of_each (map string_bytes words.now) (outside S.told S.begun S.noted S.faults K.taken K.faults shelf.old out.old) (outside S.told S.begun S.noted S.faults K.taken K.faults shelf.new out.new) result }
    ensures tools { (verb : Verb) → result ≡ Status.NoTool verb → ⊥ }
{
    match run_editor(alloc, words, shelf, out) {
        Ok(status) => status,
        Err(_) => Status::Memory,
    }
}

/// The exit code by which the program tells a status.
fn exit_code(status: Status) -> ExitCode
    ensures { exit_status result ≡ number_of status }
{
    ExitCode::from(status.number())
}

/// Says a status in a line, unless all went well.
///
/// # Errors
/// The stream failed. A part of the line may have been written.
fn tell<E: Write>(to: &mut E, status: Status) -> io::Result<()>
    ensures { OnOk result (Appends (E.contents to.old) (E.contents to.new) (told_text status)) }
{
    match status {
        Status::Done => Ok(()),
        other => to.writeln(format_args!("editor: {other}")),
    }
}
