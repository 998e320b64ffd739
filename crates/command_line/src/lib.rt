//! The words with which the editor is called.
//!
//! `editor [--max-objects N] [--max-file N] SCRIPT` is one simple command of `clap`, and `specs/Words.antt` says what it
//! asks for in terms of clap's own definition of such commands: the words are refused exactly where that definition
//! finds a fault in them, and the values are those that it gives. An option that is used twice, a number outside its
//! range, `--help`, a second name and none are such faults; `--` ends the options, and `-` is a name.
#![tactic(auto)]

ghost use Rattle.std.specs.Prelude.{◌≡◌, false, IfOk, map, option_map, string_bytes};
ghost use Rattle.clap.specs.Words.{app_of, found_of, rows_of, rule_of};
ghost use Rattle.command_line.specs.Words.{command_of, editor, limit_rule, line_of, value_of};

use clap::builder::ValueParser;
use clap::error::ErrorKind;
use clap::{Arg, ArgMatches, Command};
use std::alloc::{AllocError, Global};

/// The most objects that a session may ask for, and how many it has if it doesn't.
const MOST_OBJECTS: u64 = 5_000_000;

const DEFAULT_OBJECTS: u64 = 2_000_000;

/// The most bytes of a file that a session may ask for, and how many it has if it doesn't.
const MOST_BYTES: u64 = 1_073_741_824;

const DEFAULT_BYTES: u64 = 268_435_456;

/// What a session is asked for.
#[derive(Clone, Copy)]
pub struct CommandLine<'a> {
    /// The name of the script's file.
    pub script: &'a str,
    /// The most objects that the session may hold, 1 to 5,000,000.
    pub max_objects: u64,
    /// The most bytes of each file that the script names, 1 to 1,073,741,824: of a download, an import, a confirm, a
    /// `resume` or a `serve`.
    pub max_file: u64,
}

/// Reads the words of the command line, of which the first is the program's own name. None where they ask for nothing
/// that the editor does.
///
/// # Errors
///
/// Only for want of memory.
#[tactic(auto, unfolding(crate::specs::Words::command_of))]
pub fn read_words<'a>(
    alloc: Global,
    words: &'a [String],
) -> Result<Option<CommandLine<'a>>, AllocError>
    ensures { IfOk result (λ r. option_map value_of r ≡ command_of (map string_bytes words.now)) }
{
    match command(alloc)?.try_get_matches_from(words) {
        Ok(matches) => Ok(Some(line_of(&matches))),
        Err(error) => match error.kind() {
            ErrorKind::OutOfMemory => Err(AllocError),
            _ => Ok(None),
        },
    }
}

fn command<'a>(alloc: Global) -> Result<Command<'a>, AllocError>
    ensures { IfOk result (λ c. app_of c ≡ editor) }
{
    Command::new(alloc, "editor")
        .disable_help_flag(true)
        .disable_version_flag(true)
        .arg(limit(alloc, "max-objects", MOST_OBJECTS))?
        .arg(limit(alloc, "max-file", MOST_BYTES))?
        .arg(Arg::new(alloc, "script").required(true))
}

// `--NAME N`, where N is a number from 1.
fn limit<'a>(alloc: Global, name: &'a str, most: u64) -> Arg<'a>
    ensures rule { rule_of result ≡ limit_rule name.now most }
    ensures local { result.global ≡ false }
{
    Arg::new(alloc, name)
        .long(name)
        .value_parser(ValueParser::unsigned(1, most))
}

// What clap found.
fn line_of<'a>(matches: &ArgMatches<'a>) -> CommandLine<'a>
    ensures { value_of result ≡ line_of (rows_of (found_of matches.now)) }
{
    CommandLine {
        script: matches.get_str("script").unwrap_or(""),
        max_objects: matches.get_one("max-objects").unwrap_or(DEFAULT_OBJECTS),
        max_file: matches.get_one("max-file").unwrap_or(DEFAULT_BYTES),
    }
}
