//! A session to run.

use std::fmt;

/// A file of the shelf.
#[derive(Drop)]
pub struct CaseFile {
    /// Its name.
    pub name: Vec<u8>,

    /// Its bytes.
    pub bytes: Vec<u8>,
}

/// The tools that a session is run with.
#[derive(Clone, Copy)]
pub enum Tools {
    /// One for each verb.
    All,
    /// None.
    None,
    /// Those for adding and tagging, and before them one for tagging that never finds memory.
    Poor,
}

/// The call that fails in a run, counted from 1.
#[derive(Clone, Copy)]
pub enum Failing {
    /// None.
    Nothing,
    /// A call of the shelf.
    Shelf(u64),
    /// A call of the sink.
    Sink(u64),
}

impl Failing {
    /// The call of the shelf that fails, 0 for none.
    pub fn of_shelf(self) -> u64 {
        match self {
            Failing::Shelf(call) => call,
            _ => 0,
        }
    }

    /// The call of the sink that fails, 0 for none.
    pub fn of_sink(self) -> u64 {
        match self {
            Failing::Sink(call) => call,
            _ => 0,
        }
    }
}

impl fmt::Display for Failing {
    fn fmt<W: fmt::Write>(&self, f: &mut fmt::Formatter<W>) -> fmt::Result {
        match self {
            Failing::Nothing => Ok(()),
            Failing::Shelf(call) => write!(f, ", call {call} of the shelf fails"),
            Failing::Sink(call) => write!(f, ", call {call} of the sink fails"),
        }
    }
}

/// A run of a session, and what it has to come to.
#[derive(Drop)]
pub struct Run {
    /// The call that fails.
    pub failing: Failing,

    /// The words of its status.
    pub status: String,

    /// What it writes.
    pub text: Vec<u8>,
}

/// A session to run.
#[derive(Drop)]
pub struct Case {
    /// What it is about.
    pub name: String,

    /// The words that it is run with; none for the usual ones.
    pub words: Vec<String>,

    /// The tools that it is run with.
    pub tools: Tools,

    /// The files of its shelf.
    pub files: Vec<CaseFile>,

    /// The runs of it, each with what it has to come to.
    pub runs: Vec<Run>,
}
