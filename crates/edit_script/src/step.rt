//! The steps of a script, and where they may stand.
ghost use Rattle.std.specs.Prelude.{◌≡◌};
ghost use Rattle.edit_script.specs.Order.{may_stand, inside_after};

use map_search::Query;
use osm_base::{Area, Tags, Text};
use tool_api::Job;

/// What a step does.
#[derive(Drop)]
pub enum Act {
    /// Runs a job.
    Job(Job),
    /// Takes the objects of a made city into the table.
    Generate {
        /// How many streets it has: 1 to 100,000.
        streets: u32,
    },
    /// Goes back or on in the history, or groups what comes.
    History(HistoryStep),
    /// Looks at the table, and changes nothing.
    Look(Look),
    /// Reads a file into the table.
    File {
        /// The name of the file.
        name: Text,
        /// What it is read for.
        purpose: Purpose,
    },
    /// Begins a meeting, in which up to four editors work at one server.
    Serve {
        /// The name of the file whose objects the server has.
        name: Text,
    },
    /// Says which editor of the meeting does what stands below.
    Editor {
        /// Its number: 1 to 4.
        n: u32,
    },
    /// Deals with the server of the meeting.
    Meet(MeetStep),
}

/// A step on the history of the steps before.
#[derive(Drop)]
pub enum HistoryStep {
    /// Begins a group, whose steps are undone and redone as one.
    Begin,
    /// Ends the group.
    End,
    /// Takes back what was done last, as often as told: 1 to 1,000,000 times.
    Undo {
        /// How often.
        n: u64,
    },
    /// Does again what was taken back last, as often as told: 1 to 1,000,000 times.
    Redo {
        /// How often.
        n: u64,
    },
}

/// What is looked at: the text of each stands behind its reply.
#[derive(Drop)]
pub enum Look {
    /// The objects of the table.
    Print,
    /// How many objects the table has.
    Count,
    /// The objects in conflict, each with its base, mine and theirs.
    Conflicts,
    /// The whole table, so that a later session can go on from it.
    Save,
    /// The keys of the objects that meet a query: one of at most 1,100 levels.
    Find(Query),
    /// What a check finds: nodes at the place of others, ways that name a node twice side by side, and rings whose
    /// ends are two nodes at one place.
    Check,
    /// How many changes of an upload a server in memory accepts.
    Rehearse,
    /// The changes of an upload, in chunks.
    Upload {
        /// How many changes a chunk has at most: 1 to 10,000.
        size: u32,
    },
}

/// What a file is read for.
#[derive(Drop)]
pub enum Purpose {
    /// Its objects are taken into the table, all or a part of them.
    Download {
        /// The box from which they are taken, in units of 10^-7 degree: its west isn't beyond its east, nor its
        /// south beyond its north.
        area: Option<Area>,
        /// The tags that are wanted of them, at least one.
        wanted: Option<Tags>,
    },
    /// Its new objects are made.
    Import,
    /// It has what the server answered to the changes of an upload.
    Confirm,
    /// It has a table that was saved, which is taken in place of the one that is there.
    Resume,
}

/// What an editor of a meeting does with the server.
#[derive(Drop)]
pub enum MeetStep {
    /// Takes objects that the server has, or had, into the editor's table, all or a part of them.
    Fetch {
        /// How many states of the server back: 0 is what it has, and at most 9,999,999.
        back: u64,
        /// The box from which they are taken, as of a download.
        area: Option<Area>,
        /// The tags that are wanted of them, as of a download.
        wanted: Option<Tags>,
    },
    /// Sends the editor's changes to the server, or the first of them.
    Send {
        /// How many are sent at most: 1 to 10,000.
        count: u32,
    },
    /// Takes in what the server answered to what the editor sent.
    Answer,
    /// Goes on without the server's answer to what the editor sent.
    Lost,
}

/// A line of a script that does something.
#[derive(Drop)]
pub struct Step {
    /// The number of the line, from 1.
    pub line: u64,
    /// What it does.
    pub act: Act,
}

impl Act {
    /// Whether the act may stand there, inside a group or outside.
    pub fn may_stand(&self, is_inside: bool) -> bool
        ensures { result ≡ may_stand is_inside self.now }
    {
        match self {
            Act::History(HistoryStep::End) => is_inside,
            Act::History(_) => !is_inside,
            Act::Look(Look::Rehearse | Look::Upload { .. }) => !is_inside,
            Act::File {
                purpose: Purpose::Confirm | Purpose::Resume,
                ..
            } => !is_inside,
            Act::Editor { .. } => !is_inside,
            Act::Meet(MeetStep::Fetch { .. }) => true,
            Act::Meet(_) => !is_inside,
            _ => true,
        }
    }

    /// Whether the next act stands inside a group.
    pub fn inside_after(&self, is_inside: bool) -> bool
        ensures { result ≡ inside_after is_inside self.now }
    {
        match self {
            Act::History(HistoryStep::Begin) => true,
            Act::History(HistoryStep::End) => false,
            _ => is_inside,
        }
    }
}
