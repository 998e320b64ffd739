//! Commands with their arguments.
ghost use Rattle.std.specs.Prelude.{◌≡◌};
ghost use Rattle.tool_api.specs.Plain.{verb_of};

use crate::new_objects::NewObjects;
use crate::verb::Verb;
use merge_cases::Choice;
use osm_base::{Coord, Key, Keys, Members, Refs, Tags};
use osm_table::{Shared, ToldMap};

/// One command with its arguments. What it does is `plain` in specs/.
#[derive(Drop)]
pub enum Job {
    /// A new node at a place.
    AddNode { tags: Tags, at: Coord },
    /// A new way through nodes that are there.
    AddWay { tags: Tags, refs: Refs },
    /// A new relation of objects that are there.
    AddRelation { tags: Tags, members: Members },
    /// Each pair with a value is set in each of the objects, each key with an empty value removed.
    SetTags { keys: Keys, tags: Tags },
    /// The nodes named and those of the ways named are moved, each once, in units of 10^-7 degree.
    Shift { keys: Keys, dx: i64, dy: i64 },
    /// A node is put at another place.
    Place { key: Key, at: Coord },
    /// A way gets other nodes.
    SetNodes { key: Key, refs: Refs },
    /// A relation gets other members.
    SetMembers { key: Key, members: Members },
    /// Objects are deleted, unless others use them.
    Delete { keys: Keys },
    /// Objects are deleted, ways and relations that use them are mended.
    Erase { keys: Keys },
    /// Objects leave the table, as if they had not been downloaded.
    Purge { keys: Keys },
    /// A way is cut at nodes.
    Split { way: Key, nodes: Keys },
    /// Ways are joined to one.
    Combine { ways: Keys },
    /// A way's nodes are turned round.
    Reverse { way: Key },
    /// What a download tells is taken in. The told map is shared, since a first one becomes the table.
    Merge { told: Shared<ToldMap> },
    /// Objects that no server knows yet, with a file's own ids, are added together.
    Import { objects: NewObjects },
    /// An object in conflict is settled by a choice.
    Resolve { key: Key, choice: Choice },
    /// In ways each reference that equals the one just before it is left out.
    Squeeze { keys: Keys },
    /// Nodes at one place become one, to which ways and relations refer in place of them all.
    Fuse { nodes: Keys },
}

impl Job {
    /// The verb of the tool that runs the job.
    pub fn verb(&self) -> Verb
        ensures { result ≡ verb_of self.now }
    {
        match self {
            Job::AddNode { .. } => Verb::Add,
            Job::AddWay { .. } => Verb::Add,
            Job::AddRelation { .. } => Verb::Add,
            Job::SetTags { .. } => Verb::Tag,
            Job::Shift { .. } => Verb::Move,
            Job::Place { .. } => Verb::Change,
            Job::SetNodes { .. } => Verb::Change,
            Job::SetMembers { .. } => Verb::Change,
            Job::Delete { .. } => Verb::Delete,
            Job::Erase { .. } => Verb::Erase,
            Job::Purge { .. } => Verb::Purge,
            Job::Split { .. } => Verb::Split,
            Job::Combine { .. } => Verb::Combine,
            Job::Reverse { .. } => Verb::Reverse,
            Job::Merge { .. } => Verb::Merge,
            Job::Import { .. } => Verb::Import,
            Job::Resolve { .. } => Verb::Resolve,
            Job::Squeeze { .. } => Verb::Squeeze,
            Job::Fuse { .. } => Verb::Fuse,
        }
    }
}
