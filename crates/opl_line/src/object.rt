//! What a line is.

use osm_base::{Content, Key, Members, Meta, Refs, Stamp, Tags, Text};

/// An object of the map as a line has it.
#[derive(Drop)]
pub struct OplObject {
    /// Kind and id.
    pub key: Key,
    /// The version that the server gave, 1 to 2,000,000,000; 0 where the id is negative.
    pub version: u32,
    /// What the object has, of its key's kind; `None` for a deleted one.
    pub side: Option<Content>,
    /// Who changed it last, and when.
    pub meta: Meta,
}

/// What a line is, where it has no fault.
#[derive(Drop)]
pub enum LineKind {
    /// Nothing but blanks, a comment, or a changeset.
    Skipped,
    /// An object.
    Object(OplObject),
}

/// The fields of a line that were read so far, `None` where they haven't come yet.
/// Time and coordinates may come without a value: `Some(None)`.
#[derive(Drop)]
pub struct Fields {
    pub version: Option<u32>,
    pub visible: Option<bool>,
    pub changeset: Option<u32>,
    pub time: Option<Option<Stamp>>,
    pub uid: Option<u32>,
    pub user: Option<Text>,
    pub tags: Option<Tags>,
    pub x: Option<Option<i64>>,
    pub y: Option<Option<i64>>,
    pub refs: Option<Refs>,
    pub members: Option<Members>,
}
