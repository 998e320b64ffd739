//! What a download tells of one object.
use osm_base::{Content, Meta};

/// What a download tells of one object.
#[derive(Drop)]
pub enum Told {
    /// Another object of the download refers to it.
    Mentioned,
    /// The server has it in this version.
    Live {
        version: u32,
        content: Content,
        meta: Meta,
    },
    /// The server deleted it in this version.
    Gone {
        version: u32,
        meta: Meta,
    },
}
