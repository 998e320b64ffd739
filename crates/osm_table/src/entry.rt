//! What is known of one object.
ghost use Rattle.std.specs.Prelude.{◌≡◌, IfOk, IsTrue, ◌↔◌};
ghost use Rattle.std.specs.Option.{option_copied};
ghost use Rattle.osm_table.specs.Same.{same_base, same_conflict};
ghost use Rattle.osm_base.specs.Meta.{empty_meta};
ghost use Rattle.osm_table.specs.Table.{is_new, held_by, meta_of, version_of};

use crate::shared::Shared;
use osm_base::{Content, Meta, same};
use std::alloc::AllocError;

/// The state of an object at a server.
#[derive(Drop)]
pub enum Base {
    /// No server knows it.
    New,
    /// The server has it in this version.
    Live {
        version: u32,
        content: Content,
        meta: Meta,
    },
    /// The server deleted it in this version.
    Gone {
        version: u32,
        meta: Meta,
    },
}

/// Why an object is in conflict.
#[derive(Clone, Copy, PartialEq, Eq)]
pub enum Why {
    /// The server has a newer state, and mine is changed too.
    Changed,
    /// The server deleted it, and living objects here refer to it.
    Held,
    /// It was deleted here, and came back since an object of a download refers to it.
    Withdrawn,
}

/// A state of the server that mine was not merged with.
#[derive(Drop)]
pub struct Conflict {
    pub why: Why,
    pub theirs: Base,
}

/// What is known of an object. Tables keep it as a `SharedEntry`.
#[derive(Drop)]
pub enum Entry {
    /// It is at the server, since another object refers to it. No more is known.
    Incomplete,
    /// The state that the edits began from, the content that the user has now (none where it is
    /// deleted), and the conflict that isn't resolved yet, in a block of its own since few have one.
    Known {
        base: Base,
        mine: Option<Content>,
        conflict: Option<Shared<Conflict>>,
    },
}

impl Base {
    /// The content that it holds: none where it is `New` or `Gone`.
    pub fn content(&self) -> Option<&Content>
        ensures { option_copied result ≡ held_by self.now }
    {
        match self {
            Base::Live { content, .. } => Some(content),
            _ => None,
        }
    }

    /// Its version at the server, 0 where it is `New`.
    pub fn version(&self) -> u32
        ensures { result ≡ version_of self.now }
    {
        match self {
            Base::New => 0,
            Base::Live { version, .. } => *version,
            Base::Gone { version, .. } => *version,
        }
    }

    /// Its metadata, and `unknown`, the empty ones, where no server has the object.
    pub fn meta<'a>(&'a self, unknown: &'a Meta) -> &'a Meta
        requires { unknown.now ≡ empty_meta }
        ensures { result.now ≡ meta_of self.now }
    {
        match self {
            Base::New => unknown,
            Base::Live { meta, .. } | Base::Gone { meta, .. } => meta,
        }
    }

    pub(crate) fn is_new(&self) -> bool
        ensures { result ≡ is_new self.now }
    {
        match self {
            Base::New => true,
            _ => false,
        }
    }

    /// An equal base. Texts and lists are shared, so it costs a step for each tag.
    pub fn copy(&self) -> Result<Base, AllocError>
        ensures { IfOk result (λ base. base ≡ self.now) }
    {
        match self {
            Base::New => Ok(Base::New),
            Base::Live {
                version,
                content,
                meta,
            } => Ok(Base::Live {
                version: *version,
                meta: meta.copy()?,
                content: content.copy()?,
            }),
            Base::Gone { version, meta } => Ok(Base::Gone {
                version: *version,
                meta: meta.copy()?,
            }),
        }
    }

    /// Equality.
    pub fn same(&self, other: &Base) -> bool
        ensures value { result ≡ same_base self.now other.now }
        ensures decides { IsTrue result ↔ (self.now ≡ other.now) }
    {
        match (self, other) {
            (Base::New, Base::New) => true,
            (
                Base::Live {
                    version,
                    content,
                    meta,
                },
                Base::Live {
                    version: other_version,
                    content: other_content,
                    meta: other_meta,
                },
            ) => {
                version == other_version && same(content, other_content) && meta.same(other_meta)
            }
            (
                Base::Gone { version, meta },
                Base::Gone {
                    version: other_version,
                    meta: other_meta,
                },
            ) => version == other_version && meta.same(other_meta),
            _ => false,
        }
    }
}

impl Conflict {
    /// Equality.
    pub fn same(&self, other: &Conflict) -> bool
        ensures value { result ≡ same_conflict self.now other.now }
        ensures decides { IsTrue result ↔ (self.now ≡ other.now) }
    {
        self.why == other.why && self.theirs.same(&other.theirs)
    }
}
