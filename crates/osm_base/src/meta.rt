//! What is known of an object's last change.
ghost use Rattle.std.specs.Prelude.{◌≡◌, IfOk, IsTrue, ◌↔◌};
ghost use Rattle.osm_base.specs.Meta.{empty_meta};
ghost use Rattle.osm_base.specs.Same.{same_meta};

use crate::moment::Moment;
use crate::text::Text;
use std::alloc::{AllocError, Global};

/// A time in UTC, to the second.
#[derive(Clone, Copy, PartialEq, Eq)]
pub struct Stamp {
    /// The year, 1 to 9999.
    pub year: u16,

    /// The month, 1 to 12.
    pub month: u8,

    /// The day of the month, from 1.
    pub day: u8,

    /// The hour, 0 to 23.
    pub hour: u8,

    /// The minute, 0 to 59.
    pub minute: u8,

    /// The second, 0 to 59.
    pub second: u8,
}

/// What is known of an object's last change (API 0.6).
#[derive(Drop)]
pub struct Meta {
    /// The changeset that it belongs to, 0 where unknown.
    pub changeset: u32,

    /// When it was made, if that is known.
    pub time: Moment,

    /// The user's number, 0 where unknown.
    pub uid: u32,

    /// The user's name, empty where unknown.
    pub user: Text,
}

impl Meta {
    /// The metadata of an object of which no last change is known.
    ///
    /// # Errors
    /// No memory was left.
    pub fn empty(alloc: Global) -> Result<Meta, AllocError>
        ensures { IfOk result (λ meta. meta ≡ empty_meta) }
    {
        Ok(Meta {
            changeset: 0,
            time: Moment::new(None),
            uid: 0,
            user: Text::new(alloc)?,
        })
    }

    /// Equal metadata. The user's name is shared, so no block is made.
    ///
    /// # Errors
    /// The count of those who share the name is full.
    pub fn copy(&self) -> Result<Meta, AllocError>
        ensures { IfOk result (λ meta. meta ≡ self.now) }
    {
        Ok(Meta {
            changeset: self.changeset,
            time: Moment::new(self.time.stamp()),
            uid: self.uid,
            user: self.user.copy()?,
        })
    }

    /// Whether changeset, time and user are equal.
    pub fn same(&self, other: &Meta) -> bool
        ensures value { result ≡ same_meta self.now other.now }
        ensures decides { IsTrue result ↔ (self.now ≡ other.now) }
    {
        self.changeset == other.changeset
            && self.time.stamp() == other.time.stamp()
            && self.uid == other.uid
            && self.user.same(&other.user)
    }
}
