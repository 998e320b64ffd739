//! The time of an object's last change, in eight bytes.
ghost use Rattle.std.specs.Prelude.{◌≡◌};

use crate::meta::Stamp;
use std::marker::Model;

/// When an object was changed last, or that nobody knows. Clauses see it as an `Option<Stamp>`, which
/// would take 10 bytes; as it is kept it takes 8, and an object's metadata 24.
#[derive(Drop)]
pub struct Moment {
    kept: Kept,
}

/// A time as it is kept. Its year stands last, since then no byte is lost behind the tag.
#[derive(Drop)]
enum Kept {
    Unknown,
    Known {
        month: u8,
        day: u8,
        hour: u8,
        minute: u8,
        second: u8,
        year: u16,
    },
}

impl Model for Moment {
    ghost use Rattle.std.specs.Prelude.{Option};
    ghost use Rattle.osm_base.specs.declared.meta.Stamp.{Stamp};
    ghost use Rattle.osm_base.specs.Moment.{time_kept};

    ghost Value = { Option Stamp };

    ghost view = { λ m. time_kept m.kept };
}

impl Moment {
    /// A time, or none.
    pub fn new(time: Option<Stamp>) -> Moment
        ensures { result ≡ time }
    {
        let kept = match time {
            None => Kept::Unknown,
            Some(time) => Kept::Known {
                month: time.month,
                day: time.day,
                hour: time.hour,
                minute: time.minute,
                second: time.second,
                year: time.year,
            },
        };
        Moment { kept }
    }

    /// The time, if it is known.
    pub fn stamp(&self) -> Option<Stamp>
        ensures { result ≡ self.now }
    {
        match &self.kept {
            Kept::Unknown => None,
            Kept::Known {
                month,
                day,
                hour,
                minute,
                second,
                year,
            } => Some(Stamp {
                year: *year,
                month: *month,
                day: *day,
                hour: *hour,
                minute: *minute,
                second: *second,
            }),
        }
    }
}
