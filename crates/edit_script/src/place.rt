//! Where a step of a script stands: a meeting script begins with `serve`, and it and the others have lines of their own.
ghost use Rattle.std.specs.Prelude.{◌≡◌};
ghost use Rattle.edit_script.specs.Place.{begins_meeting, belongs, is_meeting, may_stand_at, place_after};

use crate::step::{Act, Purpose, Step};

/// Where a step stands.
#[derive(Clone, Copy)]
pub enum Place {
    /// Before all others.
    Start,
    /// Behind the first of a script that is no meeting script.
    Script {
        /// In a group.
        is_inside: bool,
    },
    /// Behind the first of a meeting script.
    Meeting {
        /// In a group.
        is_inside: bool,
    },
}

impl Place {
    /// Whether the act may stand there.
    pub fn takes(self, act: &Act) -> bool
        ensures { result ≡ may_stand_at self act.now }
    {
        match self {
            Place::Start => act.begins_meeting() || (act.belongs(false) && act.may_stand(false)),
            Place::Script { is_inside } => act.belongs(false) && act.may_stand(is_inside),
            Place::Meeting { is_inside } => act.belongs(true) && act.may_stand(is_inside),
        }
    }

    /// Where the next act stands.
    pub fn after(self, act: &Act) -> Place
        ensures { result ≡ place_after self act.now }
    {
        match self {
            Place::Start => {
                if act.begins_meeting() {
                    Place::Meeting { is_inside: false }
                } else {
                    Place::Script {
                        is_inside: act.inside_after(false),
                    }
                }
            }
            Place::Script { is_inside } => Place::Script {
                is_inside: act.inside_after(is_inside),
            },
            Place::Meeting { is_inside } => Place::Meeting {
                is_inside: act.inside_after(is_inside),
            },
        }
    }
}

impl Act {
    /// Whether a script that begins with it is a meeting script.
    pub fn begins_meeting(&self) -> bool
        ensures { result ≡ begins_meeting self.now }
    {
        match self {
            Act::Serve { .. } => true,
            _ => false,
        }
    }

    /// Whether it is one of those behind the first of a meeting script, or one of any other script.
    pub fn belongs(&self, in_meeting: bool) -> bool
        ensures { result ≡ belongs in_meeting self.now }
    {
        match self {
            Act::Serve { .. } => false,
            Act::File {
                purpose: Purpose::Import,
                ..
            } => true,
            Act::Generate { .. } | Act::File { .. } => !in_meeting,
            Act::Editor { .. } | Act::Meet(_) => in_meeting,
            _ => true,
        }
    }
}

/// Whether the steps are those of a meeting script: the first is `serve`.
pub fn is_meeting(steps: &[Step]) -> bool
    ensures { result ≡ is_meeting steps.now }
{
    match steps {
        [] => false,
        [first, ..] => first.act.begins_meeting(),
    }
}
