//! What a step answers.
ghost use Rattle.std.specs.Prelude.{◌≡◌, []};
ghost use Rattle.edit_script.specs.declared.reply.StepReply.TheVariants.{Done};
ghost use Rattle.edit_steps.specs.declared.looks.Behind.TheVariants as behinds;
ghost use Rattle.edit_steps.specs.Turn.{reply_alone};

use crate::looks::Behind;
use edit_script::StepReply;
use osm_base::Keys;
use std::alloc::Global;
use upload_order::WorldRefusal;

/// The reply of a step, and what stands behind it.
#[derive(Drop)]
pub struct Response {
    /// The reply.
    pub reply: StepReply,

    /// What stands behind its line.
    pub behind: Behind,
}

impl Response {
    /// A reply with nothing behind it.
    pub fn alone(reply: StepReply) -> Response
        ensures { result ≡ reply_alone reply }
    {
        Response {
            reply,
            behind: Behind::Nothing,
        }
    }

    /// Done, and nothing was made.
    pub fn done(alloc: Global) -> Response
        ensures { result ≡ reply_alone (Done []) }
    {
        Response::alone(StepReply::Done(Keys::new(alloc)))
    }

    /// Done, with a text behind the reply.
    pub fn look(alloc: Global, behind: Behind) -> Response
        ensures { result ≡ record { reply = Done []; behind = behind } }
    {
        Response {
            reply: StepReply::Done(Keys::new(alloc)),
            behind,
        }
    }

    /// Done, with what a server made of changes behind the reply.
    pub fn sent(alloc: Global, count: u64, refused: Option<WorldRefusal>) -> Response
        ensures { result ≡ record { reply = Done []; behind = behinds.Sent count refused } }
    {
        Response::look(alloc, Behind::Sent(count, refused))
    }
}
