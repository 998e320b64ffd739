//! A tool that never finds memory.
use dataset::DataSet;
use std::alloc::AllocError;
use tool_api::{Command, Job, Plan, Undoable, Verb};

/// Tagging that never finds memory.
#[derive(Drop)]
pub struct Poor {}

impl Command for Poor {
    ghost use Rattle.tool_api.specs.declared.verb.Verb.TheVariants.{Tag};

    ghost kind = { Tag };

    fn verb() -> Verb {
        Verb::Tag
    }

    fn plan(_ds: &DataSet, _job: &Job, _limit: u64) -> Result<Plan, AllocError> {
        Err(AllocError)
    }
}

pub type PoorTool = Undoable<Poor>;
