//! The tools that a script needs.
ghost use Rattle.std.specs.Prelude.{◌≡◌, map};
ghost use Rattle.edit_steps.specs.Needs.{editor_after, needs, lacks, missing_verb};

use crate::boxes::count_boxes;
use edit_script::{Act, MeetStep, Purpose, Step};
use tool_api::{Tool, Verb};

fn needs(act: &Act) -> Option<Verb>
    ensures { result ≡ needs act.now }
{
    match act {
        Act::Job(job) => Some(job.verb()),
        Act::Generate { .. } => Some(Verb::Merge),
        Act::File {
            purpose: Purpose::Download { .. },
            ..
        } => Some(Verb::Merge),
        Act::File {
            purpose: Purpose::Import,
            ..
        } => Some(Verb::Import),
        Act::Meet(MeetStep::Fetch { .. }) => Some(Verb::Merge),
        _ => None,
    }
}

// The number of the editor that makes the step behind an act.
fn editor_after(editor: u32, act: &Act) -> u32
    ensures { result ≡ editor_after editor act.now }
{
    match act {
        Act::Editor { n } => *n,
        _ => editor,
    }
}

// The verb that the act needs, where fewer boxes have it than the number of the editor.
fn lacks(tools: &Vec<Box<dyn Tool>>, editor: u32, act: &Act) -> Option<Verb>
    ensures { result ≡ lacks (map (λ b. kind b) tools.now.items) editor (needs act.now) }
{
    match needs(act) {
        None => None,
        Some(verb) if editor as usize <= count_boxes(tools, verb) => None,
        Some(verb) => Some(verb),
    }
}

/// The verb of the first step that needs a tool of whose verb there are fewer boxes than the number of the step's editor. It
/// looks at the boxes for each step.
pub fn missing_verb(tools: &Vec<Box<dyn Tool>>, steps: &[Step]) -> Option<Verb>
    ensures { result ≡ missing_verb (map (λ b. kind b) tools.now.items) steps.now }
{
    let mut editor = 1;
    for step in steps {
        if let Some(verb) = lacks(tools, editor, &step.act) {
            return Some(verb);
        }
        editor = editor_after(editor, &step.act);
    }
    None
}
