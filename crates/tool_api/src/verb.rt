//! The verbs of commands, one for each tool.
ghost use Rattle.std.specs.Prelude.{◌≡◌};
ghost use Rattle.tool_api.specs.Plain.{verb_name};

/// What a tool does. Each job has one verb, and each verb one tool.
#[derive(Clone, Copy, Debug, PartialEq, Eq)]
pub enum Verb {
    Add,
    Tag,
    Move,
    Change,
    Delete,
    Erase,
    Purge,
    Split,
    Combine,
    Reverse,
    Merge,
    Import,
    Resolve,
    Squeeze,
    Fuse,
}

impl Verb {
    /// Its name.
    pub fn name(self) -> &'static str
        ensures { result.now ≡ verb_name self }
    {
        match self {
            Verb::Add => "Add",
            Verb::Tag => "Tag",
            Verb::Move => "Move",
            Verb::Change => "Change",
            Verb::Delete => "Delete",
            Verb::Erase => "Erase",
            Verb::Purge => "Purge",
            Verb::Split => "Split",
            Verb::Combine => "Combine",
            Verb::Reverse => "Reverse",
            Verb::Merge => "Merge",
            Verb::Import => "Import",
            Verb::Resolve => "Resolve",
            Verb::Squeeze => "Squeeze",
            Verb::Fuse => "Fuse",
        }
    }
}
