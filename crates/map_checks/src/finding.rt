//! What a check finds.
ghost use Rattle.std.specs.Prelude.{◌≡◌, ◌<◌, Some, length, slice_get};
ghost use Rattle.map_checks.specs.Findings.{doubled_key};

use osm_base::Key;
use std::marker::Model;

/// Something that a mapper may want to mend.
#[derive(Clone, Copy)]
pub enum Finding {
    /// A living node at the place of a living node of lower rank, with the least such.
    Doubled { key: Key, of: Key },
    /// A living way with two equal references side by side.
    Repeated(Key),
    /// A living way of at least three references whose first and last are two living nodes at one place.
    OpenRing(Key),
}

impl Finding {
    /// The key of a doubled node.
    pub(crate) fn doubled_key(self) -> Option<Key>
        ensures { result ≡ doubled_key self }
    {
        match self {
            Finding::Doubled { key, .. } => Some(key),
            Finding::Repeated(_) | Finding::OpenRing(_) => None,
        }
    }
}

/// All that a check finds, in order.
#[derive(Drop)]
pub struct Findings {
    list: Vec<Finding>,
}

impl Model for Findings {
    ghost use Rattle.std.specs.Prelude.{List};
    ghost use Rattle.map_checks.specs.declared.finding.Finding.{Finding};

    ghost Value = { List Finding };

    ghost view = { λ findings. findings.list.items };
}

impl Findings {
    /// These findings. The vector is kept as it is, so nothing is copied.
    pub fn from_vec(list: Vec<Finding>) -> Findings
        ensures { result ≡ list.items }
    {
        Findings { list }
    }

    /// How many there are.
    pub fn len(&self) -> usize
        ensures { result ≡ length self.now }
    {
        self.list.len()
    }

    /// The finding at a number, from 0.
    pub fn at(&self, i: usize) -> Finding
        requires { i < length self.now }
        ensures { slice_get self.now i ≡ Some result }
    {
        self.list[i]
    }

    /// The findings, in order.
    pub fn as_slice(&self) -> &[Finding]
        ensures { result.now ≡ self.now }
    {
        self.list.as_slice()
    }
}
