//! What a server answers.
ghost use Rattle.std.specs.Prelude.{◌≡◌};
ghost use Rattle.placeholder.specs.Confirm.{is_answer, is_next};

use osm_base::{Key, same_key};
use upload_order::Change;

/// The greatest id that an object may have.
const GREATEST_ID: i64 = 1_000_000_000_000_000_000;

/// The greatest version that an object may have.
const GREATEST_VERSION: u32 = 2_000_000_000;

/// The answer to one change.
#[derive(Clone, Copy)]
pub enum Answer {
    /// The object of the placeholder was made, and got the id.
    Create { placeholder: Key, id: i64 },
    /// The object has the version now.
    Modify { key: Key, version: u32 },
    /// The object is gone, and its last version is this.
    Delete { key: Key, version: u32 },
}

fn is_next(version: u32, after: u32) -> bool
    ensures { result ≡ is_next version after }
{
    version < GREATEST_VERSION && after == version + 1
}

/// Whether it is an answer that a server may give to the change.
pub fn is_answer(change: &Change, answer: Answer) -> bool
    ensures { result ≡ is_answer change.now answer }
{
    match (change, answer) {
        (Change::Create { key, .. }, Answer::Create { placeholder, id }) => {
            same_key(*key, placeholder) && 0 < id && id <= GREATEST_ID
        }
        (
            Change::Modify { key, version, .. },
            Answer::Modify {
                key: named,
                version: after,
            },
        ) => same_key(*key, named) && is_next(*version, after),
        (
            Change::Delete { key, version },
            Answer::Delete {
                key: named,
                version: after,
            },
        ) => same_key(*key, named) && is_next(*version, after),
        _ => false,
    }
}
