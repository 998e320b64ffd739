//! Walks along links, with marks.
//!
//! The set of marked keys keeps the order in which they came, so it is the queue too: those before
//! `done` were asked what they lead to, the others wait. No step looks at anything but the keys that
//! are reached and what they lead to.
ghost use Rattle.std.specs.Prelude.{◌≡◌, true, IfOk, ◌↔◌};
ghost use Rattle.osm_base.specs.Rank.{is_key};
ghost use Rattle.closure.specs.Closure.{has, Chain};

use crate::key_set::KeySet;
use crate::links::Links;
use osm_base::Key;
use std::alloc::{AllocError, Global};

/// The keys at the ends of chains that begin at one of `starts`, the starts among them, each once, in the
/// order in which they were reached. Each is asked once what it leads to.
///
/// # Errors
/// No memory was left.
pub fn reach<L: Links>(alloc: Global, starts: &[Key], links: &L) -> Result<KeySet, AllocError>
    ensures ends { IfOk result (λ marks. (k : Key) → (has is_key marks k ≡ true) ↔ Chain (has is_key starts.now) (λ j. has is_key (L.next links.now j)) k) }
{
    let mut marks = KeySet::new(alloc);
    marks.put_all(starts)?;
    let mut more = Vec::new(alloc);
    let mut done = 0usize;
    while done < marks.len() {
        let key = marks[done];
        more.clear();
        links.append(key, &mut more)?;
        marks.put_all(&more)?;
        done += 1;
    }
    Ok(marks)
}
