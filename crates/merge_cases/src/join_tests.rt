//! Whether one content comes of three.
//!
//! The test makes no content: it asks of each tag whose value stands, and of that value alone whether
//! it fits and whether theirs has it.
ghost use Rattle.std.specs.Prelude.{◌≡◌, T};
ghost use Rattle.osm_base.specs.Content.{tag_fits, tags_of};
ghost use Rattle.osm_base.specs.Tags.{are_tags};
ghost use Rattle.merge_cases.specs.Join.{joins};
ghost use Rattle.merge_cases.specs.JoinTests.{clashing, fitting, as_theirs, join_test, picked_fits, body_as_theirs};

use crate::pick::{Pick, body_pick, same_body, same_value, tag_pick};
use osm_base::{Content, Tags, Text, body_fits, text_fits};

/// Whether one content comes of the base's, mine and theirs, and the API takes it or has it already.
/// It walks the tags of mine and theirs, three times each at most, with three look-ups a tag, and takes
/// no memory.
#[tactic(auto, using(crate::proofs::JoinIs::join_is))]
pub fn joins(base: &Content, mine: &Content, theirs: &Content) -> bool
    ensures { result ≡ joins base.now mine.now theirs.now }
{
    join_test(base, mine, theirs)
}

fn join_test(base: &Content, mine: &Content, theirs: &Content) -> bool
    ensures value { result ≡ join_test base.now mine.now theirs.now }
    ensures mine { T (are_tags (tags_of mine.now)) }
    ensures theirs { T (are_tags (tags_of theirs.now)) }
{
    let body = body_pick(base, mine, theirs);
    let (b, m, t) = (base.tags(), mine.tags(), theirs.tags());
    let _mine = m.len();
    let _theirs = t.len();
    if body == Pick::Clash || clashing(b, m, t, m) || clashing(b, m, t, t) {
        return false;
    }
    picked_fits(body, mine, theirs)
        && fitting(b, m, t, Pick::Mine, m)
        && fitting(b, m, t, Pick::Theirs, t)
        || body_as_theirs(body, mine, theirs) && as_theirs(b, m, t, m) && as_theirs(b, m, t, t)
}

/// Whether values of a tag of this side clash.
pub fn clashing(base: &Tags, mine: &Tags, theirs: &Tags, of: &Tags) -> bool
    ensures { result ≡ clashing base.now mine.now theirs.now of.now }
{
    of.as_slice().iter().any(|tag| tag_pick(base, mine, theirs, tag.0.as_bytes()) == Pick::Clash)
}

/// Whether the tags of this side that stand fit.
fn fitting(base: &Tags, mine: &Tags, theirs: &Tags, side: Pick, of: &Tags) -> bool
    ensures { result ≡ fitting base.now mine.now theirs.now side of.now }
{
    of.as_slice().iter().all(|tag| {
        tag_pick(base, mine, theirs, tag.0.as_bytes()) != side || tag_fits(tag)
    })
}

fn tag_fits(tag: &(Text, Text)) -> bool
    ensures { result ≡ tag_fits tag.now }
{
    text_fits(&tag.0) && text_fits(&tag.1)
}

/// Whether of each tag of this side theirs has the value that stands.
fn as_theirs(base: &Tags, mine: &Tags, theirs: &Tags, of: &Tags) -> bool
    ensures { result ≡ as_theirs base.now mine.now theirs.now of.now }
{
    of.as_slice().iter().all(|tag| {
        let key = tag.0.as_bytes();
        tag_pick(base, mine, theirs, key) == Pick::Theirs
            || same_value(mine.get(key), theirs.get(key))
    })
}

fn picked_fits(body: Pick, mine: &Content, theirs: &Content) -> bool
    ensures { result ≡ picked_fits body mine.now theirs.now }
{
    match body {
        Pick::Mine => body_fits(mine),
        Pick::Theirs => body_fits(theirs),
        Pick::Clash => false,
    }
}

/// Whether theirs has the body that stands.
fn body_as_theirs(body: Pick, mine: &Content, theirs: &Content) -> bool
    ensures { result ≡ body_as_theirs body mine.now theirs.now }
{
    body == Pick::Theirs || same_body(mine, theirs)
}
