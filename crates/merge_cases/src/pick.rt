//! Whose part of an object stands, of three.
ghost use Rattle.std.specs.Prelude.{◌≡◌, Some};
ghost use Rattle.std.specs.Option.{option_copied};
ghost use Rattle.merge_cases.specs.Join.{stands, same_value, tag_pick, body_pick, same_body, same_kind};

use osm_base::{Content, Tags};

/// Whose part of an object stands.
#[derive(Clone, Copy, PartialEq, Eq)]
pub enum Pick {
    /// Mine: theirs is the same, or only I changed it.
    Mine,
    /// Theirs: only they changed it.
    Theirs,
    /// Nobody's: both changed it.
    Clash,
}

/// Whose value of a tag stands. Costs three look-ups.
pub fn tag_pick(base: &Tags, mine: &Tags, theirs: &Tags, key: &[u8]) -> Pick
    ensures { result ≡ tag_pick base.now mine.now theirs.now key.now }
{
    let base = base.get(key);
    let mine = mine.get(key);
    let theirs = theirs.get(key);
    stands(
        same_value(mine, theirs),
        same_value(mine, base),
        same_value(theirs, base),
    )
}

/// Whose place, references or members stand, each taken whole: nobody's, where the kinds differ. Up
/// to three comparisons of them.
pub fn body_pick(base: &Content, mine: &Content, theirs: &Content) -> Pick
    ensures { result ≡ body_pick base.now mine.now theirs.now }
{
    if !same_kind(base, theirs) || !same_kind(mine, theirs) {
        Pick::Clash
    } else if same_body(mine, theirs) {
        Pick::Mine
    } else if same_body(mine, base) {
        Pick::Theirs
    } else if same_body(theirs, base) {
        Pick::Mine
    } else {
        Pick::Clash
    }
}

fn same_kind(a: &Content, b: &Content) -> bool
    ensures { result ≡ same_kind a.now b.now }
{
    match (a, b) {
        (Content::Node { .. }, Content::Node { .. }) => true,
        (Content::Way { .. }, Content::Way { .. }) => true,
        (Content::Relation { .. }, Content::Relation { .. }) => true,
        _ => false,
    }
}

/// Whether the places, the references or the members are equal.
pub fn same_body(a: &Content, b: &Content) -> bool
    ensures { result ≡ same_body a.now b.now }
{
    match (a, b) {
        (Content::Node { at, .. }, Content::Node { at: there, .. }) => at == there,
        (Content::Way { refs, .. }, Content::Way { refs: theirs, .. }) => refs.same(theirs),
        (
            Content::Relation { members, .. },
            Content::Relation {
                members: theirs,
                ..
            },
        ) => members.same(theirs),
        _ => false,
    }
}

/// Of three parts: whether mine is as theirs, mine as the base's, theirs as the base's.
fn stands(as_theirs: bool, as_base: bool, theirs_as_base: bool) -> Pick
    ensures { result ≡ stands as_theirs as_base theirs_as_base }
{
    if as_theirs {
        Pick::Mine
    } else if as_base {
        Pick::Theirs
    } else if theirs_as_base {
        Pick::Mine
    } else {
        Pick::Clash
    }
}

/// Whether two values of a tag are one, where no such tag is a value too.
pub fn same_value(a: Option<&[u8]>, b: Option<&[u8]>) -> bool
    ensures { result ≡ same_value (option_copied a.entry) (option_copied b.entry) }
{
    match (a, b) {
        (None, None) => true,
        (Some(a), Some(b)) => same_bytes(a, b),
        _ => false,
    }
}

fn same_bytes(a: &[u8], b: &[u8]) -> bool
    ensures { result ≡ same_value (Some a.now) (Some b.now) }
{
    a == b
}
