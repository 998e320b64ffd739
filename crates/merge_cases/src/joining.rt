//! The content that comes of three.
//!
//! Of a tag or a body that only one side changed, that side's stands. What neither changed, or both
//! alike, is one and the same. A `TagRule` says of each key whose tag stands, so that whoever settles
//! a clash by another rule walks the tags by the same `picked_by`.
ghost use Rattle.std.specs.Prelude.{◌≡◌, ◌≤◌, ◌<◌, ◌∷◌, [], T, length, nat_lt, OnOk, IfOk};
ghost use Rattle.std.specs.List.{list_all};
ghost use Rattle.std.specs.Option.{option_copied};
ghost use Rattle.std.specs.FinMap.{is_sorted};
ghost use Rattle.osm_base.specs.Tags.{bytes_cmp};
ghost use Rattle.merge_cases.specs.Join.{joined, picked, picked_by, same_pick, standing_by, with_tags, with_body};
ghost use Rattle.merge_cases.specs.declared.pick.Pick.TheVariants as pick;

use crate::join_tests::clashing;
use crate::pick::{Pick, body_pick, tag_pick};
use osm_base::{Content, Tags, Text};
use std::alloc::{AllocError, Global};

/// Whose tag of each key stands. A tag that is nobody's is left out.
pub trait TagRule {
    ghost use Rattle.std.specs.Prelude.{List, ℕ};
    ghost use Rattle.merge_cases.specs.declared.pick.Pick.{Pick};

    ghost whose: { Self → List ℕ → Pick };

    /// Whose tag with this key stands.
    fn pick(&self, key: &[u8]) -> Pick
        ensures { result ≡ whose self.now key.now };
}

/// A tag that only one side changed is that side's.
#[derive(Drop)]
struct ByChange<'a> {
    base: &'a Tags,
    mine: &'a Tags,
    theirs: &'a Tags,
}

impl<'a> TagRule for ByChange<'a> {
    ghost use Rattle.merge_cases.specs.Join.{tag_pick};

    ghost whose = { λ rule. tag_pick rule.base.now rule.mine.now rule.theirs.now };

    fn pick(&self, key: &[u8]) -> Pick {
        tag_pick(self.base, self.mine, self.theirs, key)
    }
}

/// The content that comes of the base's, mine and theirs: each tag has the value that stands, and the
/// place, the references or the members are taken whole from the side that changed them. None where
/// both sides changed one tag or the body, each in its own way, and where the kinds differ. It walks
/// the tags of mine and theirs, with three look-ups a tag, and shares texts and lists.
///
/// # Errors
/// No memory was left.
pub fn joined(
    alloc: Global,
    base: &Content,
    mine: &Content,
    theirs: &Content,
) -> Result<Option<Content>, AllocError>
    ensures { IfOk result (λ content. content ≡ joined base.now mine.now theirs.now) }
{
    let Some(body) = picked(body_pick(base, mine, theirs), mine, theirs) else {
        return Ok(None);
    };
    let (b, m, t) = (base.tags(), mine.tags(), theirs.tags());
    if clashing(b, m, t, m) || clashing(b, m, t, t) {
        return Ok(None);
    }
    let rule = ByChange {
        base: b,
        mine: m,
        theirs: t,
    };
    let tags = picked_by(alloc, &rule, m, t)?;
    Ok(Some(with_body(tags, body)?))
}

/// The side that stands, if one does.
pub fn picked<'a>(pick: Pick, mine: &'a Content, theirs: &'a Content) -> Option<&'a Content>
    ensures { option_copied result ≡ picked pick mine.now theirs.now }
{
    match pick {
        Pick::Mine => Some(mine),
        Pick::Theirs => Some(theirs),
        Pick::Clash => None,
    }
}

/// The content's place, references or members with other tags. It shares their list.
///
/// # Errors
/// No memory was left.
pub fn with_body(tags: Tags, body: &Content) -> Result<Content, AllocError>
    ensures { IfOk result (λ content. content ≡ with_body tags body.now) }
{
    match body {
        Content::Node { at, .. } => Ok(Content::Node { tags, at: *at }),
        Content::Way { refs, .. } => Ok(Content::Way {
            tags,
            refs: refs.copy()?,
        }),
        Content::Relation { members, .. } => Ok(Content::Relation {
            tags,
            members: members.copy()?,
        }),
    }
}

/// The tags that stand, of mine and of theirs. The rule is asked once a tag, and texts are shared. Before a
/// tag of theirs come those of mine with lesser keys, so each goes to the end: a tag costs a search by
/// halving, and moves no other.
///
/// # Errors
/// No memory was left.
pub fn picked_by<R: TagRule>(
    alloc: Global,
    rule: &R,
    mine: &Tags,
    theirs: &Tags,
) -> Result<Tags, AllocError>
    ensures { IfOk result (λ tags. tags ≡ picked_by (R.whose rule.now) mine.now theirs.now) }
{
    let mut tags = Tags::new(alloc);
    let mut rest = mine.as_slice();
    for tag in theirs.as_slice() {
        rest = put_in_turn(&mut tags, rule, rest, tag)?;
    }
    put_mine(&mut tags, rule, rest)?;
    Ok(tags)
}

/// Puts a tag of theirs if it stands, behind those of mine that stand and have lesser keys, and answers what
/// is left of mine.
fn put_in_turn<'a, R: TagRule>(
    tags: &mut Tags,
    rule: &R,
    rest: &'a [(Text, Text)],
    tag: &(Text, Text),
) -> Result<&'a [(Text, Text)], AllocError>
    requires sorted { T (is_sorted bytes_cmp tags.old) }
    requires named { T (list_all (λ t. nat_lt 0 (length t.0)) rest.now) }
    requires key { 0 < length tag.now.0 }
    ensures sorted { OnOk result (T (is_sorted bytes_cmp tags.new)) }
    ensures named { IfOk result (λ left. T (list_all (λ t. nat_lt 0 (length t.0)) left.now)) }
    ensures tags { IfOk result (λ left. with_tags tags.new (standing_by (R.whose rule.now) pick.Mine left.now)
        ≡ with_tags (with_tags tags.old (standing_by (R.whose rule.now) pick.Mine rest.now)) (standing_by (R.whose rule.now) pick.Theirs (tag.now ∷ []))) }
{
    if !stands(rule, Pick::Theirs, tag) {
        return Ok(rest);
    }
    let (lesser, others) = rest.split_at(lesser_keys(rest, tag.0.as_bytes()));
    put_mine(tags, rule, lesser)?;
    tags.put(tag.0.copy()?, tag.1.copy()?)?;
    Ok(others)
}

/// How many tags come before a key. Where their keys rise these have the lesser ones.
fn lesser_keys(tags: &[(Text, Text)], key: &[u8]) -> usize
    ensures { result ≤ length tags.now }
{
    tags.partition_point(|tag| tag.0.as_bytes().cmp(&key).is_lt())
}

/// Whether a tag of this side stands.
fn stands<R: TagRule>(rule: &R, side: Pick, tag: &(Text, Text)) -> bool
    ensures { result ≡ same_pick (R.whose rule.now tag.now.0) side }
{
    rule.pick(tag.0.as_bytes()) == side
}

/// Puts the tags of mine that stand.
fn put_mine<R: TagRule>(tags: &mut Tags, rule: &R, mine: &[(Text, Text)]) -> Result<(), AllocError>
    requires { T (list_all (λ t. nat_lt 0 (length t.0)) mine.now) }
    ensures { OnOk result (tags.new ≡ with_tags tags.old (standing_by (R.whose rule.now) pick.Mine mine.now)) }
{
    for tag in mine {
        if stands(rule, Pick::Mine, tag) {
            tags.put(tag.0.copy()?, tag.1.copy()?)?;
        }
    }
    Ok(())
}
