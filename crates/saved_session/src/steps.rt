//! What a line makes in its place.

ghost use Rattle.std.specs.Prelude.{◌≡◌, ◌==◌, ◌&&◌, if◌then◌else◌, not, is_some, Some, None, IfOk, codes};
ghost use Rattle.std.specs.Str.{bytes_eq};
ghost use Rattle.osm_base.specs.Meta.{empty_meta};
ghost use Rattle.osm_base.specs.Rank.{is_key};
ghost use Rattle.osm_base.specs.Same.{same_meta};
ghost use Rattle.osm_table.specs.Same.{same_mine};
ghost use Rattle.osm_table.specs.Table.{held_by};
ghost use Rattle.osm_table.specs.declared.entry.Entry.TheVariants as entries;
ghost use Rattle.opl_file.specs.Unread.{Gives};
ghost use Rattle.saved_session.specs.declared.place.Place.TheVariants as places;
ghost use Rattle.saved_session.specs.declared.words.Head.TheVariants as heads;
ghost use Rattle.saved_session.specs.Saved.{mine_version};
ghost use Rattle.saved_session.specs.Reading.{object_written, object_text, object_behind, server_base, base_as, base_at, mine_at, theirs_at, may_stand, is_behind, awaiting, ending, with_mine, with_base, with_words, with_head, step};

use crate::heads::{cut_word, read_head};
use crate::place::{Place, Step};
use crate::words::{BaseWord, Head, MineWord, Words};
use crate::writing::mine_version;
use opl_file::Unread;
use opl_line::{LineKind, Mode, OplObject, Pool, read_line, write_line};
use osm_base::{Content, Key, Meta, rank, same_key};
use osm_table::{Base, Conflict, Entry, Shared, SharedEntry, Why, same_mine};
use std::alloc::{AllocError, Global};

/// What the reader of lines has at hand: its texts, and room for what it writes to compare.
#[derive(Drop)]
pub struct Desk {
    pub pool: Pool,
    pub written: Vec<u8>,
}

impl Desk {
    /// A desk with nothing on it. It takes no memory.
    pub fn new(alloc: Global) -> Desk {
        Desk {
            pool: Pool::new(alloc),
            written: Vec::new(alloc),
        }
    }
}

/// Whether the text is the written form of the object, which is written for that.
fn is_written(written: &mut Vec<u8>, object: &OplObject, text: &[u8]) -> Result<bool, AllocError>
    ensures { IfOk result (λ same. same ≡ bytes_eq (object_written object.now) text.now) }
{
    written.clear();
    write_line(
        object.key,
        object.version,
        object.side.as_ref(),
        &object.meta,
        written,
    )?;
    Ok(written.as_slice() == text)
}

#[tactic(auto, unfolding(crate::specs::Reading::object_text))]
fn read_object(desk: &mut Desk, key: Key, text: &[u8]) -> Result<OplObject, Unread>
    ensures { Gives result (object_text key text.now) }
{
    match read_line(&mut desk.pool, text, Mode::Import)? {
        LineKind::Skipped => Err(Unread::Outside),
        LineKind::Object(object) => as_written(&mut desk.written, key, object, text),
    }
}

// Here and below what isn't handed on is dropped by a call: on a way out, the code of all that it owns would be written out.
fn as_written(
    written: &mut Vec<u8>,
    key: Key,
    object: OplObject,
    text: &[u8],
) -> Result<OplObject, Unread>
    ensures { Gives result (if is_key key object.key && bytes_eq (object_written object) text.now then Some object else None) }
{
    match is_asked(written, key, &object, text) {
        Ok(asked) => {
            if asked {
                Ok(object)
            } else {
                drop(object);
                Err(Unread::Outside)
            }
        }
        Err(_) => {
            drop(object);
            Err(Unread::Memory)
        }
    }
}

/// Whether the text is the written form of the object, and the object has that key.
fn is_asked(
    written: &mut Vec<u8>,
    key: Key,
    object: &OplObject,
    text: &[u8],
) -> Result<bool, AllocError>
    ensures { IfOk result (λ asked. asked ≡ (is_key key object.now.key && bytes_eq (object_written object.now) text.now)) }
{
    if same_key(key, object.key) {
        is_written(written, object, text)
    } else {
        Ok(false)
    }
}

/// The object behind a line's first word.
#[tactic(auto, unfolding(crate::specs::Reading::object_behind))]
fn object_behind(desk: &mut Desk, word: &[u8], key: Key, line: &[u8]) -> Result<OplObject, Unread>
    ensures { Gives result (object_behind word.now key line.now) }
{
    let (first, behind) = cut_word(line);
    let Some(text) = behind else {
        return Err(Unread::Outside);
    };
    if first == word {
        read_object(desk, key, text)
    } else {
        Err(Unread::Outside)
    }
}

fn server_base(version: u32, side: Option<Content>, meta: Meta) -> Base
    ensures { result ≡ server_base version side meta }
{
    match side {
        Some(content) => Base::Live {
            version,
            content,
            meta,
        },
        None => Base::Gone { version, meta },
    }
}

fn base_as(word: BaseWord, version: u32, side: Option<Content>, meta: Meta) -> Option<Base>
    ensures { result ≡ base_as word version side meta }
{
    match (word, side) {
        (BaseWord::Live, Some(content)) => Some(Base::Live {
            version,
            content,
            meta,
        }),
        (BaseWord::Gone, None) => Some(Base::Gone { version, meta }),
        _ => None,
    }
}

#[tactic(auto, unfolding(crate::specs::Reading::base_at))]
fn base_at(desk: &mut Desk, key: Key, word: BaseWord, line: &[u8]) -> Result<Base, Unread>
    ensures { Gives result (base_at key word line.now) }
{
    let object = object_behind(desk, b"base", key, line)?;
    base_as(word, object.version, object.side, object.meta).ok_or(Unread::Outside)
}

/// Whether the object may stand as mine beside that base.
fn is_own(object: &OplObject, key: Key, base: &Base, unknown: &Meta) -> bool
    requires { unknown.now ≡ empty_meta }
    ensures { result ≡ (is_some object.now.side && not (same_mine object.now.side (held_by base.now)) && object.now.version == mine_version key.id && same_meta object.now.meta empty_meta) }
{
    object.side.is_some()
        && !same_mine(object.side.as_ref(), base.content())
        && object.version == mine_version(key.id)
        && object.meta.same(unknown)
}

fn mine_at(desk: &mut Desk, key: Key, base: &Base, line: &[u8]) -> Result<Option<Content>, Unread>
    ensures { Gives result (mine_at key base.now line.now) }
{
    let unknown = Meta::empty(desk.pool.allocator())?;
    mine_beside(desk, key, base, &unknown, line)
}

/// As `mine_at`, with the empty metadata.
#[tactic(auto, unfolding(crate::specs::Reading::mine_at))]
fn mine_beside(
    desk: &mut Desk,
    key: Key,
    base: &Base,
    unknown: &Meta,
    line: &[u8],
) -> Result<Option<Content>, Unread>
    requires { unknown.now ≡ empty_meta }
    ensures { Gives result (mine_at key base.now line.now) }
{
    let object = object_behind(desk, b"mine", key, line)?;
    if is_own(&object, key, base, unknown) {
        Ok(object.side)
    } else {
        drop(object);
        Err(Unread::Outside)
    }
}

#[tactic(auto, unfolding(crate::specs::Reading::theirs_at))]
fn theirs_at(desk: &mut Desk, key: Key, line: &[u8]) -> Result<Base, Unread>
    ensures { Gives result (theirs_at key line.now) }
{
    let object = object_behind(desk, b"theirs", key, line)?;
    Ok(server_base(object.version, object.side, object.meta))
}

fn may_stand(mine: MineWord, base: BaseWord) -> bool
    ensures { result ≡ may_stand mine base }
{
    match (mine, base) {
        (MineWord::Absent, BaseWord::Live) => true,
        (MineWord::Absent, _) => false,
        _ => true,
    }
}

fn is_behind(last: Option<Key>, key: Key) -> bool
    ensures { result ≡ is_behind last key }
{
    match last {
        None => true,
        Some(last) => rank(last, key).is_lt(),
    }
}

fn awaiting(place: Place) -> Step
    ensures { result ≡ awaiting place }
{
    Step { place, entry: None }
}

fn ending(key: Key, entry: SharedEntry) -> Step
    ensures { result ≡ ending key entry }
{
    Step {
        place: Place::Head { last: Some(key) },
        entry: Some((key, entry)),
    }
}

fn with_mine(
    alloc: Global,
    key: Key,
    base: Base,
    mine: Option<Content>,
    why: Option<Why>,
) -> Result<Step, AllocError>
    ensures { IfOk result (λ s. s ≡ with_mine key base mine why) }
{
    match why {
        None => {
            let entry = Entry::Known {
                base,
                mine,
                conflict: None,
            };
            Ok(ending(key, SharedEntry::new(alloc, entry)?))
        }
        Some(why) => Ok(awaiting(Place::Theirs {
            key,
            base,
            mine,
            why,
        })),
    }
}

fn held_copy(base: &Base) -> Result<Option<Content>, AllocError>
    ensures { IfOk result (λ held. held ≡ held_by base.now) }
{
    match base {
        Base::Live { content, .. } => Ok(Some(content.copy()?)),
        _ => Ok(None),
    }
}

/// As `with_mine`, where mine is what the base holds.
fn with_held(alloc: Global, key: Key, base: Base, why: Option<Why>) -> Result<Step, AllocError>
    ensures { IfOk result (λ s. s ≡ with_mine key base (held_by base) why) }
{
    match why {
        None => Ok(ending(key, SharedEntry::unchanged(alloc, base)?)),
        Some(why) => match held_copy(&base) {
            Ok(mine) => Ok(awaiting(Place::Theirs {
                key,
                base,
                mine,
                why,
            })),
            Err(fault) => {
                drop(base);
                Err(fault)
            }
        },
    }
}

fn with_base(
    alloc: Global,
    key: Key,
    base: Base,
    mine: MineWord,
    why: Option<Why>,
) -> Result<Step, AllocError>
    ensures { IfOk result (λ s. s ≡ with_base key base mine why) }
{
    match mine {
        MineWord::Same => with_held(alloc, key, base, why),
        MineWord::Absent => with_mine(alloc, key, base, None, why),
        MineWord::Own => Ok(awaiting(Place::Mine { key, base, why })),
    }
}

fn with_words(alloc: Global, key: Key, words: Words) -> Result<Step, AllocError>
    ensures { IfOk result (λ s. s ≡ with_words key words.base words) }
{
    match words.base {
        BaseWord::New => with_base(alloc, key, Base::New, words.mine, words.why),
        BaseWord::Live | BaseWord::Gone => Ok(awaiting(Place::Base { key, words })),
    }
}

fn with_head(alloc: Global, last: Option<Key>, head: Head) -> Result<Step, Unread>
    ensures { Gives result (with_head last head) }
{
    match head {
        Head::End => Ok(awaiting(Place::Behind)),
        Head::Incomplete(key) => with_incomplete(alloc, last, key),
        Head::Known { key, words } => with_known(alloc, last, key, words),
    }
}

fn with_incomplete(alloc: Global, last: Option<Key>, key: Key) -> Result<Step, Unread>
    ensures { Gives result (with_head last (heads.Incomplete key)) }
{
    if is_behind(last, key) {
        Ok(ending(key, SharedEntry::new(alloc, Entry::Incomplete)?))
    } else {
        Err(Unread::Outside)
    }
}

fn with_known(alloc: Global, last: Option<Key>, key: Key, words: Words) -> Result<Step, Unread>
    ensures { Gives result (with_head last (heads.Known key words)) }
{
    if is_behind(last, key) && may_stand(words.mine, words.base) {
        Ok(with_words(alloc, key, words)?)
    } else {
        Err(Unread::Outside)
    }
}

/// The first line of an entry, or the end.
#[tactic(auto, unfolding(crate::specs::Reading::step))]
fn at_head(desk: &mut Desk, last: Option<Key>, line: &[u8]) -> Result<Step, Unread>
    ensures { Gives result (step (places.Head last) line.now) }
{
    let head = read_head(&mut desk.written, line)?;
    with_head(desk.pool.allocator(), last, head)
}

#[tactic(auto, unfolding(crate::specs::Reading::step))]
fn at_base(desk: &mut Desk, key: Key, words: Words, line: &[u8]) -> Result<Step, Unread>
    ensures { Gives result (step (places.Base key words) line.now) }
{
    let base = base_at(desk, key, words.base, line)?;
    Ok(with_base(desk.pool.allocator(), key, base, words.mine, words.why)?)
}

#[tactic(auto, unfolding(crate::specs::Reading::step))]
fn at_mine(
    desk: &mut Desk,
    key: Key,
    base: Base,
    why: Option<Why>,
    line: &[u8],
) -> Result<Step, Unread>
    ensures { Gives result (step (places.Mine key base why) line.now) }
{
    match mine_at(desk, key, &base, line) {
        Ok(mine) => Ok(with_mine(desk.pool.allocator(), key, base, mine, why)?),
        Err(fault) => {
            drop(base);
            Err(fault)
        }
    }
}

#[tactic(auto, unfolding(crate::specs::Reading::step))]
fn at_theirs(
    desk: &mut Desk,
    key: Key,
    base: Base,
    mine: Option<Content>,
    why: Why,
    line: &[u8],
) -> Result<Step, Unread>
    ensures { Gives result (step (places.Theirs key base mine why) line.now) }
{
    match theirs_at(desk, key, line) {
        Ok(theirs) => {
            let conflict = Conflict { why, theirs };
            Ok(in_conflict(desk.pool.allocator(), key, base, mine, conflict)?)
        }
        Err(fault) => {
            drop(base);
            drop(mine);
            Err(fault)
        }
    }
}

fn in_conflict(
    alloc: Global,
    key: Key,
    base: Base,
    mine: Option<Content>,
    conflict: Conflict,
) -> Result<Step, AllocError>
    ensures { IfOk result (λ s. s ≡ ending key (entries.Known base mine (Some conflict))) }
{
    match Shared::new(alloc, conflict) {
        Ok(conflict) => {
            let entry = Entry::Known {
                base,
                mine,
                conflict: Some(conflict),
            };
            Ok(ending(key, SharedEntry::new(alloc, entry)?))
        }
        Err(fault) => {
            drop(base);
            drop(mine);
            Err(fault)
        }
    }
}

/// What a line makes in its place.
#[tactic(auto, unfolding(crate::specs::Reading::step))]
pub fn step(desk: &mut Desk, here: Place, line: &[u8]) -> Result<Step, Unread>
    ensures { Gives result (step here line.now) }
{
    match here {
        Place::Head { last } => at_head(desk, last, line),
        Place::Base { key, words } => at_base(desk, key, words, line),
        Place::Mine { key, base, why } => at_mine(desk, key, base, why, line),
        Place::Theirs {
            key,
            base,
            mine,
            why,
        } => at_theirs(desk, key, base, mine, why, line),
        Place::Behind => Ok(awaiting(Place::Behind)),
    }
}
