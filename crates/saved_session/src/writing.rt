//! The text of a table.
ghost use Rattle.std.specs.Prelude.{◌≡◌, ◌++◌, ◌∷◌, [], OnOk, OnErr};
ghost use Rattle.std.specs.List.{flat_map};
ghost use Rattle.std.specs.Option.{option_copied};
ghost use Rattle.osm_base.specs.Extends.{Extends};
ghost use Rattle.osm_base.specs.Meta.{empty_meta};
ghost use Rattle.osm_table.specs.Table.{held_by, keys_by_rank};
ghost use Rattle.osm_table.specs.declared.entry.Entry.TheVariants as entries;
ghost use Rattle.saved_session.specs.Words.{base_word, mine_word, why_word, words_of, base_written, mine_written, why_written, words_written, head_written, header_written};
ghost use Rattle.saved_session.specs.declared.words.Head.TheVariants.{Incomplete, Known};
ghost use Rattle.saved_session.specs.Saved.{base_lines, ended, entry_written, mine_lines, mine_version, saved, saved_end, saved_entry, saved_head, server_written, theirs_lines};
ghost use Rattle.saved_session.specs.Pieces.{known_written, sides_written};

use crate::words::{BaseWord, Head, MineWord, Words};
use dataset::DataSet;
use opl_line::write_line;
use osm_base::{Content, Key, Meta, write_digits, write_key};
use osm_table::{Base, Conflict, EntryParts, SharedEntry, Why, same_mine};
use std::alloc::AllocError;

/// The word for a base.
fn base_word(base: &Base) -> BaseWord
    ensures { result ≡ base_word base.now }
{
    match base {
        Base::New => BaseWord::New,
        Base::Live { .. } => BaseWord::Live,
        Base::Gone { .. } => BaseWord::Gone,
    }
}

/// The word for mine.
fn mine_word(base: &Base, mine: Option<&Content>) -> MineWord
    ensures { result ≡ mine_word base.now (option_copied mine.entry) }
{
    if same_mine(mine, base.content()) {
        MineWord::Same
    } else if mine.is_some() {
        MineWord::Own
    } else {
        MineWord::Absent
    }
}

fn why_word(conflict: Option<&Conflict>) -> Option<Why>
    ensures { result ≡ why_word (option_copied conflict.entry) }
{
    match conflict {
        None => None,
        Some(conflict) => Some(conflict.why),
    }
}

/// The words of a known entry.
fn words_of(base: &Base, mine: Option<&Content>, conflict: Option<&Conflict>) -> Words
    ensures { result ≡ words_of base.now (option_copied mine.entry) (option_copied conflict.entry) }
{
    Words {
        base: base_word(base),
        mine: mine_word(base, mine),
        why: why_word(conflict),
    }
}

fn base_text(word: BaseWord) -> &'static [u8]
    ensures { result.now ≡ base_written word }
{
    match word {
        BaseWord::New => b"new",
        BaseWord::Live => b"live",
        BaseWord::Gone => b"gone",
    }
}

fn mine_text(word: MineWord) -> &'static [u8]
    ensures { result.now ≡ mine_written word }
{
    match word {
        MineWord::Same => b"same",
        MineWord::Absent => b"none",
        MineWord::Own => b"own",
    }
}

fn why_text(why: Option<Why>) -> &'static [u8]
    ensures { result.now ≡ why_written why }
{
    match why {
        None => b"none",
        Some(Why::Changed) => b"changed",
        Some(Why::Held) => b"held",
        Some(Why::Withdrawn) => b"withdrawn",
    }
}

#[tactic(auto, using(osm_base::proofs::ExtendLaws::extends_steps))]
fn write_words(words: Words, out: &mut Vec<u8>) -> Result<(), AllocError>
    ensures written { OnOk result (out.new.items ≡ out.old.items ++ words_written words) }
    ensures kept { OnErr result (Extends out.old.items out.new.items) }
{
    out.extend_from_slice(base_text(words.base))?;
    out.push(b' ')?;
    out.extend_from_slice(mine_text(words.mine))?;
    out.push(b' ')?;
    out.extend_from_slice(why_text(words.why))?;
    Ok(())
}

#[tactic(auto, using(osm_base::proofs::ExtendLaws::extends_steps))]
fn write_incomplete(key: Key, out: &mut Vec<u8>) -> Result<(), AllocError>
    ensures written { OnOk result (out.new.items ≡ out.old.items ++ head_written (Incomplete key)) }
    ensures kept { OnErr result (Extends out.old.items out.new.items) }
{
    out.extend_from_slice(b"incomplete ")?;
    write_key(key, out)?;
    Ok(())
}

#[tactic(auto, using(osm_base::proofs::ExtendLaws::extends_steps))]
fn write_known(key: Key, words: Words, out: &mut Vec<u8>) -> Result<(), AllocError>
    ensures written { OnOk result (out.new.items ≡ out.old.items ++ head_written (Known key words)) }
    ensures kept { OnErr result (Extends out.old.items out.new.items) }
{
    out.extend_from_slice(b"known ")?;
    write_key(key, out)?;
    out.push(b' ')?;
    write_words(words, out)?;
    Ok(())
}

/// Appends a head, without LF.
#[tactic(auto, using(osm_base::proofs::ExtendLaws::extends_steps))]
pub fn write_head(head: Head, out: &mut Vec<u8>) -> Result<(), AllocError>
    ensures written { OnOk result (out.new.items ≡ out.old.items ++ head_written head) }
    ensures kept { OnErr result (Extends out.old.items out.new.items) }
{
    match head {
        Head::Incomplete(key) => write_incomplete(key, out),
        Head::Known { key, words } => write_known(key, words, out),
        Head::End => {
            out.extend_from_slice(b"session end")?;
            Ok(())
        }
    }
}

#[tactic(auto, using(osm_base::proofs::ExtendLaws::extends_steps))]
fn write_head_line(head: Head, out: &mut Vec<u8>) -> Result<(), AllocError>
    ensures written { OnOk result (out.new.items ≡ out.old.items ++ (head_written head ++ 10 ∷ [])) }
    ensures kept { OnErr result (Extends out.old.items out.new.items) }
{
    write_head(head, out)?;
    out.push(b'\n')?;
    Ok(())
}

/// Appends the first line, without LF.
#[tactic(auto, using(osm_base::proofs::ExtendLaws::extends_steps))]
pub fn write_header(next: u64, out: &mut Vec<u8>) -> Result<(), AllocError>
    ensures written { OnOk result (out.new.items ≡ out.old.items ++ header_written next) }
    ensures kept { OnErr result (Extends out.old.items out.new.items) }
{
    out.extend_from_slice(b"session 1 ")?;
    write_digits(next, out)?;
    Ok(())
}

/// The version that stands for mine.
pub fn mine_version(id: i64) -> u32
    ensures { result ≡ mine_version id }
{
    if id < 0 { 0 } else { 1 }
}

/// Appends what a server has, without LF.
#[tactic(auto, using(osm_base::proofs::ExtendLaws::extends_steps))]
fn write_server(key: Key, base: &Base, unknown: &Meta, out: &mut Vec<u8>) -> Result<(), AllocError>
    requires { unknown.now ≡ empty_meta }
    ensures written { OnOk result (out.new.items ≡ out.old.items ++ server_written key base.now) }
    ensures kept { OnErr result (Extends out.old.items out.new.items) }
{
    let meta = base.meta(unknown);
    write_line(key, base.version(), base.content(), meta, out)
}

#[tactic(auto, using(osm_base::proofs::ExtendLaws::extends_steps))]
fn write_base(key: Key, base: &Base, unknown: &Meta, out: &mut Vec<u8>) -> Result<(), AllocError>
    requires { unknown.now ≡ empty_meta }
    ensures written { OnOk result (out.new.items ≡ out.old.items ++ ended (base_lines key base.now)) }
    ensures kept { OnErr result (Extends out.old.items out.new.items) }
{
    if let Base::New = base {
        return Ok(());
    }
    out.extend_from_slice(b"base ")?;
    write_server(key, base, unknown, out)?;
    out.push(b'\n')?;
    Ok(())
}

#[tactic(auto, using(osm_base::proofs::ExtendLaws::extends_steps))]
fn write_mine(
    key: Key,
    word: MineWord,
    mine: Option<&Content>,
    unknown: &Meta,
    out: &mut Vec<u8>,
) -> Result<(), AllocError>
    requires { unknown.now ≡ empty_meta }
    ensures written { OnOk result (out.new.items ≡ out.old.items ++ ended (mine_lines key word (option_copied mine.entry))) }
    ensures kept { OnErr result (Extends out.old.items out.new.items) }
{
    match word {
        MineWord::Same | MineWord::Absent => Ok(()),
        MineWord::Own => {
            out.extend_from_slice(b"mine ")?;
            write_line(key, mine_version(key.id), mine, unknown, out)?;
            out.push(b'\n')?;
            Ok(())
        }
    }
}

#[tactic(auto, using(osm_base::proofs::ExtendLaws::extends_steps))]
fn write_theirs(
    key: Key,
    conflict: Option<&Conflict>,
    unknown: &Meta,
    out: &mut Vec<u8>,
) -> Result<(), AllocError>
    requires { unknown.now ≡ empty_meta }
    ensures written { OnOk result (out.new.items ≡ out.old.items ++ ended (theirs_lines key (option_copied conflict.entry))) }
    ensures kept { OnErr result (Extends out.old.items out.new.items) }
{
    match conflict {
        None => Ok(()),
        Some(conflict) => {
            out.extend_from_slice(b"theirs ")?;
            write_server(key, &conflict.theirs, unknown, out)?;
            out.push(b'\n')?;
            Ok(())
        }
    }
}

#[tactic(auto, using(osm_base::proofs::ExtendLaws::extends_steps))]
fn write_sides(
    key: Key,
    base: &Base,
    mine: Option<&Content>,
    conflict: Option<&Conflict>,
    unknown: &Meta,
    out: &mut Vec<u8>,
) -> Result<(), AllocError>
    requires { unknown.now ≡ empty_meta }
    ensures written { OnOk result (out.new.items ≡ out.old.items ++ sides_written key base.now (option_copied mine.entry) (option_copied conflict.entry)) }
    ensures kept { OnErr result (Extends out.old.items out.new.items) }
{
    write_base(key, base, unknown, out)?;
    write_mine(key, mine_word(base, mine), mine, unknown, out)?;
    write_theirs(key, conflict, unknown, out)?;
    Ok(())
}

#[tactic(auto, using(osm_base::proofs::ExtendLaws::extends_steps, crate::proofs::Pieces::known_parts))]
fn write_known_entry(
    key: Key,
    base: &Base,
    mine: Option<&Content>,
    conflict: Option<&Conflict>,
    unknown: &Meta,
    out: &mut Vec<u8>,
) -> Result<(), AllocError>
    requires { unknown.now ≡ empty_meta }
    ensures written { OnOk result (out.new.items ≡ out.old.items ++ known_written key base.now (option_copied mine.entry) (option_copied conflict.entry)) }
    ensures kept { OnErr result (Extends out.old.items out.new.items) }
{
    let words = words_of(base, mine, conflict);
    write_head_line(Head::Known { key, words }, out)?;
    write_sides(key, base, mine, conflict, unknown, out)?;
    Ok(())
}

#[tactic(auto, using(osm_base::proofs::ExtendLaws::extends_steps))]
fn write_incomplete_entry(key: Key, out: &mut Vec<u8>) -> Result<(), AllocError>
    ensures written { OnOk result (out.new.items ≡ out.old.items ++ entry_written key entries.Incomplete) }
    ensures kept { OnErr result (Extends out.old.items out.new.items) }
{
    write_head_line(Head::Incomplete(key), out)?;
    Ok(())
}

#[tactic(auto, using(osm_base::proofs::ExtendLaws::extends_steps))]
fn write_entry(
    key: Key,
    entry: &SharedEntry,
    unknown: &Meta,
    out: &mut Vec<u8>,
) -> Result<(), AllocError>
    requires { unknown.now ≡ empty_meta }
    ensures written { OnOk result (out.new.items ≡ out.old.items ++ entry_written key entry.now) }
    ensures kept { OnErr result (Extends out.old.items out.new.items) }
{
    match entry.parts() {
        EntryParts::Incomplete => write_incomplete_entry(key, out),
        EntryParts::Known {
            base,
            mine,
            conflict,
        } => write_known_entry(key, base, mine, conflict, unknown, out),
    }
}

/// Appends the first line of the text of a table.
///
/// # Errors
/// No memory was left; what stood in `out` stays at its front.
#[tactic(auto, using(osm_base::proofs::ExtendLaws::extends_steps), unfolding(crate::specs::Saved::saved_head))]
pub fn write_saved_head(ds: &DataSet, out: &mut Vec<u8>) -> Result<(), AllocError>
    ensures written { OnOk result (out.new.items ≡ out.old.items ++ saved_head ds.now.next) }
    ensures kept { OnErr result (Extends out.old.items out.new.items) }
{
    write_header(ds.next(), out)?;
    out.push(b'\n')?;
    Ok(())
}

/// Appends the lines of the object with that key, and nothing where it isn't in the table; `unknown` is the empty metadata.
/// One look-up.
///
/// # Errors
/// No memory was left; what stood in `out` stays at its front.
#[tactic(auto, using(osm_base::proofs::ExtendLaws::extends_steps), unfolding(crate::specs::Saved::saved_entry))]
pub fn write_saved_entry(
    ds: &DataSet,
    key: Key,
    unknown: &Meta,
    out: &mut Vec<u8>,
) -> Result<(), AllocError>
    requires { unknown.now ≡ empty_meta }
    ensures written { OnOk result (out.new.items ≡ out.old.items ++ saved_entry ds.now key) }
    ensures kept { OnErr result (Extends out.old.items out.new.items) }
{
    match ds.entry(key) {
        Some(entry) => write_entry(key, entry, unknown, out),
        None => Ok(()),
    }
}

/// Appends the last line of the text of a table.
///
/// # Errors
/// No memory was left; what stood in `out` stays at its front.
#[tactic(auto, using(osm_base::proofs::ExtendLaws::extends_steps), unfolding(crate::specs::Saved::saved_end))]
pub fn write_saved_end(out: &mut Vec<u8>) -> Result<(), AllocError>
    ensures written { OnOk result (out.new.items ≡ out.old.items ++ saved_end) }
    ensures kept { OnErr result (Extends out.old.items out.new.items) }
{
    write_head_line(Head::End, out)
}

#[tactic(auto, using(osm_base::proofs::ExtendLaws::extends_steps))]
fn write_entries(
    ds: &DataSet,
    keys: &[Key],
    unknown: &Meta,
    out: &mut Vec<u8>,
) -> Result<(), AllocError>
    requires { unknown.now ≡ empty_meta }
    ensures written { OnOk result (out.new.items ≡ out.old.items ++ flat_map (saved_entry ds.now) keys.now) }
    ensures kept { OnErr result (Extends out.old.items out.new.items) }
{
    for key in keys {
        write_saved_entry(ds, *key, unknown, out)?;
    }
    Ok(())
}

/// Appends the text of the table, from which `read_saved` gives the table again. Sorts the keys once, and costs the text.
///
/// # Errors
/// No memory was left; what stood in `out` stays at its front.
#[tactic(auto, using(osm_base::proofs::ExtendLaws::extends_steps))]
pub fn write_saved(ds: &DataSet, out: &mut Vec<u8>) -> Result<(), AllocError>
    ensures written { OnOk result (out.new.items ≡ out.old.items ++ saved ds.now) }
    ensures kept { OnErr result (Extends out.old.items out.new.items) }
{
    let unknown = Meta::empty(*out.allocator())?;
    let keys = ds.ordered()?;
    write_keyed(ds, keys.as_slice(), &unknown, out)
}

/// Appends the text of the table, of which these are the keys.
#[tactic(auto, using(osm_base::proofs::ExtendLaws::extends_steps), unfolding(crate::specs::Saved::saved))]
fn write_keyed(
    ds: &DataSet,
    keys: &[Key],
    unknown: &Meta,
    out: &mut Vec<u8>,
) -> Result<(), AllocError>
    requires keys { keys.now ≡ keys_by_rank ds.now }
    requires unknown { unknown.now ≡ empty_meta }
    ensures written { OnOk result (out.new.items ≡ out.old.items ++ saved ds.now) }
    ensures kept { OnErr result (Extends out.old.items out.new.items) }
{
    write_saved_head(ds, out)?;
    write_entries(ds, keys, unknown, out)?;
    write_saved_end(out)
}
