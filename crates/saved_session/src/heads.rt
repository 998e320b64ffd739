//! The first lines of entries, and the line before them all, read.

ghost use Rattle.std.specs.Prelude.{◌≡◌, ◌≤◌, ◌^◌, IfSome};
ghost use Rattle.std.specs.Option.{option_map};
ghost use Rattle.opl_file.specs.Unread.{Gives};
ghost use Rattle.saved_session.specs.Words.{base_text, mine_text, why_text, words_text, known_text, incomplete_text, head_text, head_named, head_of, header_text, header_of, first_word, behind_word, is_header};

use crate::words::{BaseWord, Head, MineWord, Words};
use crate::writing::{write_head, write_header};
use opl_file::Unread;
use opl_line::cut;
use osm_base::{read_digits, read_key};
use osm_table::Why;

/// The greatest number of a next new object: 10^18.
const MOST: u64 = 1_000_000_000_000_000_000;

/// The first word, and what stands behind it.
pub fn cut_word(text: &[u8]) -> (&[u8], Option<&[u8]>)
    ensures word { result.0.now ≡ first_word text.now }
    ensures behind { option_map (λ rest. rest.now) result.1 ≡ behind_word text.now }
{
    cut(text, b' ', b' ')
}

#[tactic(auto, unfolding(crate::specs::Words::base_text))]
fn read_base_word(text: &[u8]) -> Option<BaseWord>
    ensures { result ≡ base_text text.now }
{
    if text == b"new".as_slice() {
        Some(BaseWord::New)
    } else if text == b"live".as_slice() {
        Some(BaseWord::Live)
    } else if text == b"gone".as_slice() {
        Some(BaseWord::Gone)
    } else {
        None
    }
}

#[tactic(auto, unfolding(crate::specs::Words::mine_text))]
fn read_mine_word(text: &[u8]) -> Option<MineWord>
    ensures { result ≡ mine_text text.now }
{
    if text == b"same".as_slice() {
        Some(MineWord::Same)
    } else if text == b"none".as_slice() {
        Some(MineWord::Absent)
    } else if text == b"own".as_slice() {
        Some(MineWord::Own)
    } else {
        None
    }
}

#[tactic(auto, unfolding(crate::specs::Words::why_text))]
fn read_why_word(text: &[u8]) -> Option<Option<Why>>
    ensures { result ≡ why_text text.now }
{
    if text == b"none".as_slice() {
        Some(None)
    } else if text == b"changed".as_slice() {
        Some(Some(Why::Changed))
    } else if text == b"held".as_slice() {
        Some(Some(Why::Held))
    } else if text == b"withdrawn".as_slice() {
        Some(Some(Why::Withdrawn))
    } else {
        None
    }
}

#[tactic(auto, unfolding(crate::specs::Words::words_text))]
fn read_words(text: &[u8]) -> Option<Words>
    ensures { result ≡ words_text text.now }
{
    let (first, behind) = cut_word(text);
    let base = read_base_word(first)?;
    let rest = behind?;
    let (second, last) = cut_word(rest);
    let mine = read_mine_word(second)?;
    let why = read_why_word(last?)?;
    Some(Words { base, mine, why })
}

#[tactic(auto, unfolding(crate::specs::Words::known_text))]
fn read_known(text: &[u8]) -> Option<Head>
    ensures { result ≡ known_text text.now }
{
    let (first, behind) = cut_word(text);
    let key = read_key(first)?;
    let words = read_words(behind?)?;
    Some(Head::Known { key, words })
}

#[tactic(auto, unfolding(crate::specs::Words::incomplete_text))]
fn read_incomplete(text: &[u8]) -> Option<Head>
    ensures { result ≡ incomplete_text text.now }
{
    let key = read_key(text)?;
    Some(Head::Incomplete(key))
}

fn read_named(word: &[u8], line: &[u8], rest: &[u8]) -> Option<Head>
    ensures { result ≡ head_named word.now line.now rest.now }
{
    if word == b"incomplete".as_slice() {
        read_incomplete(rest)
    } else if word == b"known".as_slice() {
        read_known(rest)
    } else if line == b"session end".as_slice() {
        Some(Head::End)
    } else {
        None
    }
}

#[tactic(auto, unfolding(crate::specs::Words::head_text))]
fn read_head_text(line: &[u8]) -> Option<Head>
    ensures { result ≡ head_text line.now }
{
    let (word, behind) = cut_word(line);
    read_named(word, line, behind?)
}

/// The head that the line is the written form of. What it writes to compare goes into `written`.
#[tactic(auto, unfolding(crate::specs::Words::head_of))]
pub fn read_head(written: &mut Vec<u8>, line: &[u8]) -> Result<Head, Unread>
    ensures { Gives result (head_of line.now) }
{
    let Some(head) = read_head_text(line) else {
        return Err(Unread::Outside);
    };
    written.clear();
    write_head(head, written)?;
    if written.as_slice() == line {
        Ok(head)
    } else {
        Err(Unread::Outside)
    }
}

#[tactic(auto, unfolding(crate::specs::Words::header_text))]
fn read_header_text(line: &[u8]) -> Option<u64>
    ensures { result ≡ header_text line.now }
{
    let (_, behind) = cut_word(line);
    let (_, last) = cut_word(behind?);
    let next = read_digits(last?, 19)?;
    if 1 <= next && next <= MOST {
        Some(next)
    } else {
        None
    }
}

/// The number of the header that the line is the written form of. What it writes to compare goes into `written`.
#[tactic(auto, unfolding(crate::specs::Words::header_of))]
pub fn read_header(written: &mut Vec<u8>, line: &[u8]) -> Result<u64, Unread>
    ensures { Gives result (header_of line.now) }
{
    let Some(next) = read_header_text(line) else {
        return Err(Unread::Outside);
    };
    written.clear();
    write_header(next, written)?;
    if written.as_slice() == line {
        Ok(next)
    } else {
        Err(Unread::Outside)
    }
}

/// Whether the line begins with `session `.
pub fn is_header(line: &[u8]) -> bool
    ensures { result ≡ is_header line.now }
{
    let (word, behind) = cut_word(line);
    behind.is_some() && word == b"session".as_slice()
}
