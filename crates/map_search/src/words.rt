//! Words of a line, and what each of them says.
ghost use Rattle.std.specs.Prelude.{◌≡◌, ◌∷◌, [], IfOk, MatchOption};
ghost use Rattle.map_search.specs.Answers.{Gives};
ghost use Rattle.map_search.specs.Words.{words_of, without_blanks, wanted_of, one_tag, tag_word, state_word, kind_word, joining_word, word_of};

use crate::fault::QueryFault;
use crate::pending::{Opening, Word};
use crate::query::{Form, Query};
use opl_line::{cut, is_blank, read_tags};
use opl_text::Pool;
use osm_base::{Kind, Tags, Text};
use std::alloc::AllocError;

/// The first word of the bytes, and what stands behind it.
pub fn next_word(bytes: &[u8]) -> Option<(&[u8], &[u8])>
    ensures { MatchOption result (words_of bytes.now ≡ []) (λ found. words_of bytes.now ≡ found.0.now ∷ words_of found.1.now) }
{
    let rest = without_blanks(bytes);
    if rest.is_empty() {
        return None;
    }
    let (word, after) = cut(rest, b' ', b'\t');
    match after {
        None => Some((word, &[])),
        Some(behind) => Some((word, behind)),
    }
}

fn without_blanks(bytes: &[u8]) -> &[u8]
    ensures { result.now ≡ without_blanks bytes.now }
{
    let mut rest = bytes;
    while !rest.is_empty() && is_blank(rest[0]) {
        rest = rest.split_at(1).1;
    }
    rest
}

/// What a word says.
#[tactic(auto, unfolding(crate::specs::Words::word_of))]
pub fn word_of(pool: &mut Pool, word: &[u8]) -> Result<Word, QueryFault>
    ensures { Gives result (word_of word.now) }
{
    if word == b"not".as_slice() {
        Ok(Word::Opens(Opening::Not))
    } else if word == b"child".as_slice() {
        Ok(Word::Opens(Opening::Child))
    } else if word == b"parent".as_slice() {
        Ok(Word::Opens(Opening::Parent))
    } else if word == b"(".as_slice() {
        Ok(Word::Opens(Opening::Bracket))
    } else {
        joining_word(pool, word)
    }
}

#[tactic(auto, unfolding(crate::specs::Words::joining_word))]
fn joining_word(pool: &mut Pool, word: &[u8]) -> Result<Word, QueryFault>
    ensures { Gives result (joining_word word.now) }
{
    if word == b"and".as_slice() {
        Ok(Word::And)
    } else if word == b"or".as_slice() {
        Ok(Word::Or)
    } else if word == b")".as_slice() {
        Ok(Word::Closes)
    } else {
        Ok(Word::Asks(kind_word(pool, word)?))
    }
}

/// What is asked of an object by one word: of its kind, of its state, or for a tag.
#[tactic(auto, unfolding(crate::specs::Words::kind_word))]
fn kind_word(pool: &mut Pool, word: &[u8]) -> Result<Query, QueryFault>
    ensures { Gives result (kind_word word.now) }
{
    if word == b"node".as_slice() {
        Ok(Query {
            form: Form::OfKind(Kind::Node),
        })
    } else if word == b"way".as_slice() {
        Ok(Query {
            form: Form::OfKind(Kind::Way),
        })
    } else if word == b"relation".as_slice() {
        Ok(Query {
            form: Form::OfKind(Kind::Relation),
        })
    } else {
        state_word(pool, word)
    }
}

#[tactic(auto, unfolding(crate::specs::Words::state_word))]
fn state_word(pool: &mut Pool, word: &[u8]) -> Result<Query, QueryFault>
    ensures { Gives result (state_word word.now) }
{
    if word == b"new".as_slice() {
        Ok(Query { form: Form::IsNew })
    } else if word == b"changed".as_slice() {
        Ok(Query {
            form: Form::IsChanged,
        })
    } else if word == b"deleted".as_slice() {
        Ok(Query {
            form: Form::IsDeleted,
        })
    } else if word == b"incomplete".as_slice() {
        Ok(Query {
            form: Form::IsIncomplete,
        })
    } else if word == b"conflict".as_slice() {
        Ok(Query {
            form: Form::HasConflict,
        })
    } else {
        tag_word(pool, word)
    }
}

/// `T` and one tag.
#[tactic(auto, unfolding(crate::specs::Words::tag_word))]
fn tag_word(pool: &mut Pool, word: &[u8]) -> Result<Query, QueryFault>
    ensures { Gives result (tag_word word.now) }
{
    let [b'T', text @ ..] = word else {
        return Err(QueryFault::BadQuery);
    };
    let tags = read_tags(pool, text)?;
    one_tag(&tags)
}

fn one_tag(tags: &Tags) -> Result<Query, QueryFault>
    ensures { Gives result (one_tag tags.now) }
{
    let [(key, value)] = tags.as_slice() else {
        return Err(QueryFault::BadQuery);
    };
    let form = Form::Tag {
        key: key.copy()?,
        value: wanted(value)?,
    };
    Ok(Query { form })
}

/// The wanted value, or any where it is `*`.
fn wanted(value: &Text) -> Result<Option<Text>, AllocError>
    ensures { IfOk result (λ wanted. wanted ≡ wanted_of value.now) }
{
    if value.as_bytes() == b"*".as_slice() {
        return Ok(None);
    }
    Ok(Some(value.copy()?))
}
