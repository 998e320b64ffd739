//! The answer that a line gives.
ghost use Rattle.std.specs.Prelude.{◌≡◌, ◌<◌, ◌∷◌, codes, length};
ghost use Rattle.edit_script.specs.Answers.{Gives};
ghost use Rattle.edit_script.specs.Grammar.{by_first};
ghost use Rattle.edit_script.specs.Items.{words_of};
ghost use Rattle.answer_file.specs.Lines.{all_answers, answer_of, begins_with_0, has_kind_of, id_word, version_word};

use edit_script::{Unread, alone, first_word, has_outer_blank, key_word};
use osm_base::{Key, read_digits, same_key};
use placeholder::Answer;

/// The greatest version that an object may have.
const GREATEST_VERSION: u64 = 2_000_000_000;

/// The answer that a line without its CR gives.
pub fn answer_of(line: &[u8]) -> Result<Answer, Unread>
    requires { 0 < length line.now }
    ensures { Gives result (answer_of line.now) }
{
    if has_outer_blank(line) {
        return Err(Unread::Outside);
    }
    answer_of_words(line)
}

fn answer_of_words(line: &[u8]) -> Result<Answer, Unread>
    ensures { Gives result (by_first all_answers (words_of line.now)) }
{
    let (verb, words) = first_word(line)?;
    if verb == b"create".as_slice() {
        created(words)
    } else if verb == b"modify".as_slice() {
        modified(words)
    } else if verb == b"delete".as_slice() {
        deleted(words)
    } else {
        Err(Unread::Outside)
    }
}

/// `OLD NEW v1`.
fn created(words: &[u8]) -> Result<Answer, Unread>
    ensures { Gives result (by_first all_answers (codes "create" ∷ words_of words.now)) }
{
    let (word, rest) = first_word(words)?;
    let placeholder = key_word(word)?;
    let (word, rest) = first_word(rest)?;
    let id = id_word(placeholder, word)?;
    let (word, rest) = first_word(rest)?;
    if word != b"v1".as_slice() {
        return Err(Unread::Outside);
    }
    alone(Answer::Create { placeholder, id }, rest)
}

/// The id of an object of the placeholder's kind.
#[tactic(auto, unfolding(crate::specs::Lines::id_word))]
fn id_word(placeholder: Key, word: &[u8]) -> Result<i64, Unread>
    ensures { Gives result (id_word placeholder word.now) }
{
    let key = key_word(word)?;
    if has_kind_of(placeholder, key) {
        Ok(key.id)
    } else {
        Err(Unread::Outside)
    }
}

fn has_kind_of(placeholder: Key, key: Key) -> bool
    ensures { result ≡ has_kind_of placeholder key }
{
    let as_key = Key {
        kind: placeholder.kind,
        id: key.id,
    };
    same_key(key, as_key)
}

/// `KEY vN`.
fn modified(words: &[u8]) -> Result<Answer, Unread>
    ensures { Gives result (by_first all_answers (codes "modify" ∷ words_of words.now)) }
{
    let (word, rest) = first_word(words)?;
    let key = key_word(word)?;
    let (word, rest) = first_word(rest)?;
    let version = version_word(word)?;
    alone(Answer::Modify { key, version }, rest)
}

/// `KEY vN`.
fn deleted(words: &[u8]) -> Result<Answer, Unread>
    ensures { Gives result (by_first all_answers (codes "delete" ∷ words_of words.now)) }
{
    let (word, rest) = first_word(words)?;
    let key = key_word(word)?;
    let (word, rest) = first_word(rest)?;
    let version = version_word(word)?;
    alone(Answer::Delete { key, version }, rest)
}

/// `v` and a number without leading zeros.
#[tactic(auto, unfolding(crate::specs::Lines::version_word))]
fn version_word(word: &[u8]) -> Result<u32, Unread>
    ensures { Gives result (version_word word.now) }
{
    let [b'v', digits @ ..] = word else {
        return Err(Unread::Outside);
    };
    match read_digits(digits, 10) {
        Some(version) if !begins_with_0(digits) && version <= GREATEST_VERSION => {
            Ok(version as u32)
        }
        _ => Err(Unread::Outside),
    }
}

fn begins_with_0(digits: &[u8]) -> bool
    ensures { result ≡ begins_with_0 digits.now }
{
    !digits.is_empty() && digits[0] == b'0'
}
