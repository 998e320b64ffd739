//! The words of a line, and what each of them spells.
ghost use Rattle.std.specs.Prelude.{◌≡◌, ◌∷◌, ◌≤◌, ◌==◌, ◌||◌, length, Some, MatchResult, IfOk};
ghost use Rattle.map_search.specs.Query.{depth};
ghost use Rattle.map_search.specs.Reading.{query_of_words};
ghost use Rattle.map_search.specs.Words.{words_of};
ghost use Rattle.opl_line.specs.Cut.{split};
ghost use Rattle.opl_line.specs.Field.{is};
ghost use Rattle.opl_text.specs.Text.{unescaped};
ghost use Rattle.osm_base.specs.Number.{key_text};
ghost use Rattle.osm_base.specs.Coord.{coord_text};
ghost use Rattle.merge_cases.specs.Keys.{is_listed};
ghost use Rattle.edit_script.specs.Answers.{Gives, IsOver, IsRefused};
ghost use Rattle.edit_script.specs.Grammar.{two_keys, word};
ghost use Rattle.edit_script.specs.Items.{alone, four_texts, optional, has_location, keys_word, tags_word, refs_word, members_word, number_word, place_texts, place_words, box_between, area_text, wanted_text, side_word, texts_of, tag_keys_of, tag_keys_word};

use crate::fault::Unread;
use map_search::{Query, QueryFault, next_word, read_query};
use merge_cases::{Side, TagKeys};
use opl_line::{cut, read_members, read_refs, read_tags};
use opl_text::{Pool, read_escaped};
use osm_base::{
    Area, Coord, Key, Keys, Members, Refs, Tags, Text, coord_of, read_coord, read_digits, read_key,
};

/// The first word, and what stands behind it.
pub fn first_word(words: &[u8]) -> Result<(&[u8], &[u8]), Unread>
    ensures { MatchResult result (λ found. words_of words.now ≡ found.0.now ∷ words_of found.1.now) (IsOver (words_of words.now)) }
{
    next_word(words).ok_or(Unread::Outside)
}

/// The thing, where no word is left.
pub fn alone<T: Drop>(thing: T, words: &[u8]) -> Result<T, Unread>
    ensures value { Gives result (alone thing (words_of words.now)) }
    ensures same { IfOk result (λ given. given ≡ thing) }
{
    match next_word(words) {
        None => Ok(thing),
        Some(_) => Err(Unread::Outside),
    }
}

/// The name of a file, alone.
pub fn only_name(pool: &mut Pool, words: &[u8]) -> Result<Text, Unread>
    ensures { Gives result (word unescaped alone (words_of words.now)) }
{
    let (word, rest) = first_word(words)?;
    alone(read_escaped(pool, word)?, rest)
}

/// One or more keys, alone.
pub fn only_keys(pool: &Pool, words: &[u8]) -> Result<Keys, Unread>
    ensures { Gives result (word keys_word alone (words_of words.now)) }
{
    let (word, rest) = first_word(words)?;
    alone(keys_word(pool, word)?, rest)
}

/// Two or more keys, alone.
#[tactic(auto, unfolding(crate::specs::Grammar::two_keys))]
pub fn two_keys(pool: &Pool, words: &[u8]) -> Result<Keys, Unread>
    ensures value { Gives result (word two_keys alone (words_of words.now)) }
    ensures two { IfOk result (λ keys. 2 ≤ length keys) }
{
    let (word, rest) = first_word(words)?;
    let keys = keys_word(pool, word)?;
    if keys.len() < 2 {
        return Err(Unread::Outside);
    }
    alone(keys, rest)
}

/// A number from 1 to the most, alone.
#[tactic(auto, unfolding(crate::specs::Items::number_word))]
pub fn only_number(words: &[u8], most: u32) -> Result<u32, Unread>
    ensures value { Gives result (word (number_word most) alone (words_of words.now)) }
    ensures some { IfOk result (λ n. 1 ≤ n) }
    ensures fits { IfOk result (λ n. n ≤ most) }
{
    let (word, rest) = first_word(words)?;
    match read_digits(word, 7) {
        Some(n) if 1 <= n && n <= u64::from(most) => alone(n as u32, rest),
        _ => Err(Unread::Outside),
    }
}

/// The texts between commas, where there are four and no more.
#[tactic(auto, using(crate::proofs::Lists::fifth_text))]
fn four_texts(text: &[u8]) -> Result<(&[u8], &[u8], &[u8], &[u8]), Unread>
    ensures { MatchResult result
        (λ four. four_texts (split (is 44) text.now) ≡ Some (four.0.now, four.1.now, four.2.now, four.3.now))
        (IsRefused (four_texts (split (is 44) text.now))) }
{
    let (first, Some(rest)) = cut(text, b',', b',') else {
        return Err(Unread::Outside);
    };
    let (second, Some(rest)) = cut(rest, b',', b',') else {
        return Err(Unread::Outside);
    };
    let (third, Some(rest)) = cut(rest, b',', b',') else {
        return Err(Unread::Outside);
    };
    match cut(rest, b',', b',') {
        (fourth, None) => Ok((first, second, third, fourth)),
        (_, Some(_)) => Err(Unread::Outside),
    }
}

pub fn key_word(word: &[u8]) -> Result<Key, Unread>
    ensures { Gives result (key_text word.now) }
{
    read_key(word).ok_or(Unread::Outside)
}

/// One or more keys with commas between them.
#[tactic(auto, unfolding(crate::specs::Items::keys_word))]
pub fn keys_word(pool: &Pool, word: &[u8]) -> Result<Keys, Unread>
    ensures { Gives result (keys_word word.now) }
{
    let mut keys = Keys::new(pool.allocator());
    let mut rest = word;
    loop {
        let (text, after) = cut(rest, b',', b',');
        keys.push(key_word(text)?)?;
        match after {
            None => return Ok(keys),
            Some(next) => rest = next,
        }
    }
}

/// `T` and tags.
#[tactic(auto, unfolding(crate::specs::Items::tags_word))]
pub fn tags_word(pool: &mut Pool, word: &[u8]) -> Result<Tags, Unread>
    ensures { Gives result (tags_word word.now) }
{
    let [b'T', text @ ..] = word else {
        return Err(Unread::Outside);
    };
    Ok(read_tags(pool, text)?)
}

/// Whether a reference has a location: only that has an `x`.
fn has_location(text: &[u8]) -> bool
    ensures { result ≡ has_location text.now }
{
    text.iter().any(|byte| *byte == b'x')
}

/// `N` and references without locations.
#[tactic(auto, unfolding(crate::specs::Items::refs_word))]
pub fn refs_word(pool: &mut Pool, word: &[u8]) -> Result<Refs, Unread>
    ensures { Gives result (refs_word word.now) }
{
    let [b'N', text @ ..] = word else {
        return Err(Unread::Outside);
    };
    if has_location(text) {
        return Err(Unread::Outside);
    }
    Ok(read_refs(pool, text)?)
}

/// `M` and members.
#[tactic(auto, unfolding(crate::specs::Items::members_word))]
pub fn members_word(pool: &mut Pool, word: &[u8]) -> Result<Members, Unread>
    ensures { Gives result (members_word word.now) }
{
    let [b'M', text @ ..] = word else {
        return Err(Unread::Outside);
    };
    Ok(read_members(pool, text)?)
}

/// A distance in units of 10^-7 degree.
pub fn coord_word(word: &[u8]) -> Result<i64, Unread>
    ensures { Gives result (coord_text word.now) }
{
    read_coord(word).ok_or(Unread::Outside)
}

/// `x` and a longitude, `y` and a latitude.
#[tactic(auto, unfolding(crate::specs::Items::place_words))]
pub fn place_words(x: &[u8], y: &[u8]) -> Result<Coord, Unread>
    ensures { Gives result (place_words x.now y.now) }
{
    let [b'x', lon @ ..] = x else {
        return Err(Unread::Outside);
    };
    let [b'y', lat @ ..] = y else {
        return Err(Unread::Outside);
    };
    place_texts(lon, lat)
}

/// A longitude and a latitude.
#[tactic(auto, unfolding(crate::specs::Items::place_texts))]
fn place_texts(lon: &[u8], lat: &[u8]) -> Result<Coord, Unread>
    ensures { Gives result (place_texts lon.now lat.now) }
{
    let lon = coord_word(lon)?;
    let lat = coord_word(lat)?;
    coord_of(lon, lat).ok_or(Unread::Outside)
}

/// The box between its corners in the south-west and the north-east.
fn box_between(low: Coord, high: Coord) -> Result<Area, Unread>
    ensures { Gives result (box_between low high) }
{
    if low.lon <= high.lon && low.lat <= high.lat {
        Ok(Area {
            west: low.lon,
            south: low.lat,
            east: high.lon,
            north: high.lat,
        })
    } else {
        Err(Unread::Outside)
    }
}

/// A box by its west, south, east and north.
#[tactic(auto, unfolding(crate::specs::Items::area_text))]
fn area_text(text: &[u8]) -> Result<Area, Unread>
    ensures { Gives result (area_text text.now) }
{
    let (west, south, east, north) = four_texts(text)?;
    let low = place_texts(west, south)?;
    let high = place_texts(east, north)?;
    box_between(low, high)
}

/// `B` and a box, where the first word begins so, and what stands behind it.
pub fn area_part(words: &[u8]) -> Result<(Option<Area>, &[u8]), Unread>
    ensures { MatchResult result
        (λ found. optional 66 area_text (words_of words.now) ≡ Some (found.0, words_of found.1.now))
        (IsRefused (optional 66 area_text (words_of words.now))) }
{
    match next_word(words) {
        Some(([b'B', text @ ..], rest)) => Ok((Some(area_text(text)?), rest)),
        _ => Ok((None, words)),
    }
}

/// Tags, at least one.
#[tactic(auto, unfolding(crate::specs::Items::wanted_text))]
fn wanted_text(pool: &mut Pool, text: &[u8]) -> Result<Tags, Unread>
    ensures { Gives result (wanted_text text.now) }
{
    let tags = read_tags(pool, text)?;
    if tags.is_empty() {
        return Err(Unread::Outside);
    }
    Ok(tags)
}

/// `F` and the tags that are wanted, where the first word begins so, and what stands behind it.
pub fn wanted_part<'a>(pool: &mut Pool, words: &'a [u8]) -> Result<(Option<Tags>, &'a [u8]), Unread>
    ensures { MatchResult result
        (λ found. optional 70 wanted_text (words_of words.now) ≡ Some (found.0, words_of found.1.now))
        (IsRefused (optional 70 wanted_text (words_of words.now))) }
{
    match next_word(words) {
        Some(([b'F', text @ ..], rest)) => Ok((Some(wanted_text(pool, text)?), rest)),
        _ => Ok((None, words)),
    }
}

/// `mine` or `theirs`.
#[tactic(auto, unfolding(crate::specs::Items::side_word))]
pub fn side_word(word: &[u8]) -> Result<Side, Unread>
    ensures { Gives result (side_word word.now) }
{
    if word == b"mine".as_slice() {
        Ok(Side::Mine)
    } else if word == b"theirs".as_slice() {
        Ok(Side::Theirs)
    } else {
        Err(Unread::Outside)
    }
}

/// The query that all of the words are.
pub fn query_words(pool: &mut Pool, words: &[u8]) -> Result<Query, Unread>
    ensures value { Gives result (query_of_words (words_of words.now)) }
    ensures shallow { IfOk result (λ query. depth query ≤ 1100) }
{
    match read_query(pool, words) {
        Ok(query) => Ok(query),
        Err(QueryFault::BadQuery) => Err(Unread::Outside),
        Err(QueryFault::Memory) => Err(Unread::Memory),
    }
}

/// Whether the text may not stand behind these keys: it is empty, or one of them.
fn adds_no_key(keys: &TagKeys, text: &[u8]) -> bool
    ensures { result ≡ (length text.now == 0 || is_listed keys.now text.now) }
{
    text.is_empty() || keys.has(text)
}

/// The keys of tags between commas.
#[tactic(auto, using(crate::proofs::TagKeys::no_keys), unfolding(crate::specs::Items::tag_keys_of))]
fn all_tag_keys(pool: &mut Pool, text: &[u8]) -> Result<TagKeys, Unread>
    ensures { Gives result (tag_keys_of (split (is 44) text.now)) }
{
    let mut keys = TagKeys::new(pool.allocator());
    let mut rest = text;
    loop {
        let (piece, after) = cut(rest, b',', b',');
        let key = read_escaped(pool, piece)?;
        if adds_no_key(&keys, key.as_bytes()) {
            return Err(Unread::Outside);
        }
        keys.push(key)?;
        match after {
            None => return Ok(keys),
            Some(next) => rest = next,
        }
    }
}

/// Nothing, or keys of tags with commas between them.
#[tactic(auto, unfolding(crate::specs::Items::tag_keys_of))]
fn tag_keys(pool: &mut Pool, text: &[u8]) -> Result<TagKeys, Unread>
    ensures { Gives result (tag_keys_of (texts_of text.now)) }
{
    if text.is_empty() {
        return Ok(TagKeys::new(pool.allocator()));
    }
    all_tag_keys(pool, text)
}

/// `K` and keys of tags.
#[tactic(auto, unfolding(crate::specs::Items::tag_keys_word))]
pub fn tag_keys_word(pool: &mut Pool, word: &[u8]) -> Result<TagKeys, Unread>
    ensures { Gives result (tag_keys_word word.now) }
{
    let [b'K', text @ ..] = word else {
        return Err(Unread::Outside);
    };
    tag_keys(pool, text)
}
