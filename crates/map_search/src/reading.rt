//! Queries, read from words.
ghost use Rattle.std.specs.Prelude.{◌≡◌, ◌≤◌, [], IfOk, reverse};
ghost use Rattle.map_search.specs.declared.pending.Word.TheVariants as said;
ghost use Rattle.map_search.specs.Answers.{Gives, Reads};
ghost use Rattle.map_search.specs.Query.{depth};
ghost use Rattle.map_search.specs.Reading.{query_of_words, with_word, opened, followed, closed, ended};
ghost use Rattle.map_search.specs.Words.{words_of};

use crate::fault::QueryFault;
use crate::pending::{Part, Pending, Word, completed, joined, nesting, pop_taker, taken};
use crate::query::Query;
use crate::words::{next_word, word_of};
use opl_text::Pool;
use std::alloc::Global;

/// The query that the words are.
///
/// Terms are joined by `or`, factors by `and`, both from the left. A factor is `not`, `child` or `parent` and a factor; or
/// `(`, a query and `)`; or `node`, `way`, `relation`, `new`, `changed`, `deleted`, `incomplete`, `conflict`; or `T` and one
/// tag, as a line of OPL has it, whose value `*` stands for any. A query has at most 1,000 words, and at most 64 of `not`,
/// `child`, `parent` and `(` stand round any of them. Words are separated by spaces or tabs. They are walked once.
///
/// # Errors
/// `BadQuery` exactly where the words aren't a query, `Memory` where no memory was left.
pub fn read_query(pool: &mut Pool, words: &[u8]) -> Result<Query, QueryFault>
    ensures value { Gives result (query_of_words (words_of words.now)) }
    ensures shallow { IfOk result (λ query. depth query ≤ 1100) }
{
    read_words(pool, words)
}

fn read_words(pool: &mut Pool, words: &[u8]) -> Result<Query, QueryFault>
    ensures { Gives result (query_of_words (words_of words.now)) }
{
    let mut stack = Vec::new(pool.allocator());
    read_onto(pool, words, &mut stack)
}

/// The query that the words are, read with a stack on which nothing waits yet.
fn read_onto(pool: &mut Pool, words: &[u8], stack: &mut Vec<Pending>) -> Result<Query, QueryFault>
    requires { stack.old.items ≡ [] }
    ensures { Gives result (query_of_words (words_of words.now)) }
{
    let mut query = None;
    let mut count = 0u64;
    let mut rest = words;
    while let Some((word, behind)) = next_word(rest) {
        if count == 1000 {
            return Err(QueryFault::BadQuery);
        }
        count += 1;
        let word = word_of(pool, word)?;
        query = with_word(pool.allocator(), query, word, stack)?;
        rest = behind;
    }
    ended(pool.allocator(), query, stack)
}

/// One word more.
fn with_word(
    alloc: Global,
    query: Option<Query>,
    word: Word,
    stack: &mut Vec<Pending>,
) -> Result<Option<Query>, QueryFault>
    ensures { Reads result (reverse stack.new.items) (with_word query word (reverse stack.old.items)) }
{
    match query {
        None => opened(alloc, word, stack),
        Some(query) => followed(alloc, query, word, stack),
    }
}

/// A word where a factor is wanted.
fn opened(alloc: Global, word: Word, stack: &mut Vec<Pending>) -> Result<Option<Query>, QueryFault>
    ensures { Reads result (reverse stack.new.items) (opened word (reverse stack.old.items)) }
{
    match word {
        Word::Opens(opening) => {
            if nesting(stack) >= 64 {
                return Err(QueryFault::BadQuery);
            }
            stack.push(Pending::Opened(opening))?;
            Ok(None)
        }
        Word::Asks(query) => Ok(Some(taken(alloc, query, stack)?)),
        Word::And | Word::Or | Word::Closes => Err(QueryFault::BadQuery),
    }
}

/// A word behind a factor.
fn followed(
    alloc: Global,
    query: Query,
    word: Word,
    stack: &mut Vec<Pending>,
) -> Result<Option<Query>, QueryFault>
    ensures { Reads result (reverse stack.new.items) (followed query word (reverse stack.old.items)) }
{
    match word {
        Word::And => before_and(query, stack),
        Word::Or => before_or(alloc, query, stack),
        Word::Closes => before_bracket(alloc, query, stack),
        Word::Opens(_) | Word::Asks(_) => Err(QueryFault::BadQuery),
    }
}

/// A factor with an `and` behind it.
fn before_and(query: Query, stack: &mut Vec<Pending>) -> Result<Option<Query>, QueryFault>
    ensures { Reads result (reverse stack.new.items) (followed query said.And (reverse stack.old.items)) }
{
    stack.push(Pending::And(query))?;
    Ok(None)
}

/// A factor with an `or` behind it, which ends its term.
fn before_or(
    alloc: Global,
    query: Query,
    stack: &mut Vec<Pending>,
) -> Result<Option<Query>, QueryFault>
    ensures { Reads result (reverse stack.new.items) (followed query said.Or (reverse stack.old.items)) }
{
    let term = joined(alloc, query, stack)?;
    stack.push(Pending::Or(term))?;
    Ok(None)
}

/// A factor with a closing bracket behind it, which ends its term and the query in the bracket.
fn before_bracket(
    alloc: Global,
    query: Query,
    stack: &mut Vec<Pending>,
) -> Result<Option<Query>, QueryFault>
    ensures { Reads result (reverse stack.new.items) (followed query said.Closes (reverse stack.old.items)) }
{
    let whole = joined(alloc, query, stack)?;
    closed(alloc, whole, stack)
}

/// The query, taken by the bracket that waits for it.
fn closed(
    alloc: Global,
    query: Query,
    stack: &mut Vec<Pending>,
) -> Result<Option<Query>, QueryFault>
    ensures { Reads result (reverse stack.new.items) (closed query (reverse stack.old.items)) }
{
    match pop_taker(Part::Whole, stack) {
        None => Err(QueryFault::BadQuery),
        Some(bracket) => {
            let factor = completed(alloc, bracket, query)?;
            Ok(Some(taken(alloc, factor, stack)?))
        }
    }
}

/// The query at the end of the words.
fn ended(alloc: Global, query: Option<Query>, stack: &mut Vec<Pending>) -> Result<Query, QueryFault>
    ensures { Gives result (ended query (reverse stack.old.items)) }
{
    let Some(query) = query else {
        return Err(QueryFault::BadQuery);
    };
    let query = joined(alloc, query, stack)?;
    if stack.is_empty() {
        Ok(query)
    } else {
        Err(QueryFault::BadQuery)
    }
}
