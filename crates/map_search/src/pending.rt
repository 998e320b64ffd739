//! What waits for a part of a query.
//!
//! It is kept in a vector whose last element is the innermost, so contracts see it reversed.
ghost use Rattle.std.specs.Prelude.{◌≡◌, ◌∷◌, [], reverse, false, true, MatchOption, IfOk};
ghost use Rattle.std.specs.List.{count_by};
ghost use Rattle.std.specs.Option.{option_copied};
ghost use Rattle.map_search.specs.Answers.{Gives};
ghost use Rattle.map_search.specs.Innermost.{innermost, innermost_takes};
ghost use Rattle.map_search.specs.Reading.{is_opening, nesting, takes, completed, taken, joined, having, closed};

use crate::fault::QueryFault;
use crate::query::{Form, Query};
use std::alloc::{AllocError, Global};

/// A word that opens a factor and waits for the rest of it.
#[derive(Clone, Copy)]
pub enum Opening {
    Not,
    Child,
    Parent,
    Bracket,
}

/// What a word of a query says.
#[derive(Drop)]
pub enum Word {
    Opens(Opening),
    Closes,
    And,
    Or,
    Asks(Query),
}

/// What waits for a part of a query: an opening, or what stands left of `and` or `or`.
#[derive(Drop)]
pub enum Pending {
    Opened(Opening),
    And(Query),
    Or(Query),
}

/// A part of a query: factors are joined by `and`, terms by `or`.
#[derive(Clone, Copy)]
pub enum Part {
    Factor,
    Term,
    Whole,
}

fn is_opening(pending: &Pending) -> bool
    ensures { result ≡ is_opening pending.now }
{
    matches!(pending, Pending::Opened(_))
}

/// How many openings wait.
pub fn nesting(stack: &[Pending]) -> usize
    ensures { result ≡ nesting (reverse stack.now) }
{
    count_openings(stack)
}

fn count_openings(stack: &[Pending]) -> usize
    ensures { result ≡ count_by is_opening stack.now }
{
    stack.iter().filter(|pending| is_opening(*pending)).count()
}

/// Whether it takes the part.
fn takes(part: Part, pending: &Pending) -> bool
    ensures { result ≡ takes part pending.now }
{
    match pending {
        Pending::Opened(Opening::Bracket) => matches!(part, Part::Whole),
        Pending::Opened(_) | Pending::And(_) => matches!(part, Part::Factor),
        Pending::Or(_) => matches!(part, Part::Term),
    }
}

fn innermost(stack: &[Pending]) -> Option<&Pending>
    ensures { option_copied result ≡ innermost (reverse stack.now) }
{
    if stack.is_empty() {
        return None;
    }
    Some(&stack[stack.len() - 1])
}

fn innermost_takes(part: Part, stack: &[Pending]) -> bool
    ensures { result ≡ innermost_takes part (reverse stack.now) }
{
    match innermost(stack) {
        None => false,
        Some(pending) => takes(part, pending),
    }
}

/// The innermost, where it takes the part; it waits no more then.
pub fn pop_taker(part: Part, stack: &mut Vec<Pending>) -> Option<Pending>
    ensures none { MatchOption result (innermost_takes part (reverse stack.old.items) ≡ false) (λ pending. takes part pending ≡ true) }
    ensures rest { MatchOption result (stack.new.items ≡ stack.old.items) (λ pending. reverse stack.old.items ≡ pending ∷ reverse stack.new.items) }
{
    if !innermost_takes(part, stack) {
        return None;
    }
    stack.pop()
}

/// What comes of what waits and the part that it takes.
pub fn completed(alloc: Global, pending: Pending, query: Query) -> Result<Query, AllocError>
    ensures { IfOk result (λ whole. whole ≡ completed pending query) }
{
    let form = match pending {
        Pending::Opened(Opening::Not) => Form::Not(Box::new(alloc, query)?),
        Pending::Opened(Opening::Child) => Form::Child(Box::new(alloc, query)?),
        Pending::Opened(Opening::Parent) => Form::Parent(Box::new(alloc, query)?),
        Pending::Opened(Opening::Bracket) => return Ok(query),
        Pending::And(left) => Form::And(Box::new(alloc, left)?, Box::new(alloc, query)?),
        Pending::Or(left) => Form::Or(Box::new(alloc, left)?, Box::new(alloc, query)?),
    };
    Ok(Query { form })
}

/// The factor, taken by all that waits for one.
pub fn taken(alloc: Global, factor: Query, stack: &mut Vec<Pending>) -> Result<Query, AllocError>
    ensures { IfOk result (λ query. taken factor (reverse stack.old.items) ≡ having query (reverse stack.new.items)) }
{
    let mut query = factor;
    while let Some(pending) = pop_taker(Part::Factor, stack) {
        query = completed(alloc, pending, query)?;
    }
    Ok(query)
}

/// The term, taken by the `or` that waits for one.
pub fn joined(alloc: Global, term: Query, stack: &mut Vec<Pending>) -> Result<Query, AllocError>
    ensures { IfOk result (λ query. joined term (reverse stack.old.items) ≡ having query (reverse stack.new.items)) }
{
    match pop_taker(Part::Term, stack) {
        None => Ok(term),
        Some(pending) => completed(alloc, pending, term),
    }
}
