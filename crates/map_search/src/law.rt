//! What reading and grammar have to do with each other.
ghost use Rattle.std.specs.Prelude.{◌≡◌, ℕ, List, Option, ◌↔◌};
ghost use Rattle.osm_base.specs.Told.{Finds};
ghost use Rattle.map_search.specs.Grammar.{SpellsQuery};
ghost use Rattle.map_search.specs.Query.{QueryValue};
ghost use Rattle.map_search.specs.Reading.{query_of_words};

/// The reading of queries is their grammar: words are read as the query that they spell, and as none where they spell none, so
/// no words spell two queries.
///
/// It does nothing; its contract is the law.
pub fn read_as_spelled()
    ensures { (words : List (List ℕ)) (answer : Option QueryValue) → (query_of_words words ≡ answer) ↔ Finds (SpellsQuery words) answer }
{}
