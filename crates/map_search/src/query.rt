//! What is asked of objects.

use osm_base::{Kind, Text};
use std::marker::Model;

/// A query: what is asked of an object of a table.
///
/// Contracts see it as a `QueryValue`, a tree of the same shape without boxes.
#[cycle(query)]
#[derive(Drop)]
pub struct Query {
    pub form: Form,
}

/// The forms of a query. `specs/Meets` says which objects meet each of them.
#[cycle(query)]
#[derive(Drop)]
pub enum Form {
    /// Objects of the kind.
    OfKind(Kind),
    /// Living objects that have the key with the value, or with any value.
    Tag { key: Text, value: Option<Text> },
    /// Objects that no server knows yet.
    IsNew,
    /// Objects that an upload has something to say of.
    IsChanged,
    /// Objects that are known and that the user has deleted, or that the server has.
    IsDeleted,
    /// Objects of which no more is known than that they are at the server.
    IsIncomplete,
    /// Objects with a conflict that isn't resolved yet.
    HasConflict,
    /// What a living object that meets the query refers to.
    Child(Box<Query>),
    /// Living objects that refer to one that meets the query.
    Parent(Box<Query>),
    /// Objects that don't meet the query.
    Not(Box<Query>),
    /// Objects that meet both.
    And(Box<Query>, Box<Query>),
    /// Objects that meet at least one.
    Or(Box<Query>, Box<Query>),
}

impl Model for Query {
    ghost use Rattle.map_search.specs.Query.{QueryValue};
    ghost use Rattle.map_search.specs.QueryCode.{query_code};

    ghost Value = { QueryValue };

    ghost coded = { query_code };

    ghost use Rattle.map_search.specs.Seen.{seen};

    ghost view = { λ q. seen q.form };

    ghost use Rattle.map_search.specs.Query.{depth};

    ghost size = { depth };

    ghost use Rattle.std.proofs.Common.{arith};

    ghost size_decreases = { λ a h. Prim.grind arith };
}
