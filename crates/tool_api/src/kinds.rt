//! The kinds of objects that a job takes.
ghost use Rattle.std.specs.Prelude.{◌≡◌};
ghost use Rattle.tool_api.specs.Checks.{takes};

use osm_base::Kind;

/// The kinds that a job takes; a named object of another kind is refused as `WrongKind`.
#[derive(Clone, Copy)]
pub enum Kinds {
    Any,
    Nodes,
    Ways,
    Relations,
    NodesAndWays,
}

impl Kinds {
    /// Whether objects of the kind are taken.
    pub fn takes(self, kind: Kind) -> bool
        ensures { result ≡ takes self kind }
    {
        match (self, kind) {
            (Kinds::Any, _) => true,
            (Kinds::Nodes, Kind::Node) => true,
            (Kinds::Ways, Kind::Way) => true,
            (Kinds::Relations, Kind::Relation) => true,
            (Kinds::NodesAndWays, Kind::Node) => true,
            (Kinds::NodesAndWays, Kind::Way) => true,
            _ => false,
        }
    }
}
