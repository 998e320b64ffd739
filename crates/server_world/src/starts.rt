//! Where free ids are sought.
ghost use Rattle.std.specs.Prelude.{◌≡◌};
ghost use Rattle.server_world.specs.Starts.{start_at, with_start};

use osm_base::Kind;

/// The greatest id that an object may have, 10^18.
pub const LAST_ID: u64 = 1_000_000_000_000_000_000;

/// For each kind an id that the least free one isn't below.
#[derive(Clone, Copy)]
pub struct Starts {
    pub node: u64,
    pub way: u64,
    pub relation: u64,
}

impl Starts {
    /// The least positive ids.
    pub fn new() -> Starts
        ensures { result ≡ record { node = 1; way = 1; relation = 1 } }
    {
        Starts {
            node: 1,
            way: 1,
            relation: 1,
        }
    }

    /// The start of a kind.
    pub fn at(&self, kind: Kind) -> u64
        ensures { result ≡ start_at self.now kind }
    {
        match kind {
            Kind::Node => self.node,
            Kind::Way => self.way,
            Kind::Relation => self.relation,
        }
    }

    /// Sets the start of a kind.
    pub fn set(&mut self, kind: Kind, id: u64)
        ensures { self.new ≡ with_start self.old kind id }
    {
        match kind {
            Kind::Node => self.node = id,
            Kind::Way => self.way = id,
            Kind::Relation => self.relation = id,
        }
    }
}
