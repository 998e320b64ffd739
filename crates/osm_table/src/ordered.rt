//! Keys by rank.
ghost use Rattle.std.specs.Prelude.{◌≡◌};

use osm_base::{Key, Keys};
use std::marker::Model;

/// The keys of a map by rank: lent where they stand so, as after a download in rank order, and else a sorted list.
/// Clauses see the keys.
#[derive(Drop)]
pub struct Ordered<'a> {
    keys: Found<'a>,
}

/// Where the keys are.
#[derive(Drop)]
enum Found<'a> {
    Standing(&'a [Key]),
    Sorted(Keys),
}

impl<'a> Model for Ordered<'a> {
    ghost use Rattle.std.specs.Prelude.{List};
    ghost use Rattle.osm_base.specs.declared.key.Key.{Key};
    ghost use Rattle.osm_table.specs.Found.{keys_found};

    ghost Value = { List Key };

    ghost view = { λ o. keys_found o.keys };
}

impl<'a> Ordered<'a> {
    /// Keys that stand so.
    pub(crate) fn standing(keys: &'a [Key]) -> Ordered<'a>
        ensures { result ≡ keys.now }
    {
        Ordered {
            keys: Found::Standing(keys),
        }
    }

    /// A list of keys.
    pub(crate) fn sorted(keys: Keys) -> Ordered<'a>
        ensures { result ≡ keys }
    {
        Ordered {
            keys: Found::Sorted(keys),
        }
    }

    /// The keys.
    pub fn as_slice(&self) -> &[Key]
        ensures { result.now ≡ self.now }
    {
        match &self.keys {
            Found::Standing(keys) => *keys,
            Found::Sorted(keys) => keys.as_slice(),
        }
    }
}
