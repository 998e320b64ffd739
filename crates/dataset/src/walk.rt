//! Entries of keys that are asked for one after the other.
ghost use Rattle.std.specs.Prelude.{◌≡◌};
ghost use Rattle.std.specs.Option.{option_copied};
ghost use Rattle.osm_table.specs.Table.{entry_of};

use crate::dataset::DataSet;
use osm_base::Key;
use osm_table::SharedEntry;
use std::cell::Cell;

impl DataSet {
    /// As `entry`, in a walk: the key is sought first at the place `near`, which then is the one behind it. So a walk over
    /// keys in the order in which they came in pays no look-up, and one for each key that stands elsewhere.
    pub fn entry_along<'a>(&'a self, near: &Cell<usize>, key: Key) -> Option<&'a SharedEntry>
        ensures { option_copied result ≡ entry_of self.now key }
    {
        let (behind, entry) = self.entry_near(near.get(), key)?;
        near.set(behind);
        Some(entry)
    }
}
