//! What tests of equality tell.
ghost use Rattle.std.specs.Prelude.{◌≡◌, Bool, Option, ◌↔◌};
ghost use Rattle.osm_base.specs.Told.{Tells};
ghost use Rattle.osm_base.specs.declared.content.Content.{Content};
ghost use Rattle.osm_table.specs.Same.{same_why, same_mine, same_entry};
ghost use Rattle.osm_table.specs.declared.entry.Entry.{Entry};
ghost use Rattle.osm_table.specs.declared.entry.Why.{Why};

/// Law: `same_why` says whether two causes of conflicts are equal.
pub fn same_why_is_told()
    ensures { (a : Why) (b : Why) (answer : Bool) → (same_why a b ≡ answer) ↔ Tells (a ≡ b) answer }
{}

/// Law: `same_mine` says whether two contents are equal, where none is equal to none.
pub fn same_mine_is_told()
    ensures { (a : Option Content) (b : Option Content) (answer : Bool) → (same_mine a b ≡ answer) ↔ Tells (a ≡ b) answer }
{}

/// Law: `same_entry` says whether two entries are equal.
pub fn same_entry_is_told()
    ensures { (a : Entry) (b : Entry) (answer : Bool) → (same_entry a b ≡ answer) ↔ Tells (a ≡ b) answer }
{}
