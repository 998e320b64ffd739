//! What tests of equality tell.
ghost use Rattle.std.specs.Prelude.{◌≡◌, Bool, List, ℕ, ℤ, ◌↔◌};
ghost use Rattle.osm_base.specs.Same.{same_text, same_refs, same_members, same_coord, same_content, same_meta};
ghost use Rattle.osm_base.specs.Told.{Tells};
ghost use Rattle.osm_base.specs.declared.content.Content.{Content};
ghost use Rattle.osm_base.specs.declared.coord.Coord.{Coord};
ghost use Rattle.osm_base.specs.declared.members.Member.{Member};
ghost use Rattle.osm_base.specs.declared.meta.Meta.{Meta};

/// Law: `same_text` says whether two texts are equal.
pub fn same_text_is_told()
    ensures { (a : List ℕ) (b : List ℕ) (answer : Bool) → (same_text a b ≡ answer) ↔ Tells (a ≡ b) answer }
{}

/// Law: `same_refs` says whether two lists of references are equal.
pub fn same_refs_is_told()
    ensures { (a : List ℤ) (b : List ℤ) (answer : Bool) → (same_refs a b ≡ answer) ↔ Tells (a ≡ b) answer }
{}

/// Law: `same_members` says whether two lists of members are equal.
pub fn same_members_is_told()
    ensures { (a : List Member) (b : List Member) (answer : Bool) → (same_members a b ≡ answer) ↔ Tells (a ≡ b) answer }
{}

/// Law: `same_coord` says whether two places are equal.
pub fn same_coord_is_told()
    ensures { (a : Coord) (b : Coord) (answer : Bool) → (same_coord a b ≡ answer) ↔ Tells (a ≡ b) answer }
{}

/// Law: `same_content` says whether two contents are equal.
pub fn same_content_is_told()
    ensures { (a : Content) (b : Content) (answer : Bool) → (same_content a b ≡ answer) ↔ Tells (a ≡ b) answer }
{}

/// Law: `same_meta` says whether two metadata are equal.
pub fn same_meta_is_told()
    ensures { (a : Meta) (b : Meta) (answer : Bool) → (same_meta a b ≡ answer) ↔ Tells (a ≡ b) answer }
{}
