//! What is joined of three contents, said with no walk over their tags, and what a choice by parts adds to it.
ghost use Rattle.std.specs.Prelude.{◌≡◌, ◌↔◌, T, ℕ, Bool, List, Option, Some, None};
ghost use Rattle.osm_base.specs.Content.{kind_of_content};
ghost use Rattle.osm_base.specs.Tags.{Pair, are_tags, value_of};
ghost use Rattle.osm_base.specs.Told.{Tells};
ghost use Rattle.osm_base.specs.declared.content.Content.{Content};
ghost use Rattle.merge_cases.specs.declared.choice.Side.{Side};
ghost use Rattle.merge_cases.specs.Join.{joined, joined_tags, same_kind, same_pick, same_value, tag_value};
ghost use Rattle.merge_cases.specs.declared.pick.Pick.{Pick};
ghost use Rattle.merge_cases.specs.Resolve.{in_parts};

/// Law: of each key the tags that come of three have the value that `pick3` gives of its three values,
/// where no such tag is a value too, and no tags come only where it gives none of some key.
pub fn each_tag_is_picked()
    ensures value { (b m t tags : List Pair) → T (are_tags m) → T (are_tags t) → joined_tags b m t ≡ Some tags
        → (key : List ℕ) → tag_value b m t key ≡ Some (value_of tags key) }
    ensures clash { (b m t : List Pair) → joined_tags b m t ≡ None → (key : List ℕ) × (tag_value b m t key ≡ None) }
{}

/// Law: where nothing clashes, the content that comes in parts is the one that a merge would join,
/// whatever keys are listed and whichever side is named.
pub fn parts_settle_clashes_alone()
    ensures { (body : Side) (listed : List (List ℕ)) (base mine theirs content : Content) → joined base mine theirs ≡ Some content
        → in_parts body listed base mine theirs ≡ Some content }
{}

/// Law: `same_pick` says whether two picks are equal.
pub fn same_pick_is_told()
    ensures { (a : Pick) (b : Pick) (answer : Bool) → (same_pick a b ≡ answer) ↔ Tells (a ≡ b) answer }
{}

/// Law: `same_value` says whether two values of a tag are equal, where no such tag is a value too.
pub fn same_value_is_told()
    ensures { (a : Option (List ℕ)) (b : Option (List ℕ)) (answer : Bool) → (same_value a b ≡ answer) ↔ Tells (a ≡ b) answer }
{}

/// Law: `same_kind` says whether two contents are those of objects of one kind.
pub fn same_kind_is_told()
    ensures { (a : Content) (b : Content) (answer : Bool) → (same_kind a b ≡ answer) ↔ Tells (kind_of_content a ≡ kind_of_content b) answer }
{}
