//! What holds of conflicts that are resolved in parts, said with no walk over their tags.
ghost use Rattle.std.specs.Prelude.{◌≡◌, T, ℕ, List, Some};
ghost use Rattle.osm_base.specs.Content.{tags_of};
ghost use Rattle.osm_base.specs.Tags.{Pair, are_tags, value_of};
ghost use Rattle.osm_base.specs.declared.content.Content.{Content};
ghost use Rattle.merge_cases.specs.declared.choice.Side.{Side};
ghost use Rattle.merge_cases.specs.declared.pick.Pick.{Pick};
ghost use Rattle.merge_cases.specs.Join.{picked_by};
ghost use Rattle.merge_cases.specs.Resolve.{in_parts};
ghost use Rattle.job_laws.specs.ResolveParts.{HasParts, value_picked};

/// Law: of each key the tags that are picked have the value of the side whose tag stands, where no such tag is a value too. So
/// it is of what comes in parts, and its body is that of the side whose body stands.
pub fn parts_are_picked_by_key()
    ensures picked { (whose : List ℕ → Pick) (m t : List Pair) → T (are_tags m) → T (are_tags t)
        → (key : List ℕ) → value_of (picked_by whose m t) key ≡ value_picked (whose key) (value_of m key) (value_of t key) }
    ensures parts { (side : Side) (listed : List (List ℕ)) (base mine theirs content : Content) → T (are_tags (tags_of mine)) → T (are_tags (tags_of theirs))
        → in_parts side listed base mine theirs ≡ Some content → HasParts side listed base mine theirs content }
{}
