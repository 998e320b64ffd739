//! What holds of the pieces of a way, their keys, and the one that stays, said with no loop.
ghost use Rattle.std.specs.Prelude.{◌≡◌, ◌+◌, ◌-◌, ◌<◌, ◌≤◌, ◌++◌, ◌∷◌, ℕ, ℤ, Bool, List, length, map};
ghost use Rattle.osm_base.specs.declared.key.Key.{Key};
ghost use Rattle.tool_api.specs.Split.{keyed, kept_number, others, pieces};
ghost use Rattle.job_laws.specs.SplitPieces.{IsFirstLongest, IsOlder, keys_of, LieBetween, new_ways};

/// Law: the pieces of two references or more lie between their cuts, and no other pieces do. The references are those of
/// an open way, or the circle of a closed one, read from its first cut round to the same node.
pub fn pieces_lie_between_cuts()
    ensures some { (cut : ℤ → Bool) (refs : List ℤ) → 2 ≤ length refs → LieBetween cut refs (pieces cut refs) }
    ensures no_other { (cut : ℤ → Bool) (refs : List ℤ) (ps : List (List ℤ)) → LieBetween cut refs ps → ps ≡ pieces cut refs }
{}

/// Law: the piece that stays in the way is the first of the longest.
pub fn first_longest_is_kept()
    ensures { (ps : List (List ℤ)) → 0 < length ps → IsFirstLongest ps (kept_number ps) }
{}

/// Law: the keys along the way are new ones in order, but for the way's own at the piece that is kept. The pieces stay.
pub fn keys_go_along_the_way()
    ensures pieces { (way : Key) (kept next : ℕ) (ps : List (List ℤ)) → map (λ p. p.1) (keyed way kept 0 next ps) ≡ ps }
    ensures keys { (way : Key) (kept next : ℕ) (ps : List (List ℤ)) → kept < length ps → keys_of (keyed way kept 0 next ps) ≡ new_ways next kept ++ way ∷ new_ways (next + kept) (length ps - (kept + 1)) }
    // The new ways' keys are those without the way's.
    ensures new { (way : Key) (kept next : ℕ) (ps : List (List ℤ)) → kept < length ps → IsOlder way next → keys_of (others way (keyed way kept 0 next ps)) ≡ new_ways next (length ps - 1) }
{}
