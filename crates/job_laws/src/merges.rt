//! What holds of merged tables.
ghost use Rattle.std.specs.Prelude.{◌≡◌, ◌↔◌, false, true};
ghost use Rattle.std.specs.FinMap as fin;
ghost use Rattle.osm_base.specs.declared.key.Key.{Key};
ghost use Rattle.osm_table.specs.Table.{TableValue, entry_of, IsThere};
ghost use Rattle.osm_table.specs.Told.{ToldEntries, IsToldMap};
ghost use Rattle.dataset.specs.Sound.{IsSound};
ghost use Rattle.tool_api.specs.Closing.{in_conflict};
ghost use Rattle.tool_api.specs.Merged.{merged};
ghost use Rattle.job_laws.specs.MergeChains.{EndsCandidates, EndsLost};
ghost use Rattle.job_laws.specs.MergeConflicts.{ends_in_conflict};
ghost use Rattle.job_laws.specs.MergeLaws.{IsUntold, KeepsChanges, KeepsDeletions, Stays};
ghost use Rattle.job_laws.specs.MergeOutcomes.{final_at, is_held, is_named, is_wanted};

/// Law: a sound table with a download merged into it is sound, and has what is said of each key.
pub fn merged_is_sound()
    ensures sound { (t : TableValue) (m : ToldEntries) → IsSound t → IsToldMap m → IsSound (merged t m) }
    ensures entries { (t : TableValue) (m : ToldEntries) (k : Key) → entry_of (merged t m) k ≡ final_at t m k }
{}

/// Law: where nothing is told of an object, it is as before if it is there, and if nothing refers to it in the end.
pub fn untold_stays()
    ensures there { (t : TableValue) (m : ToldEntries) (k : Key) → IsUntold m k → IsThere (entry_of t k) → Stays t m k }
    ensures unnamed { (t : TableValue) (m : ToldEntries) (k : Key) → IsUntold m k → is_named t m k ≡ false → Stays t m k }
{}

/// Law: just those lost objects are wanted at which a chain of lost ones ends, and just those candidates are held at which a
/// chain of candidates ends.
pub fn wanted_and_held_end_chains()
    ensures wanted { (t : TableValue) (m : ToldEntries) (k : Key) → IsSound t → (is_wanted t m k ≡ true) ↔ EndsLost t m k }
    ensures held { (t : TableValue) (m : ToldEntries) (k : Key) → IsSound t → (is_held t m k ≡ true) ↔ EndsCandidates t m k }
{}

/// Law: after a merge just those objects are in conflict that were told gone unchanged and live all the same, against which
/// theirs stands, or that were deleted here and live again. No case of the merge is asked for: what is here and what is told are.
pub fn conflicts_of_merges()
    ensures { (t : TableValue) (m : ToldEntries) (k : Key) → IsSound t → IsToldMap m → in_conflict (entry_of (merged t m) k) ≡ ends_in_conflict (entry_of t k) (fin.get m k) (entry_of (merged t m) k) }
{}

/// Law: a download never takes the place of an edit. An object that was changed here and lives keeps its content, or has
/// what is joined of both sides'; one that was deleted here is still deleted, or is in conflict.
pub fn edits_stay()
    ensures changes { (t : TableValue) (m : ToldEntries) → IsSound t → KeepsChanges t m }
    ensures deletions { (t : TableValue) (m : ToldEntries) → IsSound t → KeepsDeletions t m }
{}
