//! What a squeeze and a fuse leave of the named objects.
ghost use Rattle.std.specs.Prelude.{◌≡◌, ◌≤◌, List, ℕ, length, true, false, Ok};
ghost use Rattle.osm_base.specs.declared.key.Key.{Key};
ghost use Rattle.osm_table.specs.Table.{TableValue};
ghost use Rattle.tool_api.specs.Changes.{Outcome};
ghost use Rattle.tool_api.specs.Checks.{is_named};
ghost use Rattle.tool_api.specs.Findings.{is_repeated};
ghost use Rattle.tool_api.specs.Fuse.{fuse};
ghost use Rattle.tool_api.specs.Squeeze.{squeeze};
ghost use Rattle.map_checks.specs.Kept.{KeepsOne};

/// Law: after a squeeze none of the named ways has equal references side by side.
pub fn a_squeeze_leaves_no_repeat()
    ensures { (t : TableValue) (limit : ℕ) (keys : List Key) (new : Outcome) → squeeze t limit keys ≡ Ok new → (k : Key) → is_named keys k ≡ true → is_repeated new.table k ≡ false }
{}

/// Law: after a fuse the kept node is the only one of the named that is living.
pub fn a_fuse_leaves_the_kept_node()
    ensures { (t : TableValue) (limit : ℕ) (nodes : List Key) (new : Outcome) → 2 ≤ length nodes → fuse t limit nodes ≡ Ok new → KeepsOne nodes new.table }
{}
