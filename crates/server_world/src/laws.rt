//! What the definitions mean.
ghost use Rattle.std.specs.Prelude.{◌≡◌, ◌+◌, ℕ, [], ◌∷◌, List, length, Option, Some, None};
ghost use Rattle.osm_base.specs.declared.key.Kind.{Kind};
ghost use Rattle.osm_table.specs.Table.{TableValue, IsPositive};
ghost use Rattle.upload_order.specs.declared.change.Change.{Change};
ghost use Rattle.upload_order.specs.Run.{run_from};
ghost use Rattle.upload_order.specs.World.{World, refusal, after, IsSoundWorld, Holds, Alone};
ghost use Rattle.upload_order.specs.declared.world.WorldRefusal.{WorldRefusal};
ghost use Rattle.server_world.specs.Bases.{of_bases};
ghost use Rattle.server_world.specs.Free.{free_id, FitsMemory, IsFreeId};
ghost use Rattle.server_world.specs.Picks.{free_picks, told_of, RunsTo};
ghost use Rattle.server_world.specs.Rehearsed.{rehearsed};
ghost use Rattle.server_world.specs.Sent.{pick_for};
ghost use Rattle.server_world.specs.Unsound.{first_unsound};

/// Law: a rehearsal is the run of the changes, with the least free id for each object that is made.
pub fn rehearsal_is_run()
    ensures { (t : TableValue) (w : World) (cs : List Change) → rehearsed t 0 w cs ≡ told_of (length cs) (run_from 1 w cs (free_picks w t cs)) }
{}

/// Law: so is what is sent one change after the other, up to the first that is refused. How many are taken, the world after
/// them and why the next one is refused are those of that run.
pub fn sends_are_runs()
    ensures none { (t : TableValue) (w : World) → RunsTo t w w [] 0 None }
    ensures refused { (t : TableValue) (w : World) (c : Change) (cs : List Change) (why : WorldRefusal) → refusal w c (pick_for w t c) ≡ Some why → RunsTo t w w (c ∷ cs) 0 (Some why) }
    ensures taken { (t : TableValue) (w v : World) (c : Change) (cs : List Change) (count : ℕ) (why : Option WorldRefusal) → refusal w c (pick_for w t c) ≡ None → RunsTo t (after w c (pick_for w t c)) v cs count why → RunsTo t w v (c ∷ cs) (count + 1) why }
{}

/// Law: ids don't run out. The least free id is from 1 to 10^18, whatever stands; and it stands nowhere, where memory may have
/// room for the objects of the world and of the table.
pub fn ids_do_not_run_out()
    ensures given { (w : World) (t : TableValue) (kind : Kind) → IsPositive (free_id w t kind) }
    ensures free { (w : World) (t : TableValue) (kind : Kind) → FitsMemory w t → IsFreeId w t kind (free_id w t kind) }
{}

/// Law: there is a server as the promises of uploads want it, the one that has the bases of the table. It has them, and nothing
/// else in it refers to what is deleted, whatever the table is; and it is sound where no object of it refers to what isn't
/// there, as one may where downloads disagree.
pub fn a_server_exists()
    ensures holds { (t : TableValue) → Holds (of_bases t) t }
    ensures alone { (t : TableValue) → Alone (of_bases t) t }
    ensures sound { (t : TableValue) → first_unsound (of_bases t) ≡ None → IsSoundWorld (of_bases t) }
{}
