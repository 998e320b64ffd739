//! What edits keep of the bases, and what a table takes in with a download.
ghost use Rattle.std.specs.Prelude.{◌≡◌, ℕ, false};
ghost use Rattle.osm_table.specs.Table.{TableValue};
ghost use Rattle.osm_table.specs.Told.{ToldValue};
ghost use Rattle.dataset.specs.Sound.{IsSound};
ghost use Rattle.tool_api.specs.declared.job.Job.{Job};
ghost use Rattle.edit_history.specs.declared.edit_step.EditStep.{EditStep};
ghost use Rattle.edit_history.specs.Machine.{State};
ghost use Rattle.edit_history.specs.Steps.{edited};
ghost use Rattle.editor_laws.specs.Editing.{is_merge, IsEdit, EachTable, KeepsAllBases, KeepsSome};
ghost use Rattle.editor_laws.specs.Telling.{TakesBases, TakesEachSide, after_download};

/// Law: no job but a merge puts a base or theirs under a key where the old table doesn't have it, New excepted, and
/// none makes a table mention a positive key that the old one doesn't mention.
pub fn jobs_keep_bases()
    ensures { (j : Job) → is_merge j ≡ false → KeepsAllBases j }
{}

/// Law: each table of an editor after a step that neither takes in a download nor settles answers keeps the bases of some
/// table before it. So what goes over to all tables that keep the bases of one, and holds of each table before the step,
/// holds of each after it.
pub fn edits_keep_tables()
    ensures { (limit : ℕ) (step : EditStep) (s : State) → IsEdit step → EachTable (KeepsSome s) (edited limit step s).state }
{}

/// Law: a merge brings into a table no base or theirs but what is told of its key, and into a sound table no key but
/// those that are told of, and those to which something refers that is told live, or that a base or theirs of the table
/// held.
pub fn merges_take_bases()
    ensures sides { (t : TableValue) (told : ToldValue) (limit : ℕ) → TakesEachSide t told (after_download t told limit) }
    ensures bases { (t : TableValue) (told : ToldValue) (limit : ℕ) → IsSound t → TakesBases t told (after_download t told limit) }
{}
