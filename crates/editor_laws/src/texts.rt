//! Where the texts of a table are from.
ghost use Rattle.std.specs.Prelude.{ℕ};
ghost use Rattle.osm_table.specs.Table.{TableValue};
ghost use Rattle.dataset.specs.Sound.{IsSound};
ghost use Rattle.tool_api.specs.declared.job.Job.{Job};
ghost use Rattle.edit_history.specs.declared.edit_step.EditStep.{EditStep};
ghost use Rattle.edit_history.specs.Machine.{State};
ghost use Rattle.edit_history.specs.Steps.{edited};
ghost use Rattle.saved_session.specs.Savable.{AreReadable};
ghost use Rattle.editor_laws.specs.Editing.{EachTable};
ghost use Rattle.editor_laws.specs.Texts.{BringsTexts, IsTextTable, KeepsTexts, StepBringsTexts};

/// Law: a job whose texts may be written, a merge and an import too, leaves a table whose texts may be written where the old
/// one's may.
pub fn jobs_keep_texts()
    ensures { (j : Job) → BringsTexts j → KeepsTexts j }
{}

/// Law: so it is of each table of an editor after a step, where it was of each before it.
pub fn edits_keep_texts()
    ensures { (limit : ℕ) (step : EditStep) (s : State) → StepBringsTexts step → EachTable IsTextTable s → EachTable IsTextTable (edited limit step s).state }
{}

/// Law: a reader of lines can give each object of a sound table whose texts may be written.
pub fn sound_tables_are_readable()
    ensures { (t : TableValue) → IsSound t → IsTextTable t → AreReadable t }
{}
