//! What each step leaves of what was edited here.
ghost use Rattle.std.specs.Prelude.{◌≡◌, ℕ, List, [], false, true, None, Ok, Some};
ghost use Rattle.osm_base.specs.declared.key.Key.{Key};
ghost use Rattle.osm_base.specs.declared.content.Content.{Content};
ghost use Rattle.osm_table.specs.declared.entry.Entry.{Entry};
ghost use Rattle.osm_table.specs.Table.{TableValue, entry_of};
ghost use Rattle.osm_table.specs.Told.{ToldEntries};
ghost use Rattle.dataset.specs.Patch.{PatchValue, after_of};
ghost use Rattle.dataset.specs.Sound.{IsSound};
ghost use Rattle.tool_api.specs.declared.job.Job.{Job};
ghost use Rattle.tool_api.specs.Plain.{plain};
ghost use Rattle.tool_api.specs.Merged.{merged};
ghost use Rattle.edit_history.specs.declared.edit_step.EditStep.{EditStep};
ghost use Rattle.edit_history.specs.Machine.{State};
ghost use Rattle.editor_laws.specs.Editing.{is_merge};
ghost use Rattle.upload_order.specs.Refused.{upload_refusal};
ghost use Rattle.placeholder.specs.declared.answer.Answer.{Answer};
ghost use Rattle.placeholder.specs.Confirm.{confirm};
ghost use Rattle.placeholder.specs.Laws.{FairAnswers};
ghost use Rattle.editor_laws.specs.Answered.{AnswerKeeps, EachAnswer, KeepsAllCalled, names_told};
ghost use Rattle.editor_laws.specs.Invented.{JobInventsNone, WasEdited};
ghost use Rattle.editor_laws.specs.Kept.{is_edited, KeepsAllIn};
ghost use Rattle.editor_laws.specs.Listed.{Leaves, LeavesOwn, LeavesParts, lists, names};
ghost use Rattle.editor_laws.specs.Parts.{JoinKeepsParts};
ghost use Rattle.editor_laws.specs.Sent.{SendsEdits, SendsNoMore};
ghost use Rattle.editor_laws.specs.Steps.{EachStep, IsFromSound, JobHears, KeepsEdits};
ghost use Rattle.editor_laws.specs.Texts.{BringsTexts, IsTextTable};

use merge_cases::each_tag_is_picked;

/// Law: what a job doesn't list is as it was, if the job takes in no download.
pub fn jobs_leave_others()
    ensures { (j : Job) (t : TableValue) (limit : ℕ) (k : Key) → IsSound t → is_merge j ≡ false → lists j t k ≡ false → Leaves j t limit k }
{}

/// Law: what a job lists and doesn't name keeps its base, its conflict and its tags, unless it goes with what an erase names.
pub fn jobs_leave_own()
    ensures { (j : Job) (t : TableValue) (limit : ℕ) (k : Key) → IsSound t → is_merge j ≡ false → names j t k ≡ false → LeavesOwn j t limit k }
{}

/// Law: of what a job names it leaves the parts that aren't asked for. A `tag` drops no geometry, and a `move` no tags; base and
/// conflict stay with them.
pub fn jobs_leave_parts()
    ensures { (j : Job) (t : TableValue) (limit : ℕ) → IsSound t → is_merge j ≡ false → LeavesParts j t (plain j t limit).table }
{}

/// Law: what was edited in a table is kept in the table with a download merged into it.
pub fn merges_keep_edits()
    ensures { (t : TableValue) (m : ToldEntries) → KeepsAllIn m t (merged t m) }
{}

/// Law: no job that is done leaves news unheard that it tells. So after a download each newer version that others made stands against
/// mine in a conflict, or it is the base and what they changed is in mine.
pub fn downloads_hear_others()
    ensures { (j : Job) (t : TableValue) (limit : ℕ) → IsTextTable t → BringsTexts j → JobHears limit j t }
{}

/// Law: no job makes an edit that it doesn't list, but new objects. So a download makes none at all.
pub fn jobs_invent_nothing()
    ensures jobs { (j : Job) (t : TableValue) (limit : ℕ) → IsSound t → JobInventsNone limit j t }
    ensures merges { (t : TableValue) (m : ToldEntries) → IsSound t → (k : Key) (e : Entry) → entry_of (merged t m) k ≡ Some e → is_edited e ≡ true → WasEdited (entry_of t k) }
{}

/// Law: no edit is lost in a run. Each step keeps each edited object, but those that it says it changes or forgets.
pub fn runs_keep_edits()
    ensures step { (limit : ℕ) (step : EditStep) (s : State) → IsSound s.now → KeepsEdits limit step s }
    ensures run { (limit : ℕ) (steps : List EditStep) (s : State) → EachStep IsFromSound limit steps s → EachStep (KeepsEdits limit) limit steps s }
{}

/// Law: the answers of a server to first changes of a plan keep what was edited, one after the other, under the ids that it gave.
pub fn answers_keep_edits()
    ensures { (t : TableValue) (a : FairAnswers t) → EachAnswer AnswerKeeps [] t a.changes a.ids }
{}

/// Law: where answers are taken, all that was edited is there after them, under the ids that they gave, and the same is wanted of
/// it as before.
pub fn confirmations_keep_edits()
    ensures { (t : TableValue) (answers : List Answer) (patch : PatchValue) → IsSound t → confirm t answers ≡ Ok patch → KeepsAllCalled (names_told [] answers) t (after_of patch t) }
{}

/// Law: the plan of an upload brings all that is edited, and nothing else.
pub fn uploads_send_edits()
    ensures all { (t : TableValue) → IsSound t → upload_refusal t ≡ None → SendsEdits t }
    ensures only { (t : TableValue) → IsSound t → upload_refusal t ≡ None → SendsNoMore t }
{}

/// Law: what is joined of three contents keeps each part that mine has otherwise than the base.
pub fn joins_keep_parts()
    ensures { (base mine theirs : Content) → JoinKeepsParts base mine theirs }
{
    each_tag_is_picked();
}
