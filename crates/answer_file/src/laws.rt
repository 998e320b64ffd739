//! What the definitions mean.
ghost use Rattle.std.specs.Prelude.{◌≡◌, List, Ok, ℕ, ℤ};
ghost use Rattle.osm_table.specs.Table.{TableValue};
ghost use Rattle.dataset.specs.Diff.{diff};
ghost use Rattle.upload_order.specs.declared.change.Change.{Change};
ghost use Rattle.upload_order.specs.World.{World};
ghost use Rattle.placeholder.specs.Answered.{AreAnswered};
ghost use Rattle.placeholder.specs.Confirm as placeholder;
ghost use Rattle.placeholder.specs.Confirmed.{confirmed_all};
ghost use Rattle.answer_file.specs.Answers.{answers_of, confirm_text};
ghost use Rattle.answer_file.specs.ByLine.{IsByLine};
ghost use Rattle.answer_file.specs.Text.{text_of};

/// The text of a server's answers to any number of first changes of a plan is taken, and gives the difference to the table after
/// these answers. From it the upload goes on (`resumed` of `confirm_file`).
pub fn text_is_confirmed()
    ensures { (w : World) (t : TableValue) (cs ds : List Change) (ids : List ℤ) → AreAnswered w t cs ds ids → confirm_text t (text_of (placeholder.answers_of cs ids)) ≡ Ok (diff t (confirmed_all t cs ids)) }
{}

/// What a file answers, by its lines: each answer is the one that its line gives, the wrong line gives none, and each line before
/// it is skipped or has an answer.
pub fn answers_by_line()
    ensures { (bytes : List ℕ) → IsByLine bytes (answers_of bytes) }
{}
