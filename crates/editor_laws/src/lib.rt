//! Laws of one editor's steps: which bases its tables have, which edits they keep, and whose texts they have.
//!
//! **Bases** (`bases`, files named `Seen..`). An editor learns of the server by downloads and by the answers to its uploads.
//! Whatever job it does between them, each base and each theirs is one that was there before under the same key, and each id of the
//! server one that was there or was referred to (`jobs_keep_bases`). A download brings what it tells, and nothing else
//! (`merges_take_bases`). Groups, undo and redo choose among tables. So what is once known of the bases of all tables of an
//! editor, as that they stem from states of the server, stays true whatever it does (`edits_keep_tables`), and only what comes
//! from the server has to be looked at. `specs/Bases` has the words; `specs/Editing` says which steps of an editor are edits, and
//! what holds of all its tables.
//!
//! **Edits** (`edits`, files named `Kept..`). `specs/Kept` says what is wanted of an object here, which objects are edited, and
//! when an edit is kept in what stands under its key later: it is still to be sent, or the server is told to have it. A job changes
//! or forgets what `specs/Listed` lists, and leaves all else as it is (`jobs_leave_others`); of what it lists and doesn't name it
//! leaves the tags (`jobs_leave_own`), and of what it names the parts that aren't asked for (`jobs_leave_parts`). A download keeps
//! all edits (`merges_keep_edits`), and so do the answers of a server, one by one (`answers_keep_edits`) and where they are taken
//! (`confirmations_keep_edits`). So each step of an editor keeps each edited object, unless the step says that it changes or forgets
//! it (`runs_keep_edits`), and an upload sends what is edited, and nothing else (`uploads_send_edits`).
//!
//! **Others** (`edits`, files named `Heard..` and `Invented`). A download leaves nothing unheard that others changed
//! (`downloads_hear_others`, `specs/Heard`), and no job makes edits that nobody asked for (`jobs_invent_nothing`, `specs/Invented`).
//! `proofs/Refused` has wrong definitions that these laws refuse, as a merge that takes theirs as the base and makes no conflict.
//!
//! **Texts** (`texts`, files named `Text..`). Texts come into a table by jobs, downloads and saved sessions, and all of these were
//! read as lines. Whatever job is done with them, each text of the new table is one of the old table or of the job
//! (`jobs_keep_texts`). So all tables of an editor have texts that a reader of lines can give (`edits_keep_texts`), and a sound
//! table has a saved text that gives it again (`sound_tables_are_readable`).
//!
//! Here are laws alone, and no code; the lemmas that they rest on stand in `proofs/` for the crates above.
//!
//! Advice for who changes it: a job that is added to `tool_api` gets its line in `proofs/SeenJobs`, which says that all its table
//! has under a key is from the old table (`IsFrom` in `proofs/SeenKeeping`), and in `proofs/TextJobs`; what its contents refer to
//! goes to `proofs/SeenContents`, which texts they have to `proofs/TextContents`. What it changes it lists in `specs/Listed`, and
//! there, where it lists more than that, what it names; their proofs are lines of `proofs/KeptJobs` and `proofs/KeptOwns`. Whether it
//! may give an object other tags or another shape stands there too.
#![tactic(auto)]

mod bases;
mod edits;
mod texts;

pub use bases::{edits_keep_tables, jobs_keep_bases, merges_take_bases};
pub use edits::{
    answers_keep_edits, confirmations_keep_edits, downloads_hear_others, jobs_invent_nothing,
    jobs_leave_others, jobs_leave_own, jobs_leave_parts, joins_keep_parts, merges_keep_edits,
    runs_keep_edits, uploads_send_edits,
};
pub use texts::{edits_keep_texts, jobs_keep_texts, sound_tables_are_readable};
