//! What is saved is read again, and what is read was saved.
ghost use Rattle.std.specs.Prelude.{◌≡◌, ◌≤◌, ◌++◌, ◌∷◌, [], ℕ, List, Result, Ok, true, IsTrue, ◌↔◌};
ghost use Rattle.std.specs.List.{flat_map, list_all};
ghost use Rattle.std.specs.Option.{option_map_or};
ghost use Rattle.std.specs.FinMap as fin;
ghost use Rattle.osm_base.specs.declared.key.Key.{Key};
ghost use Rattle.osm_table.specs.Table.{TableValue, entry_of};
ghost use Rattle.osm_table.specs.declared.entry.Entry.{Entry};
ghost use Rattle.dataset.specs.Sound.{IsSound, IsSoundEntry, LivesIn};
ghost use Rattle.opl_file.specs.Cut.{lines_of};
ghost use Rattle.saved_session.specs.EntryTold.{told_lines};
ghost use Rattle.saved_session.specs.Resumed.{saved_table};
ghost use Rattle.saved_session.specs.Savable.{AreReadable, is_before};
ghost use Rattle.saved_session.specs.Saved.{ended, entry_lines, saved, saved_entry, saved_lines};
ghost use Rattle.saved_session.specs.SoundTest.{is_sound_at};
ghost use Rattle.saved_session.specs.Told.{IsTold, StandsIn};
ghost use Rattle.saved_session.specs.Words.{end_written, header_written};
ghost use Rattle.saved_session.specs.declared.fault.SavedFault.{SavedFault};

/// The text of a sound table gives the table again, where a reader of lines can give its objects and its entries are within
/// the limit: alone, and in a longer text where lines stand before it that aren't headers, and anything behind it.
#[tactic(auto, using(crate::proofs::TableAgain::alone, crate::proofs::TableAgain::among_lines))]
pub fn saved_is_read()
    ensures alone { (limit : ℕ) (t : TableValue) → IsSound t → AreReadable t → fin.len t.entries ≤ limit → saved_table limit (saved t) ≡ Ok t }
    ensures among_lines { (limit : ℕ) (t : TableValue) (front : List (List ℕ)) (behind : List ℕ) → IsSound t → AreReadable t → fin.len t.entries ≤ limit → list_all is_before front ≡ true → saved_table limit (ended front ++ (saved t ++ behind)) ≡ Ok t }
{}

/// A table that a text gives is sound, its entries are within the limit, and its saved session stands in the lines.
#[tactic(auto, using(crate::proofs::Read::given_fits))]
pub fn read_is_saved()
    ensures sound { (limit : ℕ) (bytes : List ℕ) (t : TableValue) → saved_table limit bytes ≡ Ok t → IsSound t }
    ensures fits { (limit : ℕ) (bytes : List ℕ) (t : TableValue) → saved_table limit bytes ≡ Ok t → fin.len t.entries ≤ limit }
    ensures lines { (limit : ℕ) (bytes : List ℕ) (t : TableValue) → saved_table limit bytes ≡ Ok t → StandsIn t (lines_of bytes) }
{}

/// The test of an entry says exactly what is asked of the entries of a sound table.
#[tactic(auto, using(crate::proofs::SoundTested::at_decides))]
pub fn test_is_exact()
    ensures { (t : TableValue) (key : Key) (e : Entry) → IsTrue (is_sound_at t key e) ↔ (IsSoundEntry t.next key e × LivesIn t e) }
{}

/// The answer that a text gives is the one that is told of its lines, and no other: so `specs/Told` says all that the reading
/// of a saved session means.
pub fn saved_table_is_told()
    ensures { (limit : ℕ) (bytes : List ℕ) (answer : Result TableValue SavedFault) → (saved_table limit bytes ≡ answer) ↔ IsTold limit (lines_of bytes) answer }
{}

/// An entry is saved in the lines that `specs/EntryTold` tells of it.
pub fn entry_is_told()
    ensures { (key : Key) (entry : Entry) (answer : List (List ℕ)) → (entry_lines key entry ≡ answer) ↔ (told_lines key entry ≡ answer) }
{}

/// A table is saved in a header, the lines of each entry by rank, and the last line.
pub fn lines_are_told()
    ensures { (t : TableValue) (answer : List (List ℕ)) → (saved_lines t ≡ answer) ↔ (header_written t.next ∷ (flat_map (λ e. entry_lines e.0 e.1) (fin.entries t.entries) ++ end_written ∷ []) ≡ answer) }
{}

/// The text of a table is its lines, each ended by LF.
pub fn text_is_told()
    ensures { (t : TableValue) (answer : List ℕ) → (saved t ≡ answer) ↔ (ended (saved_lines t) ≡ answer) }
{}

/// The text of the entry of a key is its lines, each ended by LF, and none where the table has no entry of it.
pub fn entry_text_is_told()
    ensures { (t : TableValue) (key : Key) (answer : List ℕ) → (saved_entry t key ≡ answer) ↔ (option_map_or (λ e. ended (entry_lines key e)) (entry_of t key) [] ≡ answer) }
{}
