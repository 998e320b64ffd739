//! What holds of a file in any pieces.
ghost use Rattle.std.specs.Prelude.{◌≡◌, ℕ, [], List, ◌↔◌};
ghost use Rattle.opl_line.specs.declared.mode.Mode.{Mode};
ghost use Rattle.opl_file.specs.declared.reader.Reader.{Reader};
ghost use Rattle.opl_file.specs.Cut.{lines_of};
ghost use Rattle.opl_file.specs.Lines.{told_lines};
ghost use Rattle.opl_file.specs.Reading.{objects_of, finished_of};
ghost use Rattle.opl_file.specs.Feeding.{reads_on, lends_on};
ghost use Rattle.opl_file.specs.Pieces.{Begins, Fed, joined};

/// Law: a new reader that was fed with any pieces, one after the other, reads and lends just what
/// the whole file does, in whichever pieces it came.
pub fn same_for_any_pieces()
    ensures read { (mode : Mode) (limit : ℕ) (new last : Reader) (pieces : List (List ℕ)) → Begins mode limit new → Fed new pieces last → reads_on last [] ≡ objects_of mode limit (joined pieces) }
    ensures lent { (mode : Mode) (limit : ℕ) (new last : Reader) (pieces : List (List ℕ)) → Begins mode limit new → Fed new pieces last → lends_on last [] ≡ finished_of mode limit (joined pieces) }
{}

/// Law: a file is cut into the lines that `specs/Lines` tells.
pub fn lines_are_told()
    ensures { (bytes : List ℕ) (answer : List (List ℕ)) → (lines_of bytes ≡ answer) ↔ (told_lines bytes ≡ answer) }
{}
