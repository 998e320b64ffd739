//! Reading is the format.

ghost use Rattle.std.specs.Prelude.{◌≡◌, List, ℕ, Result, Ok, ◌↔◌};
ghost use Rattle.osm_base.specs.declared.key.Kind.{Kind};
ghost use Rattle.opl_line.specs.declared.mode.Mode.{Mode};
ghost use Rattle.opl_line.specs.declared.fault.LineFault.{LineFault};
ghost use Rattle.opl_line.specs.declared.object.Fields.{Fields};
ghost use Rattle.opl_line.specs.declared.object.LineKind.{LineKind};
ghost use Rattle.opl_line.specs.Field.{field_into};
ghost use Rattle.opl_line.specs.Line.{line_of};
ghost use Rattle.opl_line.specs.Spelling.{Means};
ghost use Rattle.opl_line.specs.Told.{with_field};
ghost use Rattle.opl_line.specs.Writable.{IsReadObject};

/// Each line means one thing, which is what is read: it is skipped, or it spells one object and
/// no other, or it has its one fault. No two of these hold of a line.
pub fn read_as_spelled()
    ensures some { (mode : Mode) (line : List ℕ) → Means mode line (line_of mode line) }
    ensures no_other { (mode : Mode) (line : List ℕ) (meaning : Result LineKind LineFault) → Means mode line meaning → line_of mode line ≡ meaning }
    // What was read has all that its written form asks for.
    ensures writable { (mode : Mode) (line : List ℕ) (kind : LineKind) → line_of mode line ≡ Ok kind → IsReadObject mode kind }
{}

/// What is read of a field is what its byte tells, and nothing else: so `specs/Told` says all that the fields of a line mean.
pub fn field_is_told()
    ensures { (mode : Mode) (kind : Kind) (fields : Fields) (piece : List ℕ) (answer : Result Fields LineFault) → (field_into mode kind fields piece ≡ answer) ↔ (with_field mode kind fields piece ≡ answer) }
{}
