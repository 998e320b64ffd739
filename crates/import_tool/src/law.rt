//! What holds of the new objects of a file.
ghost use Rattle.std.specs.Prelude.{◌≡◌, List, ℕ, Ok};
ghost use Rattle.opl_line.specs.declared.object.OplObject.{OplObject};
ghost use Rattle.opl_line.specs.declared.mode.Mode.TheVariants.{Import};
ghost use Rattle.opl_file.specs.Reading.{objects_of};
ghost use Rattle.osm_table.specs.Table.{TableValue};
ghost use Rattle.dataset.specs.Sound.{IsSound};
ghost use Rattle.tool_api.specs.declared.new_objects.NewObject.{NewObject};
ghost use Rattle.tool_api.specs.Changes.{Outcome};
ghost use Rattle.tool_api.specs.Import.{AreNewObjects, import};
ghost use Rattle.import_tool.specs.ByPlace.{IsImported};
ghost use Rattle.import_tool.specs.Counted.{new_objects_of};

/// Law: the new objects of a file that was read to be imported can be imported.
pub fn what_is_read_can_be_imported()
    ensures { (limit : ℕ) (bytes : List ℕ) (objects : List OplObject) → objects_of Import limit bytes ≡ Ok objects → AreNewObjects (new_objects_of objects) }
{}

/// Law: an import leaves each object under the key that follows, with its references renamed, and all else as it was.
pub fn imported_by_place()
    ensures { (t : TableValue) (limit : ℕ) (objects : List NewObject) (new : Outcome) → IsSound t → AreNewObjects objects → import t limit objects ≡ Ok new → IsImported t objects new }
{}
