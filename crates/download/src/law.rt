//! What holds of the objects of a file, and of what is told of them.
ghost use Rattle.std.specs.Prelude.{◌≡◌, List, Option, ℕ, Ok};
ghost use Rattle.osm_base.specs.Tags.{Pair};
ghost use Rattle.osm_base.specs.declared.area.Area.{Area};
ghost use Rattle.osm_base.specs.declared.key.Key.{Key};
ghost use Rattle.osm_table.specs.Told.{told_at};
ghost use Rattle.opl_line.specs.declared.object.OplObject.{OplObject};
ghost use Rattle.opl_line.specs.declared.mode.Mode.TheVariants.{Download};
ghost use Rattle.opl_file.specs.Reading.{objects_of};
ghost use Rattle.download.specs.Tell.{AreTellable, told_of, told_by};
ghost use Rattle.download.specs.Filter.{filtered, filtered_by, tags_wanted};

/// Law: the objects of a file that was read as a download may be told.
pub fn what_is_read_may_be_told()
    ensures { (limit : ℕ) (bytes : List ℕ) (objects : List OplObject) → objects_of Download limit bytes ≡ Ok objects → AreTellable objects }
{}

/// Law: what is told of a key is what the last object of the key tells, and where there is none a mention if an
/// object refers to it.
pub fn told_by_key()
    ensures { (objects : List OplObject) (key : Key) → told_at (told_of objects) key ≡ told_by objects key }
{}

/// Law: what the filter tells of a key is what its object tells where that is kept, and else a mention if an object that
/// is kept refers to the key.
pub fn filtered_by_key()
    ensures { (objects : List OplObject) (area : Option Area) (wanted : Option (List Pair)) (key : Key) → told_at (filtered objects area wanted) key ≡ filtered_by objects area (tags_wanted wanted) key }
{}
