//! Laws on the lines of objects.
ghost use Rattle.std.specs.Prelude.{◌≡◌, ◌++◌, List, Ok, Some};
ghost use Rattle.moo_dbtext_object.specs.Lines.{Line, Sizes, limited, unlimited, IsStringOf, Cut};
ghost use Rattle.moo_dbtext_object.specs.Until.{until};
ghost use Rattle.moo_dbtext_object.specs.Objects.{Object, object_lines, IsObject};
ghost use Rattle.moo_dbtext_object.specs.ObjectReading.{Draft, fresh_draft, object_line};

/// The reader reads the lines of an object as that object, whatever the string is that is not kept, and stops at the
/// last of them. With size limits this holds if the object is within them.
pub fn written_objects_are_read()
    ensures { (s : Sizes) (o : Object) (note : Line) (rest : List Line) → IsObject s o → IsStringOf s note
        → until (object_line s) fresh_draft (object_lines o note ++ rest) ≡ Ok (fresh_draft, Some o, rest) }
{}

/// If a reader reads an object from lines, those lines are the lines of the object, with some string that is not
/// kept.
pub fn read_objects_are_written()
    ensures { (s : Sizes) (ls : List Line) (d : Draft) (o : Object) (rest : List Line) → until (object_line s) fresh_draft ls ≡ Ok (d, Some o, rest)
        → (note : Line) × (ls ≡ object_lines o note ++ rest) × IsObject unlimited o }
{}

/// Size limits change an answer only by refusing what exceeds them.
pub fn limits_only_refuse()
    ensures { (d : Draft) (line : Line) → Cut (object_line limited d line) (object_line unlimited d line) }
{}
