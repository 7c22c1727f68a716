//! Laws on the lines of values, and on size limits.
ghost use Rattle.std.specs.Prelude.{◌≡◌, ◌++◌, List, Ok, Some};
ghost use Rattle.moo_value.specs.Size.{IsStored};
ghost use Rattle.moo_value.specs.Tree.{Tree};
ghost use Rattle.moo_dbtext_object.specs.Lines.{Line, Sizes, limited, unlimited, Cut};
ghost use Rattle.moo_dbtext_object.specs.ValueLines.{value_lines, IsWritable, KeepsLimits};
ghost use Rattle.moo_dbtext_object.specs.Until.{until};
ghost use Rattle.moo_dbtext_object.specs.Reading.{Partial, begun, value_line};

/// The reader reads the lines of a value as that value, and stops at the last of them. With size limits this holds if
/// the value is within them.
pub fn written_values_are_read()
    ensures { (s : Sizes) (t : Tree) (rest : List Line) → IsWritable t → KeepsLimits s t → until (value_line s) begun (value_lines t ++ rest) ≡ Ok (begun, Some t, rest) }
{}

/// If a reader reads a value from lines, those lines are the lines of the value.
pub fn read_values_are_written()
    ensures lines { (s : Sizes) (ls : List Line) (p : Partial) (t : Tree) (rest : List Line) → until (value_line s) begun ls ≡ Ok (p, Some t, rest) → ls ≡ value_lines t ++ rest }
    ensures writable { (s : Sizes) (ls : List Line) (p : Partial) (t : Tree) (rest : List Line) → until (value_line s) begun ls ≡ Ok (p, Some t, rest) → IsWritable t }
{}

/// The lines of two different values differ, and neither value's lines are a prefix of the other's.
pub fn lines_are_of_one_value()
    ensures { (t u : Tree) (more : List Line) → IsWritable t → IsWritable u → value_lines t ++ more ≡ value_lines u → t ≡ u }
{}

/// Size limits change an answer only by refusing what exceeds them.
pub fn limits_only_refuse()
    ensures { (p : Partial) (line : Line) → Cut (value_line limited p line) (value_line unlimited p line) }
{}

/// Every value that may be stored has lines.
pub fn stored_values_are_writable()
    ensures { (t : Tree) → IsStored t → IsWritable t }
{}
