//! Laws of reading numbers from strings.
ghost use Rattle.moo_builtin_value.specs.Spelling.{ReadsIntegers, ReadsObjects};

/// A string that spells an integer gives it, and one that spells none gives 0.
pub fn reads_integers()
    ensures { ReadsIntegers }
{}

/// A string that spells an object's number gives it, and one that spells none gives 0.
pub fn reads_objects()
    ensures { ReadsObjects }
{}
