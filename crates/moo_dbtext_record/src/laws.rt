//! Laws on the bytes of whole texts.
ghost use Rattle.std.specs.Prelude.{◌≡◌, ◌≢◌, ◌++◌, ◌⊎◌, ℕ, List, Ok, Err};
ghost use Rattle.moo_dbtext_object.specs.Lines.{Sizes, limited, unlimited, unlines};
ghost use Rattle.moo_dbtext_object.specs.declared.fault.LineFault.TheVariants.{TooLarge, Truncated};
ghost use Rattle.moo_dbtext_record.specs.Texts.{Text, Slack, text_lines, IsWritten, Spells, SpellsWithin, HasRecordsWithin};
ghost use Rattle.moo_dbtext_record.specs.Writing.{canonical, canonical_lines, IsWritable};
ghost use Rattle.moo_dbtext_record.specs.Answer.{Told, answer_to, front_lines};

/// The reader reads the bytes of a text as that text, whatever they hold in the fields that are not kept. With size
/// limits this holds if the text is within them.
pub fn written_texts_are_read()
    ensures { (s : Sizes) (t : Text) (k : Slack) → IsWritten s t k → answer_to s (unlines (text_lines t k)) ≡ Ok t }
{}

/// If the reader reads a text from bytes, those bytes spell it.
pub fn read_texts_are_spelled()
    ensures { (s : Sizes) (bytes : List ℕ) (t : Text) → answer_to s bytes ≡ Ok t → Spells bytes t }
{}

/// No bytes spell two texts.
pub fn bytes_spell_one_text()
    ensures { (bytes : List ℕ) (t u : Text) → Spells bytes t → Spells bytes u → t ≡ u }
{}

/// If bytes spell a text within the size limits, they spell it without limits.
pub fn texts_within_limits_are_texts()
    ensures { (bytes : List ℕ) (t : Text) → SpellsWithin bytes t → Spells bytes t }
{}

/// Size limits change an answer only by refusing what exceeds them.
pub fn limits_only_refuse()
    ensures { (bytes : List ℕ)
        → (answer_to limited bytes ≡ answer_to unlimited bytes) ⊎ ((n : ℕ) × (answer_to limited bytes ≡ Err (record { line = n; fault = TooLarge }))) }
{}

/// If a line is refused, no text begins with the lines up to it. Under size limits, no text within them does. A
/// truncated text is excepted.
pub fn no_text_goes_on_from_a_fault()
    ensures { (s : Sizes) (bytes : List ℕ) (e : Told) → answer_to s bytes ≡ Err e → e.fault ≢ Truncated
        → (more : List ℕ) (t : Text) (k : Slack) → IsWritten s t k → front_lines e.line bytes ++ more ≢ unlines (text_lines t k) }
{}

/// A text that has a written form has the canonical one. That has 0 and empty strings in the fields that are not kept,
/// and the programs in rising order of object and verb.
pub fn texts_may_be_written_in_order()
    ensures { (s : Sizes) (t : Text) (k : Slack) → IsWritten s t k → IsWritten s t (canonical t.programs) }
{}

/// The canonical lines of a text spell it, whatever bytes it was read from.
pub fn the_writers_lines_spell_the_text()
    ensures { (bytes : List ℕ) (t : Text) → Spells bytes t → Spells (unlines (canonical_lines t)) t }
{}

/// The reader reads the canonical lines of a text as that text. With size limits this holds if the records are within
/// them.
pub fn the_writers_lines_are_read()
    ensures { (s : Sizes) (t : Text) → IsWritable s t → answer_to s (unlines (canonical_lines t)) ≡ Ok t }
{}

/// If a text is read, written and read again, the records stay equal, whatever bytes it was read from first.
pub fn copies_are_read_alike()
    ensures { (bytes : List ℕ) (t : Text) → Spells bytes t → answer_to unlimited (unlines (canonical_lines t)) ≡ Ok t }
{}

/// If the reader reads a text under the size limits, the bytes spell it within them.
pub fn read_texts_are_spelled_within_limits()
    ensures { (bytes : List ℕ) (t : Text) → answer_to limited bytes ≡ Ok t → SpellsWithin bytes t }
{}

/// If the reader reads a text under the size limits, its objects are within them, and so is the number of its records
/// of each kind.
pub fn read_texts_have_records_within_limits()
    ensures { (bytes : List ℕ) (t : Text) → answer_to limited bytes ≡ Ok t → HasRecordsWithin t }
{}
