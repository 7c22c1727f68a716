//! Laws on loading.
ghost use Rattle.std.specs.Prelude.{◌≢◌, ◌++◌, ℕ, List, Result};
ghost use Rattle.moo_dbtext_record.specs.declared.fault.DbFault.{DbFault};
ghost use Rattle.moo_dbtext_record.specs.declared.fault.ProgramFault.{ProgramFault};
ghost use Rattle.moo_dbtext_record.specs.declared.fault.ProgramFaultKind.TheVariants.{TooDeep};
ghost use Rattle.moo_dbtext_read.specs.Faults.{Choice, IsProgramFault, chosen_by, through_program};
ghost use Rattle.moo_dbtext_read.specs.Saved.{Saved, SpellsSaved, SpellsSavedWithin};
ghost use Rattle.moo_dbtext_read.specs.declared.saved.Saved as stored;
ghost use Rattle.moo_dbtext_read.specs.Loading.{IsRefusedSo, LoadAnswers, LoadAnswersBy, IsKnown, AreAlike, AreSame};
ghost use Rattle.moo_dbtext_read.specs.Refusals.{Refuses};

/// If bytes spell a saved world within the size limits, they spell it without limits.
pub fn saved_within_limits_is_saved()
    ensures { (bytes : List ℕ) (s : Saved) → SpellsSavedWithin bytes s → SpellsSaved bytes s }
{}

/// The fault that is reported for refused bytes says why they are refused.
pub fn a_refusal_says_why()
    ensures { (bytes : List ℕ) (e : DbFault) → IsRefusedSo bytes e → Refuses bytes e }
{}

/// If a program's fault other than `TooDeep` is reported, no bytes that go on from the dot of this program spell a
/// saved world.
pub fn no_saved_world_goes_on_from_a_program()
    ensures { (bytes : List ℕ) (line o v : ℕ) (f : ProgramFault) (h : IsProgramFault bytes line o v f) → f.kind ≢ TooDeep
        → (more : List ℕ) (s : Saved) → ¬ (SpellsSaved (through_program h.place.before o v h.source ++ more) s) }
{}

/// If memory lasts, bytes have one answer: one saved world, or one fault on one line. Of a source that is no program,
/// either of two faults may be reported.
pub fn one_answer()
    ensures { (bytes : List ℕ) (a b : Result stored.Saved DbFault) → LoadAnswers a bytes → LoadAnswers b bytes → IsKnown a → IsKnown b → AreAlike a b }
{}

/// If one choice fixes the fault that is reported of each source that is no program, and memory lasts, bytes have one
/// answer: one saved world, or one fault.
pub fn one_answer_by_choice()
    ensures { (choice : Choice) (bytes : List ℕ) (a b : Result stored.Saved DbFault) → LoadAnswersBy (chosen_by choice) a bytes → LoadAnswersBy (chosen_by choice) b bytes
        → IsKnown a → IsKnown b → AreSame a b }
{}
