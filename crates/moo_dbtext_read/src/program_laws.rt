//! Laws on the faults of sources and of whole texts.
ghost use Rattle.std.specs.Prelude.{◌≡◌, ◌≢◌, ◌++◌, ℕ, List};
ghost use Rattle.moo_syntax_ast.specs.Tree.{Block};
ghost use Rattle.moo_dbtext_record.specs.Texts.{Text, Spells};
ghost use Rattle.moo_dbtext_record.specs.Answer.{answer_to};
ghost use Rattle.moo_dbtext_record.specs.declared.fault.DbFault.{DbFault};
ghost use Rattle.moo_dbtext_record.specs.declared.fault.DbFaultKind.TheVariants.{Memory};
ghost use Rattle.moo_dbtext_record.specs.declared.fault.ProgramFault.{ProgramFault};
ghost use Rattle.moo_dbtext_record.specs.declared.fault.ProgramFaultKind.TheVariants.{TooDeep};
ghost use Rattle.moo_syntax_grammar.specs.declared.names.Names.TheVariants.{Any};
ghost use Rattle.moo_syntax_grammar.specs.Texts.{IsProgramOf, IsParsed};
ghost use Rattle.moo_dbtext_object.specs.Lines.{Line, limited};
ghost use Rattle.moo_dbtext_read.specs.Says.{HasPrograms};
ghost use Rattle.moo_dbtext_read.specs.Faults.{IsBlamed, IsProgramFault, AreToldAlike, Choice, TellsBy, chosen_by, through_program};
ghost use Rattle.moo_dbtext_read.specs.Reading.{IsRefused};

/// A source that is reported as a fault has no program within the limits. It has no program at all, unless it is too
/// deep.
pub fn what_is_blamed_is_no_program()
    ensures program { (source : List Line) (f : ProgramFault) (b : Block) → IsBlamed source f → f.kind ≢ TooDeep → ¬ (IsProgramOf Any source b) }
    ensures within { (source : List Line) (f : ProgramFault) (b : Block) → IsBlamed source f → ¬ (IsParsed Any source b) }
{}

/// If a program's fault other than `TooDeep` is reported, no text goes on from the bytes up to the dot that ends this
/// program and has only programs as sources.
pub fn no_text_goes_on_from_a_program()
    ensures { (bytes : List ℕ) (line o v : ℕ) (f : ProgramFault) (h : IsProgramFault bytes line o v f) → f.kind ≢ TooDeep
        → (more : List ℕ) (t : Text) → Spells (through_program h.place.before o v h.source ++ more) t → ¬ (HasPrograms t) }
{}

/// If memory lasts, one fault of a text is reported: its first wrong line, or a program's fault at the dot of that
/// program. Which fault of one program is reported stays open.
pub fn one_fault_is_told()
    ensures { (bytes : List ℕ) (d e : DbFault) → IsRefused bytes (answer_to limited bytes) d → IsRefused bytes (answer_to limited bytes) e
        → d.kind ≢ Memory → e.kind ≢ Memory → AreToldAlike d e }
{}

/// If one choice fixes the fault that is reported of each source that is no program, one fault of a text is reported,
/// as long as memory lasts.
pub fn one_fault_by_choice()
    ensures { (choice : Choice) (bytes : List ℕ) (d e : DbFault) → IsRefused bytes (answer_to limited bytes) d → IsRefused bytes (answer_to limited bytes) e
        → TellsBy (chosen_by choice) bytes d → TellsBy (chosen_by choice) bytes e → d.kind ≢ Memory → e.kind ≢ Memory → d ≡ e }
{}
