//! Laws of the programs of token lists.
ghost use Rattle.std.specs.Prelude.{◌≡◌, ℕ, List};
ghost use Rattle.moo_syntax_token.specs.declared.token.Token.{Token};
ghost use Rattle.moo_syntax_ast.specs.Tree.{Block};
ghost use Rattle.moo_syntax_grammar.specs.declared.names.Names.{Names};
ghost use Rattle.moo_syntax_grammar.specs.declared.names.Names.TheVariants.{Any};
ghost use Rattle.moo_syntax_grammar.specs.Rules.{Rules, Admits, loose};
ghost use Rattle.moo_syntax_grammar.specs.Grammar.{IsProgram, IsProgramBy};
ghost use Rattle.moo_syntax_grammar.specs.Texts.{IsProgramOf};

/// Proves that a list of tokens is at most one program, under any rules.
pub fn one_program()
    ensures { (g : Rules) (ts : List Token) (b c : Block) → IsProgramBy g ts b → IsProgramBy g ts c → b ≡ c }
{}

/// Proves that a program under some rules is one under all rules that require no more.
pub fn admitted_programs()
    ensures { (g h : Rules) (ts : List Token) (b : Block) → Admits g h → IsProgramBy h ts b → IsProgramBy g ts b }
{}

/// Proves that a program is also one under the rules that require only the forms.
pub fn programs_are_loose()
    ensures { (names : Names) (ts : List Token) (b : Block) → IsProgram names ts b → IsProgramBy loose ts b }
{}

/// Proves that the program of a text stays its program if any function name may be called.
pub fn programs_under_any_names()
    ensures { (names : Names) (lines : List (List ℕ)) (b : Block) → IsProgramOf names lines b → IsProgramOf Any lines b }
{}

/// Proves that a text is at most one program.
pub fn one_program_of_text()
    ensures { (names : Names) (lines : List (List ℕ)) (b c : Block) → IsProgramOf names lines b → IsProgramOf names lines c → b ≡ c }
{}
