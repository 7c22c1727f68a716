//! Laws of the faults that `parse` reports.
ghost use Rattle.std.specs.Prelude.{◌≡◌, ◌≢◌, ◌≤◌, ◌<◌, ◌⊎◌, ℕ, List, length};
ghost use Rattle.moo_syntax_ast.specs.Tree.{Block};
ghost use Rattle.moo_syntax_ast.specs.Limits.{most_nodes};
ghost use Rattle.moo_syntax_grammar.specs.declared.names.Names.{Names};
ghost use Rattle.moo_syntax_grammar.specs.Tokens.{words};
ghost use Rattle.moo_syntax_grammar.specs.Texts.{IsProgramOf, IsParsed};
ghost use Rattle.moo_syntax.specs.declared.syntax_fault.SyntaxFaultKind.{SyntaxFaultKind};
ghost use Rattle.moo_syntax.specs.declared.syntax_fault.SyntaxFaultKind.TheVariants.{Unexpected, TooDeep, Memory};
ghost use Rattle.moo_syntax.specs.Programs.{Blames, IsTooDeep, HasLongLine, text_length};

pub use moo_syntax_ast::laws::slots_are_the_variables;
pub use moo_syntax_grammar::laws::{
    admitted_programs, one_program, one_program_of_text, programs_are_loose,
    programs_under_any_names,
};
pub use moo_syntax_token::laws::{
    bad_is_last, each_text_has_a_reading, lines_within, names_are_names, one_reading,
    one_token_list, same_lines_same_fault, same_lines_same_tokens, spelling_is_read, tokens_or_bad,
};

/// Proves that the text of a program within the limits has no fault except out of memory.
pub fn programs_are_not_blamed()
    ensures { (names : Names) (lines : List (List ℕ)) (n : ℕ) (k : SyntaxFaultKind) (b : Block) → Blames names lines n k → k ≢ Memory → IsParsed names lines b → ⊥ }
{}

/// Proves that a text with a fault, except for limits and out of memory, is no program.
pub fn blamed_texts_are_no_programs()
    ensures { (names : Names) (lines : List (List ℕ)) (n : ℕ) (k : SyntaxFaultKind) (b : Block) → Blames names lines n k → k ≢ TooDeep → k ≢ Memory → IsProgramOf names lines b → ⊥ }
{}

/// Proves that a fault, except out of memory, is on a line of the text, counted from 1.
pub fn told_lines_are_lines()
    ensures { (names : Names) (lines : List (List ℕ)) (n : ℕ) (k : SyntaxFaultKind) → Blames names lines n k → k ≢ Memory → (1 ≤ n) × (n ≤ length lines) }
{}

/// Proves that a text has at most one line on which it stops being a program, whatever programs assign to, call and
/// jump out of.
pub fn one_unexpected_line()
    ensures { (names : Names) (lines : List (List ℕ)) (m n : ℕ) → Blames names lines m Unexpected → Blames names lines n Unexpected → m ≡ n }
{}

/// Proves that a text that is too deep has more bytes than a path may have nodes, or is a program with an overlong
/// line. A line is overlong if the full listing has it and no string holds it.
pub fn deep_texts_are_long()
    ensures { (names : Names) (lines : List (List ℕ)) (n : ℕ) (f : IsTooDeep names lines n) → (most_nodes < text_length lines) ⊎ HasLongLine names (words f.spots) }
{}
