//! Laws on words.
ghost use Rattle.std.specs.Prelude.{◌≡◌, ◌≤◌, ◌+◌, ℕ, List, length, map};
ghost use Rattle.moo_value.specs.Tree.{string};
ghost use Rattle.moo_value.specs.Size.{list_weight};
ghost use Rattle.moo_command.specs.Words.{Words};
ghost use Rattle.moo_command.specs.FirstWord.{IsTyped};

/// A line has at most one reading as words.
pub fn one_reading()
    ensures { (line : List ℕ) (ws vs : List (List ℕ)) → Words line ws → Words line vs → ws ≡ vs }
{}

/// A line has at most one first word, one rest and one list of the words in the rest.
pub fn one_typed()
    ensures { (line verb other rest instead : List ℕ) (args words : List (List ℕ)) →
        IsTyped line verb rest args → IsTyped line other instead words → (verb ≡ other) × (rest ≡ instead) × (args ≡ words) }
{}

/// The list of a line's words weighs at most 2 more than the line has bytes.
pub fn words_are_light()
    ensures words { (line : List ℕ) (ws : List (List ℕ)) → Words line ws → list_weight (map (λ w. string w) ws) ≤ length line + 2 }
    ensures typed { (line verb rest : List ℕ) (args : List (List ℕ)) →
        IsTyped line verb rest args → list_weight (map (λ w. string w) args) ≤ length line + 2 }
{}
