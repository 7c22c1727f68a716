//! Laws of the variables of every program.
ghost use Rattle.std.specs.Prelude.{◌≡◌, ◌++◌, ℕ, List, false, map};
ghost use Rattle.std.specs.List.{IsDistinct, list_any};
ghost use Rattle.std.specs.Str.{bytes_eq};
ghost use Rattle.moo_value.specs.Compare.{folded};
ghost use Rattle.moo_syntax_ast.specs.Tree.{Block};
ghost use Rattle.moo_syntax_ast.specs.Slots.{block_variables, firsts, slots};

/// Proves that the slots of a program are the names of its variables in lower case, each once. If the variables begin
/// with some names, the slots begin with the first occurrences among these.
pub fn slots_are_the_variables()
    ensures once { (b : Block) → IsDistinct bytes_eq (slots b) }
    ensures each { (b : Block) (name : List ℕ) → list_any (bytes_eq name) (slots b) ≡ list_any (bytes_eq name) (map folded (block_variables b)) }
    ensures order { (b : Block) (front back : List (List ℕ)) → map folded (block_variables b) ≡ front ++ back → (rest : List (List ℕ)) × (slots b ≡ firsts (λ _. false) front ++ rest) }
{}
