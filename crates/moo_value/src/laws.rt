//! Laws of the comparisons and texts of values.
ghost use Rattle.std.specs.Prelude.{◌≡◌, ◌≤◌, ◌<◌, ◌+◌, ◌⊎◌, ◌↔◌, ℕ, ℤ, List, Some, map, option_map};
ghost use Rattle.std.specs.Char.{to_ascii_lowercase};
ghost use Rattle.std.specs.Ordering.{ordering_reverse};
ghost use Rattle.std.specs.declared.cmp.Ordering.{Ordering};
ghost use Rattle.moo_value.specs.declared.error_code.ErrorCode.{ErrorCode};
ghost use Rattle.moo_value.specs.declared.value.Value.{Value};
ghost use Rattle.moo_value.specs.Tree.{Tree, integer, object, error, string, list_of};
ghost use Rattle.moo_value.specs.View.{tree};
ghost use Rattle.moo_value.specs.Compare.{fold_letters, folded, order};
ghost use Rattle.moo_value.specs.Equal.{IsEqual};
ghost use Rattle.moo_value.specs.Text.{literal};

/// Proves that folding maps A to Z in strings to a to z, inside lists too, and changes nothing else.
pub fn letters_are_folded()
    ensures capitals { (b : ℕ) → 65 ≤ b → b ≤ 90 → to_ascii_lowercase b ≡ b + 32 }
    ensures others { (b : ℕ) → (b < 65) ⊎ (90 < b) → to_ascii_lowercase b ≡ b }
    ensures strings { (s : List ℕ) → fold_letters (string s) ≡ string (map to_ascii_lowercase s) }
    ensures lists { (ts : List Tree) → fold_letters (list_of ts) ≡ list_of (map fold_letters ts) }
    ensures integers { (i : ℤ) → fold_letters (integer i) ≡ integer i }
    ensures objects { (o : ℤ) → fold_letters (object o) ≡ object o }
    ensures errors { (e : ErrorCode) → fold_letters (error e) ≡ error e }
{}

/// Proves what `==` of the language holds of: equal numbers of one type or equal errors; strings with the same bytes
/// except for the case of letters; lists of the same length whose elements are equal.
pub fn equal_but_for_letters()
    ensures { (t u : Tree) → (fold_letters t ≡ fold_letters u) ↔ IsEqual t u }
{}

/// Proves that `==` of the language is reflexive, symmetric and transitive.
pub fn equal_is_an_equivalence()
    ensures reflexive { (t : Tree) → IsEqual t t }
    ensures symmetric { (t u : Tree) → IsEqual t u → IsEqual u t }
    ensures transitive { (t u v : Tree) → IsEqual t u → IsEqual u v → IsEqual t v }
{}

/// Proves that two values of the program with the same tree are the same value.
pub fn same_is_equality()
    ensures { (v w : Value) → tree v ≡ tree w → v ≡ w }
{}

/// Proves that swapping two values reverses their order.
pub fn order_is_reversed()
    ensures { (t u : Tree) → order u t ≡ option_map ordering_reverse (order t u) }
{}

/// Proves that the order is transitive, and that values that are equal under `==` have the same order to every other
/// value.
pub fn order_is_transitive()
    ensures less { (t u v : Tree) → order t u ≡ Some Ordering.Less → order u v ≡ Some Ordering.Less → order t v ≡ Some Ordering.Less }
    ensures equal { (t u v : Tree) → fold_letters t ≡ fold_letters u → order t v ≡ order u v }
{}

/// Proves that two values of which neither is the lesser are equal under `==`.
pub fn ordered_as_equal_is_equal()
    ensures { (t u : Tree) → order t u ≡ Some Ordering.Equal → fold_letters t ≡ fold_letters u }
{}

/// Proves that the literals of equal values are equal except for the case of letters.
pub fn equal_values_read_alike()
    ensures { (t u : Tree) → fold_letters t ≡ fold_letters u → folded (literal t) ≡ folded (literal u) }
{}
