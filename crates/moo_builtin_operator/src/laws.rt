//! Laws of the operations.
ghost use Rattle.std.specs.Prelude.{◌≡◌, ◌↔◌, ℤ, List, Ok, Err, IsTrue, IfOk};
ghost use Rattle.std.specs.Int.{int_wrap, w32};
ghost use Rattle.moo_value.specs.declared.error_code.ErrorCode.TheVariants.{Quota};
ghost use Rattle.moo_value.specs.Tree.{Tree, IsValue, list_of};
ghost use Rattle.moo_value.specs.Size.{IsWithinLimits, IsStored};
ghost use Rattle.moo_value.specs.Compare.{IsTruthy, fold_letters};
ghost use Rattle.moo_syntax_ast.specs.declared.operator.UnaryOperator.{UnaryOperator};
ghost use Rattle.moo_syntax_ast.specs.declared.operator.BinaryOperator.{BinaryOperator};
ghost use Rattle.moo_builtin_operator.specs.Answer.{limited};
ghost use Rattle.moo_builtin_operator.specs.Truth.{is_true, equal};
ghost use Rattle.moo_builtin_operator.specs.Operators.{unary_of, binary_of};
ghost use Rattle.moo_builtin_operator.specs.Places.{index_of, range_of, made_list};
ghost use Rattle.moo_builtin_operator.specs.Assignment.{with_index_of, with_range_of};
ghost use Rattle.moo_builtin_operator.specs.Laws.{IsWrapped, DividesTowardsZero, FindsFirstPlace, IndexesRange, MeasuresRange};

/// An integer wrapped to 32 bits differs from the original by a multiple of 2^32.
pub fn wrapping_keeps_the_residue()
    ensures { (z : ℤ) → IsWrapped z (int_wrap w32 z) }
{}

/// Division truncates towards zero, and the remainder is what is left over; the least integer divided by -1 is the
/// exception.
pub fn division_truncates_towards_zero()
    ensures { DividesTowardsZero }
{}

/// The test of equality holds if and only if two values are the same with their letters folded.
pub fn equality_folds_letters()
    ensures { (a b : Tree) → IsTrue (equal a b) ↔ (fold_letters a ≡ fold_letters b) }
{}

/// The test of truth holds of the values that count as true.
pub fn truth_is_tested()
    ensures { (t : Tree) → IsTrue (is_true t) ↔ IsTruthy t }
{}

/// A value within the limits of weight and depth is kept; another one raises E_QUOTA.
pub fn limits_are_tested()
    ensures within { (t : Tree) → IsWithinLimits t → limited t ≡ Ok t }
    ensures past { (t : Tree) → (¬ IsWithinLimits t) → limited t ≡ Err Quota }
{}

/// `in` gives the first place of an equal element, or 0.
pub fn a_place_is_the_first()
    ensures { FindsFirstPlace }
{}

/// A range that is not empty holds the elements from its first place to its last.
pub fn a_range_is_a_part()
    ensures elements { IndexesRange }
    ensures length { MeasuresRange }
{}

/// For values within the limits of weight and depth, the operations give values within them.
pub fn values_stay_within_the_limits()
    ensures unary { (operator : UnaryOperator) (a : Tree) → IfOk (unary_of operator a) IsStored }
    ensures binary { (operator : BinaryOperator) (a b : Tree) → IsStored a → IsStored b → IfOk (binary_of operator a b) IsStored }
    ensures index { (base i : Tree) → IsStored base → IfOk (index_of base i) IsStored }
    ensures range { (base low high : Tree) → IsStored base → IfOk (range_of base low high) IsStored }
    ensures list { (ts : List Tree) → IsValue (list_of ts) → IfOk (made_list ts) IsStored }
    ensures with_index { (base i v : Tree) → IsStored base → IsStored v → IfOk (with_index_of base i v) IsStored }
    ensures with_range { (base low high v : Tree) → IsStored base → IsStored v → IfOk (with_range_of base low high v) IsStored }
{}
