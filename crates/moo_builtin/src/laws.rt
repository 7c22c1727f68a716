//! Laws of plain calls, of the operators, and of reading numbers.
ghost use Rattle.moo_builtin.specs.Laws.{OneResult, RaisesChangeNothing};

pub use moo_builtin_operator::laws::{
    a_place_is_the_first, a_range_is_a_part, division_truncates_towards_zero,
    equality_folds_letters, limits_are_tested, truth_is_tested, values_stay_within_the_limits,
    wrapping_keeps_the_residue,
};
pub use moo_builtin_value::laws::{reads_integers, reads_objects};
pub use moo_syntax_function::laws::calls_by_name;

/// For one input a call has at most one result.
pub fn at_most_one_result()
    ensures { OneResult }
{}

/// A call that raises an error leaves the world as it is.
pub fn raises_change_nothing()
    ensures { RaisesChangeNothing }
{}
