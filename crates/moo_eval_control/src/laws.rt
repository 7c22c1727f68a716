//! The law of scatters.
ghost use Rattle.moo_eval_control.specs.Dealing.{ValuesAreDealt, DealtInOneWay, DealtValuesFit};

/// If and only if a number of values fits a scatter, the values can be assigned to its names in order. The last of
/// the names with `?` get none if values are missing, and the name after `@` gets what the others leave. There is
/// exactly one such assignment.
pub fn every_value_is_dealt()
    ensures all { ValuesAreDealt }
    ensures only { DealtInOneWay }
    ensures fitting { DealtValuesFit }
{}
