//! The laws of calls.
ghost use Rattle.moo_eval_call.specs.Laws.{OneResultOfCalls, RaisesChangeNothing};

/// For one input a call has at most one result.
pub fn at_most_one_result()
    ensures { OneResultOfCalls }
{}

/// A call that raises an error leaves the state as it is: the world, the variables, the programmer, the ticks and the
/// notices.
pub fn raises_change_nothing()
    ensures { RaisesChangeNothing }
{}
