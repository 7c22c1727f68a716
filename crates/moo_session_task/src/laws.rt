//! The laws of tasks.
ghost use Rattle.moo_session_task.specs.Laws.{OneResultOfCalls, OneResultOfHooks};

/// Proves that a call of the server, and the hooks that wait, have at most one result for one input. This holds for
/// each choice of the faults that are reported for texts that are no programs.
#[tactic(none)]
pub fn at_most_one_result()
    ensures calls { OneResultOfCalls }
    ensures hooks { OneResultOfHooks }
{
    moo_eval::laws::at_most_one_result();
}
