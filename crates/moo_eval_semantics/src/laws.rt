//! The laws of evaluation.
ghost use Rattle.moo_eval_semantics.specs.Laws.{LaterAfterExpressions, LaterAfterStatements, LaterAfterCalls, LaterAfterHooks, TasksEndInTime};
ghost use Rattle.moo_eval_semantics.specs.Laws.{TicksOfExpressions, TicksOfStatements, TicksOfTurns};
ghost use Rattle.moo_eval_semantics.specs.Laws.{FramesInExpressions, FramesInStatements, FramesInHooks, FramesInTasks};
ghost use Rattle.moo_eval_semantics.specs.Laws.{ProgramsAreNotChosen, ExpressionsByChoice, StatementsByChoice, TasksByChoice, TextsByChoice};
ghost use Rattle.moo_eval_semantics.specs.Laws.{OneResultOfExpressionsBy, OneResultOfStatementsBy, OneResultOfTasksBy};
ghost use Rattle.moo_eval_semantics.specs.HookLaws.{CreateAnswersItsObject, MoveAnswersZero, RecycledIsGone};
ghost use Rattle.moo_eval_semantics.specs.Functions.{EachFunctionHasAGroup};
ghost use Rattle.moo_eval_semantics.specs.Line.{OneEndOfText};
ghost use Rattle.moo_eval_semantics.specs.Task.{OneResultOfExpressions, OneResultOfStatements, OneResultOfTasks};

/// Proves that for one input there is at most one result, for each choice of the faults that are reported.
pub fn at_most_one_result()
    ensures expressions { OneResultOfExpressions }
    ensures statements { OneResultOfStatements }
    ensures tasks { OneResultOfTasks }
{}

/// Proves that a text that is typed in has at most one end, for each choice of the faults that are reported.
pub fn one_end_of_text()
    ensures { OneEndOfText }
{}

/// Proves that ticks never rise, and that notices only grow. No step leaves more ticks than it began with, and every
/// step keeps the earlier notices. So a task ends with at most the ticks that it began with.
pub fn ticks_never_rise()
    ensures expressions { LaterAfterExpressions }
    ensures statements { LaterAfterStatements }
    ensures calls { LaterAfterCalls }
    ensures hooks { LaterAfterHooks }
    ensures tasks { TasksEndInTime }
{}

/// Proves that each expression, each statement and each turn of a loop takes a tick. If none is left, the task is out
/// of ticks and nothing changes.
pub fn ticks_are_taken()
    ensures expressions { TicksOfExpressions }
    ensures statements { TicksOfStatements }
    ensures turns { TicksOfTurns }
{}

/// Proves that at most 50 frames exist while a verb, or a program of `eval`, runs: its own, and those that wait for it.
pub fn at_most_fifty_frames()
    ensures expressions { FramesInExpressions }
    ensures statements { FramesInStatements }
    ensures hooks { FramesInHooks }
    ensures tasks { FramesInTasks }
{}

/// Proves that a result is among those that the program may have, if it comes by a choice of at most one fault for each
/// text. The choice may name only faults that the text has.
pub fn chosen_faults_may_be_told()
    ensures programs { ProgramsAreNotChosen }
    ensures expressions { ExpressionsByChoice }
    ensures statements { StatementsByChoice }
    ensures tasks { TasksByChoice }
    ensures texts { TextsByChoice }
{}

/// Proves that the result is the only one that the program may have, if faults are reported only for texts with exactly
/// one. Nothing is chosen then.
pub fn one_result_of_single_faults()
    ensures expressions { OneResultOfExpressionsBy }
    ensures statements { OneResultOfStatementsBy }
    ensures tasks { OneResultOfTasksBy }
{}

/// Proves that `create`, `move` and `recycle`, if they return, return a value of their own, whatever their verbs return
/// or do. `create` returns the object that it has made, the others return 0. A recycled object is then no object, and
/// the last notice says so.
pub fn functions_answer_their_own()
    ensures creation { CreateAnswersItsObject }
    ensures moves { MoveAnswersZero }
    ensures recycling { RecycledIsGone }
{}

/// Proves that every function of the table has a group. It is of the task, calls verbs, or is over the objects of the
/// world or on code. Otherwise it returns or raises something from values.
pub fn every_function_has_a_group()
    ensures { EachFunctionHasAGroup }
{}

pub use crate::hook_laws::{what_create_does, what_move_does, what_recycle_does};
