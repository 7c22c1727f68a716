//! Settles the body of a catch.
ghost use Rattle.std.specs.Prelude.{Err};
ghost use Rattle.moo_syntax_node.specs.Source.{source_codes};
ghost use Rattle.moo_eval_frame.specs.Outcome.{settled};
ghost use Rattle.moo_eval_frame.specs.Seen.{trace_of, failure_of, seen_value, HadMemoryIn, IsKnown, IsKnownFailure};
ghost use Rattle.moo_eval_control.specs.SeenCatching.{code_values};
ghost use Rattle.moo_eval_task.specs.Attempts.{IsSeen};

use crate::task::Task;
use moo_eval_control::{caught, is_caught};
use moo_eval_frame::{Activation, CallStack, Failure, Stop};
use moo_syntax_node::NodeCodes;
use moo_value::{ErrorCode, Value};

/// Holds how the body of a catch ended, if it was not stopped.
#[derive(Drop)]
pub enum Attempt {
    Value(Value),
    /// With an error that the codes of the catch name.
    Caught(ErrorCode),
}

impl Task {
    /// Returns how the body of a catch ends after this failure. With the d bit an error that the codes name is caught
    /// at once: it needs no traceback. Inlined, so that it needs no call.
    #[inline(always)]
    pub fn settle_attempt(
        &self,
        active: &Activation,
        stack: &CallStack<'_>,
        codes: &NodeCodes,
        values: &[Value],
        failure: Failure,
    ) -> Result<Attempt, Failure>
        ensures known { IsKnownFailure result → HadMemoryIn failure }
        ensures seen { IsKnownFailure result → IsSeen (source_codes codes.now) (code_values codes.now values.now) (settled stack.now.running.d (trace_of stack.now active.now) (Err (failure_of failure))) result }
    {
        match failure {
            Failure::Fails(code) if stack.running.d && is_caught(codes, values, code) => {
                Ok(Attempt::Caught(code))
            }
            failure => self.settle_uncaught(active, stack, codes, values, failure),
        }
    }

    // Returns how the body of a catch ends after any failure. Not inlined, so that nested catches need no stack space
    // for it.
    #[inline(never)]
    fn settle_uncaught(
        &self,
        active: &Activation,
        stack: &CallStack<'_>,
        codes: &NodeCodes,
        values: &[Value],
        failure: Failure,
    ) -> Result<Attempt, Failure>
        ensures known { IsKnownFailure result → HadMemoryIn failure }
        ensures seen { IsKnownFailure result → IsSeen (source_codes codes.now) (code_values codes.now values.now) (settled stack.now.running.d (trace_of stack.now active.now) (Err (failure_of failure))) result }
    {
        attempted(codes, values, self.settled(active, stack, failure))
    }
}

// Returns how the body of a catch ended.
fn attempted(
    codes: &NodeCodes,
    values: &[Value],
    outcome: Result<Value, Stop>,
) -> Result<Attempt, Failure>
    ensures known { IsKnownFailure result → IsKnown outcome }
    ensures seen { IsSeen (source_codes codes.now) (code_values codes.now values.now) (seen_value outcome) result }
{
    match caught(codes, values, &outcome) {
        Some(code) => Ok(Attempt::Caught(code)),
        None => Ok(Attempt::Value(outcome?)),
    }
}
