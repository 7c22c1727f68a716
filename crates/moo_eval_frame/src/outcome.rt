//! How evaluation may end.
ghost use Rattle.std.specs.Prelude.{◌≡◌, true, IfOk, IfErr, IsErrAnd};
ghost use Rattle.moo_value.specs.View.{tree};
ghost use Rattle.moo_eval_frame.specs.Outcome.{settled, plain_raise, raised_by, out_of_ticks};
ghost use Rattle.moo_eval_frame.specs.Seen.{raise_of, trace_of, stop_of, failure_of, seen_value, seen_answer, IsKnown, IsKnownFailure, HadMemory, HadMemoryIn, LacksOnlyWhere, MayLack};

use crate::frame::{Activation, CallStack, TraceEntry};
use moo_builtin_operator::OperationFault;
use moo_value::{ErrorCode, ListLimit, MooStr, Value};
use std::alloc::{AllocError, Global};

/// Holds an error that was raised. It is on the heap, so that an outcome is small.
#[derive(Drop)]
pub struct Raise {
    pub account: Box<Account>,
}

/// Holds the code and the details of an error that was raised, with the entries from where it was raised.
#[derive(Drop)]
pub struct Account {
    pub code: ErrorCode,
    pub message: MooStr,
    pub value: Value,
    pub trace: Vec<TraceEntry>,
}

impl Raise {
    /// Returns an error that is raised with this message and this value.
    pub fn new(
        alloc: Global,
        code: ErrorCode,
        message: MooStr,
        value: Value,
        trace: Vec<TraceEntry>,
    ) -> Result<Raise, AllocError>
        ensures { IfOk result (λ raise. raise_of raise ≡ record { code = code; message = message; value = tree value; trace = trace.items }) }
    {
        let account = Account {
            code,
            message,
            value,
            trace,
        };
        match Box::new(alloc, account) {
            Ok(account) => Ok(Raise { account }),
            Err(_) => Err(AllocError),
        }
    }
}

/// Holds the reason why an expression or a statement did not end normally.
#[derive(Drop)]
pub enum Stop {
    Raised(Raise),
    /// No tick was left: the entries from where it was needed, on the heap. No handler and no cleanup runs.
    OutOfTicks(Box<Vec<TraceEntry>>),
    /// Memory ran out.
    Memory,
}

impl Stop {
    /// Returns the end of a task that has no tick left, with these entries. It is `Memory` if memory runs out.
    pub fn out_of_ticks(alloc: Global, trace: Vec<TraceEntry>) -> Stop
        ensures { HadMemory result → stop_of result ≡ out_of_ticks trace.items }
    {
        match Box::new(alloc, trace) {
            Ok(trace) => Stop::OutOfTicks(trace),
            Err(_) => Stop::Memory,
        }
    }
}

/// Names where execution continues after a statement.
#[derive(Drop)]
pub enum Flow {
    /// To the next statement.
    Next,
    /// Out of the program, with its value.
    Return(Value),
    /// Out of the loop of this name, or out of the innermost.
    Break(Option<MooStr>),
    /// To the next turn of the loop of this name, or of the innermost.
    Continue(Option<MooStr>),
}

/// Holds the reason why a node has no value: an error of its own, or a stop of a part of it.
#[derive(Drop)]
pub enum Failure {
    Fails(ErrorCode),
    Stops(Stop),
}

impl From<AllocError> for Stop {
    ghost use Rattle.moo_eval_frame.specs.declared.outcome.Stop.{Stop};

    ghost from_gives = { λ _ stop. stop ≡ Stop.Memory };

    fn from(_: AllocError) -> Stop {
        Stop::Memory
    }
}

impl From<AllocError> for Failure {
    ghost use Rattle.moo_eval_frame.specs.declared.outcome.Failure.{Failure};
    ghost use Rattle.moo_eval_frame.specs.declared.outcome.Stop.{Stop};

    ghost from_gives = { λ _ failure. failure ≡ Failure.Stops Stop.Memory };

    fn from(_: AllocError) -> Failure {
        Failure::Stops(Stop::Memory)
    }
}

impl From<ErrorCode> for Failure {
    ghost use Rattle.moo_eval_frame.specs.declared.outcome.Failure.{Failure};

    ghost from_gives = { λ code failure. failure ≡ Failure.Fails code };

    fn from(code: ErrorCode) -> Failure {
        Failure::Fails(code)
    }
}

impl From<Stop> for Failure {
    ghost use Rattle.moo_eval_frame.specs.declared.outcome.Failure.{Failure};
    ghost use Rattle.moo_eval_frame.specs.declared.outcome.Stop.{Stop};

    ghost from_gives = { λ stop failure. failure ≡ Failure.Stops stop };

    fn from(stop: Stop) -> Failure {
        Failure::Stops(stop)
    }
}

impl From<OperationFault> for Failure {
    ghost use Rattle.moo_eval_frame.specs.declared.outcome.Failure.{Failure};
    ghost use Rattle.moo_eval_frame.specs.Fault.{failed};

    ghost from_gives = { λ fault failure. failure ≡ failed fault };

    fn from(fault: OperationFault) -> Failure {
        match fault {
            OperationFault::Raise(code) => Failure::Fails(code),
            OperationFault::Memory => Failure::Stops(Stop::Memory),
        }
    }
}

impl From<ListLimit> for Failure {
    ghost use Rattle.moo_eval_frame.specs.declared.outcome.Failure.{Failure};
    ghost use Rattle.moo_eval_frame.specs.Fault.{refused};

    ghost from_gives = { λ fault failure. failure ≡ refused fault };

    fn from(fault: ListLimit) -> Failure {
        match fault {
            ListLimit::TooLarge => Failure::Fails(ErrorCode::Quota),
            ListLimit::Memory => Failure::Stops(Stop::Memory),
        }
    }
}

// Returns an error that is raised with its own message, and 0 as its value.
fn plain_raise(alloc: Global, code: ErrorCode, trace: Vec<TraceEntry>) -> Result<Raise, AllocError>
    ensures { IfOk result (λ raise. raise_of raise ≡ plain_raise code trace.items) }
{
    let Ok(message) = MooStr::try_from_bytes(alloc, code.message().as_bytes()) else {
        return Err(AllocError);
    };
    Raise::new(alloc, code, message, Value::Int(0), trace)
}

/// Returns the outcome of a node. With the d bit an error of the node is raised, and without it the error is the value.
/// A stop of a part stays as it is.
pub fn settle(
    alloc: Global,
    stack: &CallStack<'_>,
    active: &Activation,
    outcome: Result<Value, Failure>,
) -> Result<Value, Stop>
    ensures outcome { IsKnown result → settled stack.now.running.d (trace_of stack.now active.now) (seen_answer outcome) ≡ seen_value result }
    ensures known { IsKnown result → IsKnownFailure outcome }
    ensures memory { IfErr result (LacksOnlyWhere (IsErrAnd outcome (MayLack stack.now.running.d))) }
{
    match outcome {
        Ok(value) => Ok(value),
        Err(Failure::Stops(stop)) => Err(stop),
        Err(Failure::Fails(code)) => {
            if !stack.running.d {
                return Ok(Value::Err(code));
            }
            let trace = stack.trace(alloc, active)?;
            Err(Stop::Raised(plain_raise(alloc, code, trace)?))
        }
    }
}

/// Returns the stop of a failure. An error of the node itself is raised, whatever the d bit is.
pub fn raised(alloc: Global, stack: &CallStack<'_>, active: &Activation, failure: Failure) -> Stop
    ensures stop { HadMemory result → stop_of result ≡ raised_by (trace_of stack.now active.now) (failure_of failure) }
    ensures known { HadMemory result → HadMemoryIn failure }
    ensures memory { LacksOnlyWhere (MayLack true failure) result }
{
    match failure {
        Failure::Stops(stop) => stop,
        Failure::Fails(code) => match raise_here(alloc, stack, active, code) {
            Ok(raise) => Stop::Raised(raise),
            Err(AllocError) => Stop::Memory,
        },
    }
}

// Returns the error as it is raised in the running frame.
fn raise_here(
    alloc: Global,
    stack: &CallStack<'_>,
    active: &Activation,
    code: ErrorCode,
) -> Result<Raise, AllocError>
    ensures { IfOk result (λ raise. raise_of raise ≡ plain_raise code (trace_of stack.now active.now)) }
{
    let trace = stack.trace(alloc, active)?;
    plain_raise(alloc, code, trace)
}
