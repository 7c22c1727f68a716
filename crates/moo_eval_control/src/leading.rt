//! The control flow of loops and cleanups, and what a `for` visits.
ghost use Rattle.std.specs.Prelude.{◌≡◌, Ok, Err, option_copied, IfOk, IfErr, OnErr, IsSome, IsTrue};
ghost use Rattle.moo_value.specs.View.{tree};
ghost use Rattle.moo_eval_control.specs.Leading.{is_meant, after_turn, no_turn, runs_finally, after_finally, span_of, numbered};
ghost use Rattle.moo_eval_frame.specs.Seen.{flow_of, seen_flow, seen_turn, trace_of, IsKnown, LacksOnlyWhere};

use moo_eval_frame::{Activation, CallStack, Failure, Flow, Stop, is_same_name, raised};
use moo_value::{ErrorCode, MooStr, Value};
use std::alloc::{AllocError, Global};

/// Holds the integers or objects that a `for` visits, from `low` up to `high`. If `high` is less, there are none.
#[derive(Drop)]
pub struct Span {
    pub low: i32,
    pub high: i32,
    pub are_objects: bool,
}

impl Span {
    /// Returns the span from one integer or object up to another; E_TYPE for other values.
    pub fn new(low: &Value, high: &Value) -> Result<Span, ErrorCode>
        ensures ok { IfOk result (λ span. span_of (tree low.now) (tree high.now) ≡ Ok span) }
        ensures err { IfErr result (λ code. span_of (tree low.now) (tree high.now) ≡ Err code) }
    {
        let (low, high, are_objects) = match (low, high) {
            (Value::Int(low), Value::Int(high)) => (*low, *high, false),
            (Value::Obj(low), Value::Obj(high)) => (*low, *high, true),
            _ => return Err(ErrorCode::TypeMismatch),
        };
        Ok(Span {
            low,
            high,
            are_objects,
        })
    }

    /// Returns the integer or object of this number.
    pub fn value(&self, number: i32) -> Value
        ensures { tree result ≡ numbered self.now.are_objects number }
    {
        if self.are_objects {
            Value::Obj(number)
        } else {
            Value::Int(number)
        }
    }
}

/// Returns a copy of the loop name in a statement, which shares its bytes.
pub fn copied_name(name: &Option<MooStr>) -> Result<Option<MooStr>, AllocError>
    ensures copy { IfOk result (λ copy. copy ≡ name.now) }
    ensures memory { OnErr result (IsSome name.now) }
{
    match name {
        None => Ok(None),
        Some(name) => Ok(Some(name.try_clone()?)),
    }
}

// Returns whether a statement means the loop of this name; without a name it means any loop.
fn is_meant(own: Option<&MooStr>, meant: &Option<MooStr>) -> bool
    ensures { result ≡ is_meant (option_copied own.entry) meant.now }
{
    match (own, meant) {
        (_, None) => true,
        (None, Some(_)) => false,
        (Some(own), Some(meant)) => is_same_name(own, meant),
    }
}

/// Returns how a loop of this name ends after a turn with this flow, or `None` if it goes on.
#[inline]
pub fn after_turn(own: Option<&MooStr>, flow: Flow) -> Option<Flow>
    ensures { seen_turn (Ok result) ≡ after_turn (option_copied own.entry) (Ok (flow_of flow)) }
{
    match flow {
        Flow::Next => None,
        Flow::Return(value) => Some(Flow::Return(value)),
        Flow::Break(name) => {
            if is_meant(own, &name) {
                return Some(Flow::Next);
            }
            Some(Flow::Break(name))
        }
        Flow::Continue(name) => {
            if is_meant(own, &name) {
                return None;
            }
            Some(Flow::Continue(name))
        }
    }
}

/// Returns the outcome of a `for` that raises an error before its first turn. With the d bit the error is raised, and
/// without it there is no turn.
pub fn no_turn(
    alloc: Global,
    stack: &CallStack<'_>,
    active: &Activation,
    code: ErrorCode,
) -> Result<Flow, Stop>
    ensures flow { IsKnown result → no_turn stack.now.running.d (trace_of stack.now active.now) code ≡ seen_flow result }
    ensures memory { IfErr result (LacksOnlyWhere (IsTrue stack.now.running.d)) }
{
    if !stack.running.d {
        return Ok(Flow::Next);
    }
    Err(raised(alloc, stack, active, Failure::Fails(code)))
}

/// Returns whether a cleanup runs after this outcome: not if the ticks have run out, or memory.
pub fn runs_finally(outcome: &Result<Flow, Stop>) -> bool
    ensures outcome { IsKnown outcome.now → result ≡ runs_finally (seen_flow outcome.now) }
    ensures known { IsTrue result → IsKnown outcome.now }
{
    match outcome {
        Ok(_) | Err(Stop::Raised(_)) => true,
        Err(Stop::OutOfTicks(_) | Stop::Memory) => false,
    }
}

/// Returns the outcome of a `try` with a cleanup: the cleanup's, or if the cleanup ends normally that of the body.
pub fn after_finally(body: Result<Flow, Stop>, cleanup: Result<Flow, Stop>) -> Result<Flow, Stop>
    ensures outcome { seen_flow result ≡ after_finally (seen_flow body) (seen_flow cleanup) }
    ensures known { IsKnown result → IsKnown cleanup }
{
    match cleanup {
        Ok(Flow::Next) => body,
        Ok(Flow::Return(value)) => Ok(Flow::Return(value)),
        Ok(Flow::Break(name)) => Ok(Flow::Break(name)),
        Ok(Flow::Continue(name)) => Ok(Flow::Continue(name)),
        Err(stop) => Err(stop),
    }
}
