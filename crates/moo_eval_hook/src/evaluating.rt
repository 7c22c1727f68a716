//! `eval`: 'MOO-Code Evaluation and Task Manipulation' of the LambdaMOO Programmer's Manual, 'Functions that call
//! verbs' of docs/reference/language.md.
ghost use Rattle.std.specs.Prelude.{◌≡◌, ◌∷◌, [], true, IfOk};
ghost use Rattle.moo_value.specs.Tree.{integer};
ghost use Rattle.moo_value.specs.View.{tree, trees};
ghost use Rattle.moo_builtin_operator.specs.Places.{made_list};
ghost use Rattle.moo_eval_frame.specs.Outcome.{answers};
ghost use Rattle.moo_eval_frame.specs.Seen.{seen_answer, IsKnownFailure};
ghost use Rattle.moo_eval_access.specs.SeenCalled.{entered_of};
ghost use Rattle.moo_builtin.specs.Setting.{is_of_text};
ghost use Rattle.moo_builtin.specs.Telling.{Faults};
ghost use Rattle.moo_eval_semantics.specs.Evaluating.{typed_frame, begun_below, typed_below, program_next, no_program, has_given, EvaluatesText, EvalBegins};
ghost use Rattle.moo_eval_hook.specs.SeenByHooks.{calling_of, seen_progress};

use crate::hook::{text, through};
use crate::progress::Progress;
use moo_builtin::{is_programmer, told_fault};
use moo_builtin_operator::list;
use moo_eval_access::{Called, has_frame_left};
use moo_eval_frame::{Activation, CallStack, Failure, Frame, GivenValues};
use moo_eval_semantics::Stage;
use moo_syntax::{SyntaxFault, parse};
use moo_syntax_grammar::Names;
use moo_syntax_program::Program;
use moo_value::{ErrorCode, MooList, MooStr, Value};
use moo_world::World;
use std::alloc::{AllocError, Global};

/// Runs a text as a program: E_PERM if the programmer doesn't have the programmer flag. For a text that is no program
/// it returns the value that describes a fault of it. Then E_MAXREC if no frame is left.
pub(crate) fn begin_evaluating<'a>(
    alloc: Global,
    world: &World,
    stack: &'a CallStack<'_>,
    active: &Activation,
    args: &[Value],
) -> Result<Progress<'a>, Failure>
    ensures { IsKnownFailure result → EvalBegins Faults (calling_of stack.now active.now) world.now (trees args.now) (seen_progress result) }
{
    match args {
        [Value::Str(text)] => evaluate_text(alloc, world, stack, active, text),
        _ => Err(Failure::Fails(ErrorCode::TypeMismatch)),
    }
}

fn evaluate_text<'a>(
    alloc: Global,
    world: &World,
    stack: &'a CallStack<'_>,
    active: &Activation,
    text: &MooStr,
) -> Result<Progress<'a>, Failure>
    ensures { IsKnownFailure result → EvaluatesText Faults (calling_of stack.now active.now) world.now text.now (seen_progress result) }
{
    if !is_programmer(world, active.programmer) {
        return Err(Failure::Fails(ErrorCode::Permission));
    }
    let text = text.try_clone()?;
    match parse(alloc, &[text], Names::Known) {
        Ok(program) => program_next(alloc, stack, active, program),
        Err(fault) => Ok(Progress::Done(no_program(alloc, &fault)?)),
    }
}

// Returns the value that describes a fault of the text; any other fault is Err.
fn no_program(alloc: Global, fault: &SyntaxFault) -> Result<Value, Failure>
    ensures text { IsKnownFailure result → answers (no_program fault.now) ≡ seen_answer result }
    ensures kind { IsKnownFailure result → is_of_text fault.now.kind ≡ true }
{
    let lines = told_fault(alloc, fault)?;
    flagged(alloc, 0, lines)
}

/// Returns the value of `eval` for a program that has ended with this value, `{1, value}`: E_QUOTA past the limits of
/// a list.
pub(crate) fn has_given(alloc: Global, value: Value) -> Result<Value, Failure>
    ensures { IsKnownFailure result → answers (has_given (tree value)) ≡ seen_answer result }
{
    flagged(alloc, 1, value)
}

// Returns a list of a flag and a value; E_QUOTA past the limits.
fn flagged(alloc: Global, flag: i32, value: Value) -> Result<Value, Failure>
    ensures { IsKnownFailure result → answers (made_list (integer flag ∷ tree value ∷ [])) ≡ seen_answer result }
{
    let values = pair(alloc, Value::Int(flag), value)?;
    Ok(list(alloc, values)?)
}

fn pair(alloc: Global, first: Value, second: Value) -> Result<Vec<Value>, AllocError>
    ensures { IfOk result (λ pair. trees pair.items ≡ tree first ∷ tree second ∷ []) }
{
    let mut values = Vec::new(alloc);
    values.push(first)?;
    values.push(second)?;
    Ok(values)
}

fn program_next<'a>(
    alloc: Global,
    stack: &'a CallStack<'_>,
    active: &Activation,
    program: Program,
) -> Result<Progress<'a>, Failure>
    ensures { IsKnownFailure result → program_next (calling_of stack.now active.now) program ≡ seen_progress result }
{
    if !has_frame_left(stack) {
        return Err(Failure::Fails(ErrorCode::MaximumRecursion));
    }
    let called = typed_below(alloc, stack, active, program)?;
    Ok(Progress::verb_next(alloc, called, Stage::Evaluated)?)
}

fn typed_below<'a>(
    alloc: Global,
    stack: &'a CallStack<'_>,
    active: &Activation,
    program: Program,
) -> Result<Called<'a>, AllocError>
    ensures { IfOk result (λ called. entered_of called ≡ typed_below (calling_of stack.now active.now) program) }
{
    let caller = &stack.running;
    let frame = typed_frame(
        alloc,
        program,
        active.programmer,
        caller.player,
        caller.this,
    )?;
    let called = begun_below(alloc, stack, active, frame)?;
    Ok(through("eval", called))
}

// Begins a frame that the running one calls.
fn begun_below<'a>(
    alloc: Global,
    stack: &'a CallStack<'_>,
    active: &Activation,
    frame: Frame,
) -> Result<Called<'a>, AllocError>
    ensures { IfOk result (λ called. entered_of called ≡ begun_below (calling_of stack.now active.now) frame) }
{
    let callers = stack.callers_of_called(active)?;
    let given = GivenValues::first(alloc, &frame)?;
    Ok(Called {
        stack: CallStack {
            running: frame.running(),
            callers,
            surroundings: stack.surroundings,
        },
        given,
    })
}

/// Returns the frame of a program that is typed in, with the d bit. `this`, the definer, `dobj` and `iobj` are #-1.
/// The strings are empty, except the names, which are `Input to EVAL`, and there are no arguments.
pub fn typed_frame(
    alloc: Global,
    program: Program,
    programmer: i32,
    player: i32,
    caller: i32,
) -> Result<Frame, AllocError>
    ensures { IfOk result (λ frame. frame ≡ typed_frame program programmer player caller) }
{
    Ok(Frame {
        program,
        d: true,
        programmer,
        this: -1,
        definer: -1,
        caller,
        player,
        dobj: -1,
        iobj: -1,
        names: text(alloc, "Input to EVAL")?,
        verb: text(alloc, "")?,
        argstr: text(alloc, "")?,
        dobjstr: text(alloc, "")?,
        prepstr: text(alloc, "")?,
        iobjstr: text(alloc, "")?,
        args: no_args(alloc)?,
    })
}

fn no_args(alloc: Global) -> Result<MooList, AllocError>
    ensures { IfOk result (λ list. list ≡ []) }
{
    MooList::try_from_vec(alloc, Vec::new(alloc)).map_err(|_| AllocError)
}
