//! Handlers of a `try`: which one takes an error, and what its variable is set to. Also the frames of a trace as lists.
ghost use Rattle.std.specs.Prelude.{◌≡◌, ◌++◌, ◌∷◌, [], List, Ok, Err, map, option_copied, option_map, IfErr, OnOk, IsSome};
ghost use Rattle.moo_value.specs.Tree.{Tree};
ghost use Rattle.moo_value.specs.View.{trees};
ghost use Rattle.moo_syntax_ast.specs.Tree.{Handlers, handler};
ghost use Rattle.moo_syntax_node.specs.Source.{source_codes};
ghost use Rattle.moo_syntax_node.specs.Blocks.{source_block, with_source_handler};
ghost use Rattle.moo_eval_frame.specs.Outcome as meaning;
ghost use Rattle.moo_eval_frame.specs.Outcome.{answers, raised_by};
ghost use Rattle.moo_eval_frame.specs.Variables.{with_all};
ghost use Rattle.moo_eval_slot.specs.Bindings.{Binding};
ghost use Rattle.moo_eval_control.specs.Handling.{guarded, chosen, frame_list, entry_lists, frame_lists, above, told, told_as};
ghost use Rattle.moo_eval_control.specs.Catching.{is_caught};
ghost use Rattle.moo_eval_frame.specs.Seen.{variables_of, raise_of, stop_of, failure_of, trace_of, seen_answer, seen_answers, HadMemory, HadMemoryIn, IsKnownFailure, LacksOnlyWhere};
ghost use Rattle.moo_eval_control.specs.SeenCatching.{code_values};
ghost use Rattle.moo_eval_control.specs.SeenHandling.{guarded_of};

use crate::catching::is_caught;
use moo_builtin_operator as operation;
use moo_eval_frame::{
    Activation, CallStack, Callers, Failure, Raise, Stop, TraceEntry, TraceFrame, push, raised,
};
use moo_syntax_ast::Name;
use moo_syntax_node::{NodeCodes, NodeHandler, NodeStmt};
use moo_value::{ErrorCode, Value};
use std::alloc::{AllocError, Global};

/// Holds the variable that a handler sets, if any, its codes and its statements.
#[derive(Drop)]
pub struct HandlerParts<'a> {
    pub name: Option<&'a Name>,
    pub codes: &'a NodeCodes,
    pub body: &'a [NodeStmt],
}

/// Holds a handler with the values of its codes.
#[derive(Drop)]
pub struct Guarded<'a> {
    pub name: Option<&'a Name>,
    pub codes: &'a NodeCodes,
    pub body: &'a [NodeStmt],
    pub values: Vec<Value>,
}

/// Returns the parts of a handler.
pub fn handler_parts(value: &NodeHandler) -> HandlerParts<'_>
    ensures { (hs : Handlers) → with_source_handler value.now hs ≡ handler (option_copied result.name) (source_codes result.codes.now) (source_block result.body.now) hs }
{
    match value {
        NodeHandler::Except(codes, body) => HandlerParts {
            name: None,
            codes,
            body,
        },
        NodeHandler::ExceptAs(name, codes, body) => HandlerParts {
            name: Some(name),
            codes,
            body,
        },
    }
}

/// Appends a handler, with the values of its codes. Err is out of memory.
pub fn push_guarded<'a>(
    all: &mut Vec<Guarded<'a>>,
    parts: HandlerParts<'a>,
    values: Vec<Value>,
) -> Result<(), AllocError>
    ensures { OnOk result (map guarded_of all.new.items ≡ map guarded_of all.old.items ++ guarded (option_copied parts.entry.name) (source_codes parts.entry.codes.now) (source_block parts.entry.body.now) (code_values parts.entry.codes.now values.items) ∷ []) }
{
    all.push(with_values(parts, values))?;
    Ok(())
}

/// Returns a handler with the values of its codes.
pub fn with_values<'a>(parts: HandlerParts<'a>, values: Vec<Value>) -> Guarded<'a>
    ensures { guarded_of result ≡ guarded (option_copied parts.entry.name) (source_codes parts.entry.codes.now) (source_block parts.entry.body.now) (code_values parts.entry.codes.now values.items) }
{
    Guarded {
        name: parts.name,
        codes: parts.codes,
        body: parts.body,
        values,
    }
}

impl Guarded<'_> {
    fn takes(&self, code: ErrorCode) -> bool
        ensures { result ≡ is_caught (source_codes self.now.codes.now) (code_values self.now.codes.now self.now.values.items) code }
    {
        is_caught(self.codes, &self.values, code)
    }
}

/// Returns the first handler that handles the error, if there is one.
pub fn chosen<'g, 'a>(all: &'g [Guarded<'a>], code: ErrorCode) -> Option<&'g Guarded<'a>>
    ensures { option_map (λ g. guarded_of g.now) result ≡ chosen (map guarded_of all.now) code }
{
    for guarded in all {
        if guarded.takes(code) {
            return Some(guarded);
        }
    }
    None
}

// Returns `{this, verb, programmer, definer, player}` of a frame: E_QUOTA past the limits of a list.
fn frame_list(alloc: Global, frame: &TraceFrame) -> Result<Value, Failure>
    ensures { IsKnownFailure result → answers (frame_list frame.now) ≡ seen_answer result }
{
    let mut values = Vec::with_capacity(alloc, 5)?;
    push(&mut values, Value::Obj(frame.this))?;
    push(&mut values, Value::Str(frame.verb.try_clone()?))?;
    push(&mut values, Value::Obj(frame.programmer))?;
    push(&mut values, Value::Obj(frame.definer))?;
    push(&mut values, Value::Obj(frame.player))?;
    Ok(operation::list(alloc, values)?)
}

// Appends the list of an entry that is a frame; a built-in function has none.
fn push_entry(alloc: Global, values: &mut Vec<Value>, entry: &TraceEntry) -> Result<(), Failure>
    ensures ok { OnOk result ((more : List Tree) × (entry_lists entry.now ≡ Ok more) × (trees values.new.items ≡ trees values.old.items ++ more)) }
    ensures err { IfErr result (λ failure. HadMemoryIn failure → answers (entry_lists entry.now) ≡ Err (failure_of failure)) }
{
    let TraceEntry::Verb(frame) = entry else {
        return Ok(());
    };
    let value = frame_list(alloc, frame)?;
    push(values, value)?;
    Ok(())
}

/// Returns `{this, verb, programmer, definer, player}` for each frame of a trace, in the order of the trace. E_QUOTA if
/// a list is past the limits. A built-in function has no frame.
pub fn frame_lists(alloc: Global, trace: &[TraceEntry]) -> Result<Vec<Value>, Failure>
    ensures { IsKnownFailure result → answers (frame_lists trace.now) ≡ seen_answers result }
{
    let mut values = Vec::with_capacity(alloc, trace.len())?;
    for entry in trace {
        push_entry(alloc, &mut values, entry)?;
    }
    Ok(values)
}

// Returns the entries of a trace down to the frame that has these callers.
fn above<'a>(callers: &Callers, trace: &'a [TraceEntry]) -> &'a [TraceEntry]
    ensures { result.now ≡ above callers.now trace.now }
{
    let count = callers.remaining(trace.len());
    &trace[..count]
}

// Returns `{code, message, value, frames}`, with the frames from the raising one to that which has these callers.
fn told(alloc: Global, callers: &Callers, raise: Raise) -> Result<Value, Failure>
    ensures { IsKnownFailure result → answers (told callers.now (raise_of raise)) ≡ seen_answer result }
{
    let account = Box::into_inner(raise.account);
    let frames = frame_lists(alloc, above(callers, &account.trace))?;
    let frames = operation::list(alloc, frames)?;
    let mut values = Vec::new(alloc);
    push(&mut values, Value::Err(account.code))?;
    push(&mut values, Value::Str(account.message))?;
    push(&mut values, account.value)?;
    push(&mut values, frames)?;
    Ok(operation::list(alloc, values)?)
}

/// Sets the variable of a handler, if it has one, to `{code, message, value, frames}`. The frames go from the raising
/// one to the handler's own. Past the limits E_QUOTA is raised, whatever the d bit is; then nothing has changed.
pub fn set_caught(
    alloc: Global,
    stack: &CallStack<'_>,
    active: &mut Activation,
    name: Option<&Name>,
    raise: Raise,
) -> Result<(), Stop>
    ensures ok { OnOk result ((bs : List Binding) × (told_as stack.now.callers (option_copied name.entry) (raise_of raise) ≡ Ok bs) × (variables_of active.new.variables ≡ with_all (variables_of active.old.variables) bs)) }
    ensures programmer { active.new.programmer ≡ active.old.programmer }
    ensures err { IfErr result (λ stop. HadMemory stop → (failure : meaning.Failure) × (answers (told_as stack.now.callers (option_copied name.entry) (raise_of raise)) ≡ Err failure) × (stop_of stop ≡ raised_by (trace_of stack.now active.old) failure)) }
    ensures kept { IfErr result (λ stop. HadMemory stop → active.new ≡ active.old) }
    ensures memory { IfErr result (LacksOnlyWhere (IsSome name.entry)) }
{
    let Some(name) = name else {
        return Ok(());
    };
    match told(alloc, &stack.callers, raise) {
        Ok(value) => {
            active.variables.set(name, value)?;
            Ok(())
        }
        Err(failure) => Err(raised(alloc, stack, active, failure)),
    }
}
