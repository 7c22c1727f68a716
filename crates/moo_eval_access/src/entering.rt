//! Enters the verbs of calls: 'Calling Built-in Functions and Other Verbs' of the LambdaMOO Programmer's Manual,
//! 'Expressions' and 'Limits' of docs/reference/language.md.
ghost use Rattle.std.specs.Prelude.{◌≡◌, if◌then◌else◌, is_some, None, Ok, Err, option_map, IfOk, IfErr, OnOk, IsTrue};
ghost use Rattle.std.specs.Option.{unwrap_or};
ghost use Rattle.moo_value.specs.Tree.{object, string, list_of};
ghost use Rattle.moo_value.specs.View.{tree, trees};
ghost use Rattle.moo_value.specs.declared.error_code.ErrorCode.TheVariants.{InvalidIndirection, VerbNotFound};
ghost use Rattle.moo_syntax_ast.specs.Tree.{no_statement};
ghost use Rattle.moo_world.specs.Numbered.{object_numbered};
ghost use Rattle.moo_builtin_operator.specs.Places.{made_list};
ghost use Rattle.moo_world.specs.VerbCalls.{verb_there};
ghost use Rattle.moo_eval_access.specs.Entering.{entered_verb, entered_from, entered_found, found_verb, called_verb, has_frame_left, player_of_call, verb_frame, called_frame, entered_by};
ghost use Rattle.moo_eval_access.specs.SeenCalled.{entered_of, found_of};
ghost use Rattle.moo_eval_frame.specs.Outcome.{answers};
ghost use Rattle.moo_eval_frame.specs.Seen.{context_of, variables_of, failure_of, seen_by, IsKnownFailure, HadMemoryIn};

use crate::verb_name::VerbName;
use moo_eval_frame::{
    Activation, CallStack, Failure, Frame, FrameMemory, GivenValues, Running, Stop,
};
use moo_syntax_ast::{NameKey, Text};
use moo_syntax_program::Program;
use moo_value::{ErrorCode, ListLimit, MooList, MooStr, Value};
use moo_world::{Rights, VerbAt, World};
use moo_world_object::Verb;
use std::alloc::{AllocError, Global};

/// The largest number of frames of a task.
pub const MOST_FRAMES: usize = 50;

/// Holds a verb that was entered: its frame and its callers, and the values of the names that every frame has.
#[derive(Drop)]
pub struct Called<'a> {
    pub stack: CallStack<'a>,
    pub given: GivenValues,
}

/// Holds a verb that was found, and the object that has it.
#[derive(Clone, Copy)]
pub struct Found<'a> {
    pub definer: i32,
    pub verb: &'a Verb,
}

/// Holds what a frame receives besides its verb: its `this`, the caller, the player, the name, the command and the
/// arguments. Objects are given by their numbers, #-1 for none; each field is that of `Frame`.
#[derive(Drop)]
pub struct Call {
    pub this: i32,
    pub caller: i32,
    pub player: i32,
    pub dobj: i32,
    pub iobj: i32,
    pub verb: MooStr,
    pub argstr: MooStr,
    pub dobjstr: MooStr,
    pub prepstr: MooStr,
    pub iobjstr: MooStr,
    pub args: MooList,
}

/// Enters the verb that a call names, with its owner's rights. E_QUOTA for a list of arguments past the limits;
/// E_TYPE for a base that is no object or a name that is no string. E_INVIND if the object isn't valid, E_VERBNF if
/// it has no such executable verb, E_MAXREC if no frame is left. Inlined, so that the entered verb is built in the
/// caller's frame. The list takes the memory of a frame that has ended.
#[inline(always)]
pub fn enter_verb<'a>(
    alloc: Global,
    world: &World,
    stack: &'a CallStack<'_>,
    active: &Activation,
    base: &Value,
    name: &Value,
    args: Vec<Value>,
    memory: &mut FrameMemory,
) -> Result<Called<'a>, Failure>
    ensures { IsKnownFailure result → answers (entered_verb world.now (context_of stack.now None) (variables_of active.now.variables) active.now.programmer (tree base.now) (tree name.now) (trees args.items)) ≡ seen_by entered_of result }
{
    let args = arguments(alloc, args, memory)?;
    match (base, name) {
        (Value::Obj(this), Value::Str(name)) => {
            let name = VerbName::new(name);
            enter_named(alloc, world, stack, active, *this, &name, args)
        }
        _ => Err(Failure::Fails(ErrorCode::TypeMismatch)),
    }
}

/// Enters the verb that a call names by a literal, as `enter_verb` does. The hash of the name is known.
#[inline(always)]
pub fn enter_written<'a>(
    alloc: Global,
    world: &World,
    stack: &'a CallStack<'_>,
    active: &Activation,
    base: &Value,
    name: &Text,
    args: Vec<Value>,
    memory: &mut FrameMemory,
) -> Result<Called<'a>, Failure>
    ensures { IsKnownFailure result → answers (entered_verb world.now (context_of stack.now None) (variables_of active.now.variables) active.now.programmer (tree base.now) (string name.now) (trees args.items)) ≡ seen_by entered_of result }
{
    let args = arguments(alloc, args, memory)?;
    let Value::Obj(this) = base else {
        return Err(Failure::Fails(ErrorCode::TypeMismatch));
    };
    let name = VerbName::of(name);
    enter_named(alloc, world, stack, active, *this, &name, args)
}

// Enters the verb of a name that is called on an object, its arguments in a list.
#[inline(always)]
fn enter_named<'a>(
    alloc: Global,
    world: &World,
    stack: &'a CallStack<'_>,
    active: &Activation,
    this: i32,
    name: &VerbName<'_>,
    args: MooList,
) -> Result<Called<'a>, Failure>
    ensures { IsKnownFailure result → answers (entered_by world.now (context_of stack.now None) (variables_of active.now.variables) active.now.programmer (object this) (string name.now) args) ≡ seen_by entered_of result }
{
    let found = found_verb(world, this, name)?;
    enter_found(alloc, world, stack, active, this, found, name.text(), args)
}

/// Enters the verb of a name that is found from one object on, to run on another object, with its owner's rights.
/// E_QUOTA for a list of arguments past the limits, E_INVIND if the object where the search starts isn't valid.
/// E_VERBNF if there is no such executable verb, E_MAXREC if no frame is left.
pub fn enter_verb_from<'a>(
    alloc: Global,
    world: &World,
    stack: &'a CallStack<'_>,
    active: &Activation,
    this: i32,
    from: i32,
    name: &MooStr,
    args: Vec<Value>,
) -> Result<Called<'a>, Failure>
    ensures { IsKnownFailure result → answers (entered_from world.now (context_of stack.now None) (variables_of active.now.variables) active.now.programmer this from name.now (trees args.items)) ≡ seen_by entered_of result }
{
    let args = arguments(alloc, args, &mut FrameMemory::new(alloc))?;
    let found = found_verb(world, from, &VerbName::new(name))?;
    enter_found(alloc, world, stack, active, this, found, name, args)
}

/// Enters a verb that was found, to run on an object by this name, with its owner's rights. E_MAXREC if no frame is
/// left.
#[inline(always)]
pub fn enter_found<'a>(
    alloc: Global,
    world: &World,
    stack: &'a CallStack<'_>,
    active: &Activation,
    this: i32,
    found: Found<'_>,
    name: &MooStr,
    args: MooList,
) -> Result<Called<'a>, Failure>
    ensures { IsKnownFailure result → answers (entered_found world.now (context_of stack.now None) (variables_of active.now.variables) active.now.programmer this name.now args (Ok (found_of found.entry))) ≡ seen_by entered_of result }
{
    if !has_frame_left(stack) {
        return Err(Failure::Fails(ErrorCode::MaximumRecursion));
    }
    let player = player_of_call(world, &stack.running, active);
    let running = called_frame(alloc, found, this, player, name)?;
    let given = active.variables.handed(&running, stack.running.this, args)?;
    let callers = stack.callers_of_called(active)?;
    Ok(Called {
        stack: CallStack {
            running,
            callers,
            surroundings: stack.surroundings,
        },
        given,
    })
}

// Returns the list of the arguments, in the memory of a frame that has ended: E_QUOTA past the limits.
#[inline(always)]
fn arguments(alloc: Global, args: Vec<Value>, memory: &mut FrameMemory) -> Result<MooList, Failure>
    ensures ok { OnOk result (made_list (trees args.items) ≡ Ok (list_of (trees args.items))) }
    ensures same { IfOk result (λ list. list ≡ trees args.items) }
    ensures err { IfErr result (λ failure. HadMemoryIn failure → answers (made_list (trees args.items)) ≡ Err (failure_of failure)) }
{
    match memory.list(alloc, args) {
        Ok(list) => Ok(list),
        Err(ListLimit::TooLarge) => Err(Failure::Fails(ErrorCode::Quota)),
        Err(ListLimit::Memory) => Err(Failure::Stops(Stop::Memory)),
    }
}

// Returns the verb that a call on an object runs, and the object that has it: the first executable verb that
// matches. E_INVIND if the object isn't valid, E_VERBNF if it has none.
#[inline(always)]
fn found_verb<'a>(world: &'a World, this: i32, name: &VerbName<'_>) -> Result<Found<'a>, ErrorCode>
    ensures ok { IfOk result (λ found. found_verb world.now this name.now ≡ Ok (found_of found)) }
    ensures err { IfErr result (λ code. found_verb world.now this name.now ≡ Err code) }
{
    match verb_by_key(world, this, name.key()) {
        Some(found) => Ok(found),
        None => Err(nothing_found(world, this)),
    }
}

// Returns the error of a call on an object for which no verb matches.
#[cold]
#[inline(never)]
fn nothing_found(world: &World, this: i32) -> ErrorCode
    ensures { result ≡ (if is_some (object_numbered world.now this) then VerbNotFound else InvalidIndirection) }
{
    if world.object(this).is_some() {
        ErrorCode::VerbNotFound
    } else {
        ErrorCode::InvalidIndirection
    }
}

/// Returns the executable verb that a call of this name on an object runs. It is the first match among its own verbs,
/// and then among those of its ancestors. An object that isn't valid has none.
pub fn called_verb<'a>(world: &'a World, object: i32, name: &[u8]) -> Option<Found<'a>>
    ensures { option_map found_of result ≡ called_verb world.now object name.now }
{
    verb_by_key(world, object, &NameKey::new(name))
}

// Returns the executable verb that a call of the name with this key on an object runs.
#[inline(always)]
fn verb_by_key<'a>(world: &'a World, object: i32, key: &NameKey<'_>) -> Option<Found<'a>>
    ensures { option_map found_of result ≡ called_verb world.now object key.now }
{
    let (definer, verb) = world.called_verb(object, key)?;
    Some(Found { definer, verb })
}

/// Returns the verb at a place, if there is one.
#[inline(always)]
pub fn verb_there(world: &World, place: VerbAt) -> Option<Found<'_>>
    ensures { option_map found_of result ≡ verb_there world.now place }
{
    let verb = world.object(place.definer)?.verb(place.index)?;
    Some(Found {
        definer: place.definer,
        verb,
    })
}

/// Returns whether a frame is left for what is called next.
pub fn has_frame_left(stack: &CallStack<'_>) -> bool
    ensures { result ≡ has_frame_left stack.now.callers }
{
    stack.callers.frames() < MOST_FRAMES - 1
}

// Returns the player of a called verb: a wizard may have put another into the variable. The wizard's flag is read
// only if the variable holds another value.
#[inline(always)]
fn player_of_call(world: &World, caller: &Running, active: &Activation) -> i32
    ensures { result ≡ player_of_call world.now caller.now (variables_of active.now.variables) active.now.programmer }
{
    if is_object(active.variables.player(), caller.player) {
        return caller.player;
    }
    if !Rights::is_wizard(world, active.programmer) {
        return caller.player;
    }
    match active.variables.player() {
        Value::Obj(player) => *player,
        _ => caller.player,
    }
}

// Returns whether a value is this object.
#[inline(always)]
fn is_object(value: &Value, number: i32) -> bool
    ensures { IsTrue result → tree value.now ≡ object number }
{
    matches!(value, Value::Obj(own) if *own == number)
}

// Returns what is fixed while a verb runs that was found and is called by this name.
#[inline(always)]
fn called_frame(
    alloc: Global,
    found: Found<'_>,
    this: i32,
    player: i32,
    name: &MooStr,
) -> Result<Running, AllocError>
    ensures { IfOk result (λ frame. frame ≡ called_frame (found_of found.entry) this player name.now) }
{
    let verb = found.verb;
    Ok(Running {
        program: program_of(alloc, verb)?,
        d: verb.perms.debug,
        programmer: verb.owner,
        this,
        definer: found.definer,
        player,
        names: verb.names.try_clone()?,
        verb: name.try_clone()?,
    })
}

/// Returns the frame of a verb that was found. The verb's owner is the programmer, and the frame has the d bit and the
/// program of the verb. Err is out of memory.
#[inline(always)]
pub fn verb_frame(alloc: Global, found: Found<'_>, call: Call) -> Result<Frame, AllocError>
    ensures { IfOk result (λ frame. frame ≡ verb_frame (found_of found.entry) call) }
{
    let verb = found.verb;
    Ok(Frame {
        program: program_of(alloc, verb)?,
        d: verb.perms.debug,
        programmer: verb.owner,
        this: call.this,
        definer: found.definer,
        caller: call.caller,
        player: call.player,
        dobj: call.dobj,
        iobj: call.iobj,
        names: verb.names.try_clone()?,
        verb: call.verb,
        argstr: call.argstr,
        dobjstr: call.dobjstr,
        prepstr: call.prepstr,
        iobjstr: call.iobjstr,
        args: call.args,
    })
}

// Returns the program of a verb, an empty one if it has none. The program is shared: a running frame keeps it when
// the verb gets another.
#[inline(always)]
fn program_of(alloc: Global, verb: &Verb) -> Result<Program, AllocError>
    ensures { IfOk result (λ program. program ≡ unwrap_or verb.now.program no_statement) }
{
    match &verb.program {
        Some(program) => program.try_clone(),
        None => Program::empty(alloc),
    }
}
