//! Functions that inspect the running task or its connections, or leave a notice.
ghost use Rattle.std.specs.Prelude.{◌≡◌, ℕ, List, None};
ghost use Rattle.moo_value.specs.View.{trees};
ghost use Rattle.moo_eval_frame.specs.declared.notice.Notice.{Notice};
ghost use Rattle.moo_eval_control.specs.Handling.{frame_lists, listed};
ghost use Rattle.moo_eval_frame.specs.Outcome.{answers};
ghost use Rattle.moo_eval_frame.specs.Seen.{context_of, seen_answer, IsKnownFailure};
ghost use Rattle.moo_eval_semantics.specs.Tasks.{set_task_perms};
ghost use Rattle.moo_eval_semantics.specs.Calls.{is_of_task, task_reply};
ghost use Rattle.moo_eval_access.specs.SeenState.{state_at};

use crate::asking::{boot_player, dump_database, notify, server_log, set_player_flag, shutdown};
use crate::connections::{connected_players, connected_seconds, idle_seconds};
use crate::ticks::Ticks;
use moo_builtin_operator as operation;
use moo_eval_control::frame_lists;
use moo_eval_frame::{Activation, CallStack, Failure, Notice};
use moo_syntax_function::Function;
use moo_value::{ErrorCode, Value};
use moo_world::{Rights, World};
use std::alloc::Global;

/// Returns whether a function inspects the task or its connections, or leaves a notice.
#[inline(always)]
pub(crate) fn is_of_task(function: Function) -> bool
    ensures { result ≡ is_of_task function }
{
    match function {
        Function::TicksLeft
        | Function::Callers
        | Function::CallerPerms
        | Function::SetTaskPerms
        | Function::ConnectedPlayers
        | Function::IdleSeconds
        | Function::ConnectedSeconds
        | Function::Notify
        | Function::BootPlayer
        | Function::SetPlayerFlag
        | Function::DumpDatabase
        | Function::Shutdown
        | Function::ServerLog => true,
        _ => false,
    }
}

/// Calls a function of the task, with arguments that fit its row of the table.
pub(crate) fn task_reply(
    alloc: Global,
    world: &mut World,
    active: &mut Activation,
    stack: &CallStack<'_>,
    ticks: &Ticks,
    notices: &mut Vec<Notice>,
    function: Function,
    args: &[Value],
) -> Result<Value, Failure>
    ensures { IsKnownFailure result → task_reply function (context_of stack.now None) (trees args.now) (state_at ticks.now notices.old.items world.old active.old) ≡ (seen_answer result, state_at ticks.now notices.new.items world.new active.new) }
{
    match function {
        Function::TicksLeft => Ok(Value::Int(ticks.left())),
        Function::Callers => callers(alloc, stack),
        Function::CallerPerms => Ok(Value::Obj(stack.callers.programmer())),
        Function::SetTaskPerms => set_task_perms(world, active, args),
        Function::ConnectedPlayers => connected_players(alloc, stack.surroundings, args),
        Function::IdleSeconds => idle_seconds(stack.surroundings, args),
        Function::ConnectedSeconds => connected_seconds(stack.surroundings, args),
        Function::Notify => notify(world, active, notices, args),
        Function::BootPlayer => boot_player(world, active, notices, args),
        Function::SetPlayerFlag => set_player_flag(world, active, notices, args),
        Function::DumpDatabase => dump_database(world, active, notices, args),
        Function::Shutdown => shutdown(world, active, notices, args),
        Function::ServerLog => server_log(world, active, notices, args),
        _ => Err(Failure::Fails(ErrorCode::InvalidArgument)),
    }
}

// Returns the frames that the running one was called from.
fn callers(alloc: Global, stack: &CallStack<'_>) -> Result<Value, Failure>
    ensures { IsKnownFailure result → answers (listed (frame_lists stack.now.callers)) ≡ seen_answer result }
{
    let entries = stack.callers.to_vec(alloc)?;
    let frames = frame_lists(alloc, &entries)?;
    Ok(operation::list(alloc, frames)?)
}

// Sets the running frame's programmer to the one given, if the present programmer is that one or a wizard; else
// E_PERM.
fn set_task_perms(world: &World, active: &mut Activation, args: &[Value]) -> Result<Value, Failure>
    ensures { (ticks : ℕ) (notices : List Notice) → set_task_perms (trees args.now) (state_at ticks notices world.now active.old) ≡ (seen_answer result, state_at ticks notices world.now active.new) }
{
    let [Value::Obj(programmer)] = args else {
        return Err(Failure::Fails(ErrorCode::TypeMismatch));
    };
    if !Rights::controls(world, active.programmer, *programmer) {
        return Err(Failure::Fails(ErrorCode::Permission));
    }
    active.programmer = *programmer;
    Ok(Value::Int(0))
}
