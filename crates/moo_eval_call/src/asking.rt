//! Functions that leave a notice, which the server handles once the task has ended: 'Functions over the running task'
//! of docs/reference/language.md. In the LambdaMOO Programmer's Manual: 'Operations on Network Connections',
//! 'Operations on Player Objects' and 'Administrative Operations'. Arguments that don't fit the function's row raise
//! E_TYPE; no call has such arguments. A call that raises changes nothing.
ghost use Rattle.std.specs.Prelude.{◌≡◌, ◌++◌, ◌∷◌, [], ℕ, OnOk};
ghost use Rattle.moo_value.specs.View.{trees};
ghost use Rattle.moo_eval_frame.specs.Seen.{seen_answer, IsKnownFailure};
ghost use Rattle.moo_eval_frame.specs.declared.frame.Activation.{Activation};
ghost use Rattle.moo_world_table.specs.World.{World as Objects};
ghost use Rattle.moo_eval_semantics.specs.Asking.{leaves, notify, boot_player, dump_database, shutdown, server_log, set_player_flag};
ghost use Rattle.moo_eval_access.specs.SeenState.{state_at};

use moo_builtin_operator::is_true;
use moo_eval_access::failed;
use moo_eval_frame::{Activation, Failure, Notice};
use moo_value::{ErrorCode, Value};
use moo_world::{Rights, World};
use std::alloc::AllocError;

/// Runs `notify(o, line)`: asks for a line to be sent to o, and returns 1. E_PERM if the programmer is neither o nor a
/// wizard.
pub(crate) fn notify(
    world: &World,
    active: &Activation,
    notices: &mut Vec<Notice>,
    args: &[Value],
) -> Result<Value, Failure>
    ensures { (ticks : ℕ) → IsKnownFailure result → notify (trees args.now) (state_at ticks notices.old.items world.now active.now) ≡ (seen_answer result, state_at ticks notices.new.items world.now active.now) }
{
    let [Value::Obj(player), Value::Str(line)] = args else {
        return Err(Failure::Fails(ErrorCode::TypeMismatch));
    };
    let may = Rights::controls(world, active.programmer, *player);
    let notice = Notice::Notify(*player, line.try_clone()?);
    leave(may, 1, notice, notices)
}

/// Runs `boot_player(o)`: asks for the end of o's connection, and returns 0. E_PERM if the programmer is neither o nor
/// a wizard.
pub(crate) fn boot_player(
    world: &World,
    active: &Activation,
    notices: &mut Vec<Notice>,
    args: &[Value],
) -> Result<Value, Failure>
    ensures { (ticks : ℕ) → IsKnownFailure result → boot_player (trees args.now) (state_at ticks notices.old.items world.now active.now) ≡ (seen_answer result, state_at ticks notices.new.items world.now active.now) }
{
    let [Value::Obj(player)] = args else {
        return Err(Failure::Fails(ErrorCode::TypeMismatch));
    };
    let may = Rights::controls(world, active.programmer, *player);
    leave(may, 0, Notice::BootPlayer(*player), notices)
}

/// Runs `dump_database()`: asks for a checkpoint, and returns 0. E_PERM for anyone but a wizard.
pub(crate) fn dump_database(
    world: &World,
    active: &Activation,
    notices: &mut Vec<Notice>,
    args: &[Value],
) -> Result<Value, Failure>
    ensures { (ticks : ℕ) → IsKnownFailure result → dump_database (trees args.now) (state_at ticks notices.old.items world.now active.now) ≡ (seen_answer result, state_at ticks notices.new.items world.now active.now) }
{
    let [] = args else {
        return Err(Failure::Fails(ErrorCode::TypeMismatch));
    };
    let may = Rights::is_wizard(world, active.programmer);
    leave(may, 0, Notice::DumpDatabase, notices)
}

/// Runs `shutdown([why])`: asks for the end of the server, perhaps with a text that gives the reason, and returns 0.
/// E_PERM for anyone but a wizard.
pub(crate) fn shutdown(
    world: &World,
    active: &Activation,
    notices: &mut Vec<Notice>,
    args: &[Value],
) -> Result<Value, Failure>
    ensures { (ticks : ℕ) → IsKnownFailure result → shutdown (trees args.now) (state_at ticks notices.old.items world.now active.now) ≡ (seen_answer result, state_at ticks notices.new.items world.now active.now) }
{
    let why = match args {
        [] => None,
        [Value::Str(why)] => Some(why.try_clone()?),
        _ => return Err(Failure::Fails(ErrorCode::TypeMismatch)),
    };
    let may = Rights::is_wizard(world, active.programmer);
    leave(may, 0, Notice::Shutdown(why), notices)
}

/// Runs `server_log(line)`: asks for a line in the server's log, and returns 0. E_PERM for anyone but a wizard.
pub(crate) fn server_log(
    world: &World,
    active: &Activation,
    notices: &mut Vec<Notice>,
    args: &[Value],
) -> Result<Value, Failure>
    ensures { (ticks : ℕ) → IsKnownFailure result → server_log (trees args.now) (state_at ticks notices.old.items world.now active.now) ≡ (seen_answer result, state_at ticks notices.new.items world.now active.now) }
{
    let [Value::Str(line)] = args else {
        return Err(Failure::Fails(ErrorCode::TypeMismatch));
    };
    let may = Rights::is_wizard(world, active.programmer);
    leave(may, 0, Notice::ServerLog(line.try_clone()?), notices)
}

/// Runs `set_player_flag(o, on)`: makes an object a player, or no player if `on` is false, leaves a notice of it, and
/// returns 0. Raises E_INVARG if o is no object, E_QUOTA for too many players, and E_PERM for anyone but a wizard.
pub(crate) fn set_player_flag(
    world: &mut World,
    active: &Activation,
    notices: &mut Vec<Notice>,
    args: &[Value],
) -> Result<Value, Failure>
    ensures { (ticks : ℕ) → IsKnownFailure result → set_player_flag (trees args.now) (state_at ticks notices.old.items world.old active.now) ≡ (seen_answer result, state_at ticks notices.new.items world.new active.now) }
{
    let [Value::Obj(o), value] = args else {
        return Err(Failure::Fails(ErrorCode::TypeMismatch));
    };
    let on = is_true(value);
    if let Err(fault) = world.try_set_player(*o, on) {
        return Err(failed(fault));
    }
    if !Rights::is_wizard(world, active.programmer) {
        return Err(Failure::Fails(ErrorCode::Permission));
    }
    if let Err(fault) = world.set_player(*o, on) {
        return Err(failed(fault));
    }
    push_notice(notices, Notice::SetPlayerFlag(*o, on))?;
    Ok(Value::Int(0))
}

// Appends a notice and returns `answer`, if `may` is true; else raises E_PERM.
fn leave(
    may: bool,
    answer: i32,
    notice: Notice,
    notices: &mut Vec<Notice>,
) -> Result<Value, Failure>
    ensures { (ticks : ℕ) (world : Objects) (active : Activation) → IsKnownFailure result → leaves may answer notice (state_at ticks notices.old.items world active) ≡ (seen_answer result, state_at ticks notices.new.items world active) }
{
    if !may {
        return Err(Failure::Fails(ErrorCode::Permission));
    }
    push_notice(notices, notice)?;
    Ok(Value::Int(answer))
}

fn push_notice(notices: &mut Vec<Notice>, notice: Notice) -> Result<(), AllocError>
    ensures { OnOk result (notices.new.items ≡ notices.old.items ++ notice ∷ []) }
{
    notices.push(notice)?;
    Ok(())
}
