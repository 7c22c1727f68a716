//! Hooks: each is a task of its own, and they run in the order in which they were caused.
ghost use Rattle.std.specs.Prelude.{◌≡◌, ◌∷◌, [], IfOk, OnOk};
ghost use Rattle.moo_value.specs.Size.{IsString};
ghost use Rattle.moo_value.specs.Tree.{object};
ghost use Rattle.moo_builtin.specs.Telling.{Faults};
ghost use Rattle.moo_session_task.specs.Hooks.{HooksRun, RunsNext, CallsHook, hook_name, player_of_hook};
ghost use Rattle.moo_session_task.specs.Seen.{seen_answer};

use crate::verbs::call_server_verb;
use crate::{Hook, WorldState};
use moo_value::{ListLimit, MooList, MooStr, Value};
use std::alloc::{AllocError, Global};

/// Runs the hooks that wait, from the first on, until none waits, at this moment in seconds. Fails only if memory runs
/// out.
#[tactic(none)]
pub fn run_hooks(alloc: Global, live: &mut WorldState, moment: u32) -> Result<(), AllocError>
    ensures { OnOk result (HooksRun Faults moment live.old live.new) }
{
    while run_next(alloc, live, moment)? {}
    Ok(())
}

// Runs the first hook that waits. Returns whether there was one.
#[tactic(none)]
fn run_next(alloc: Global, live: &mut WorldState, moment: u32) -> Result<bool, AllocError>
    ensures { IfOk result (λ more. RunsNext Faults moment live.old more live.new) }
{
    let Some(hook) = live.session.next_hook() else {
        return Ok(false);
    };
    let _answer = call_hook(alloc, live, moment, hook)?;
    Ok(true)
}

#[tactic(auto)]
fn call_hook(
    alloc: Global,
    live: &mut WorldState,
    moment: u32,
    hook: Hook,
) -> Result<Option<Value>, AllocError>
    ensures { IfOk result (λ v. CallsHook Faults moment hook live.old (seen_answer v) live.new) }
{
    let player = player_of(hook);
    let args = one_object(alloc, player)?;
    let argstr = MooStr::empty(alloc)?;
    call_server_verb(alloc, live, moment, name_of(hook), player, args, argstr)
}

fn name_of(hook: Hook) -> &'static [u8]
    ensures name { result.now ≡ hook_name hook }
    ensures fits { IsString result.now }
{
    match hook {
        Hook::Created(_) => b"user_created",
        Hook::Connected(_) => b"user_connected",
        Hook::Reconnected(_) => b"user_reconnected",
        Hook::Disconnected(_) => b"user_disconnected",
        Hook::ClientDisconnected(_) => b"user_client_disconnected",
    }
}

fn player_of(hook: Hook) -> i32
    ensures { result ≡ player_of_hook hook }
{
    match hook {
        Hook::Created(player)
        | Hook::Connected(player)
        | Hook::Reconnected(player)
        | Hook::Disconnected(player)
        | Hook::ClientDisconnected(player) => player,
    }
}

// Returns a list of one object.
fn one_object(alloc: Global, o: i32) -> Result<MooList, AllocError>
    ensures { IfOk result (λ list. list ≡ object o ∷ []) }
{
    let mut values = Vec::new(alloc);
    values.push(Value::Obj(o))?;
    match MooList::try_from_vec(alloc, values) {
        Ok(list) => Ok(list),
        Err(ListLimit::Memory) => Err(AllocError),
        Err(ListLimit::TooLarge) => unreachable!(),
    }
}
