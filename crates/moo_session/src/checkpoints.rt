//! The calls that the server itself makes.
ghost use Rattle.std.specs.Prelude.{◌≡◌, ◌∷◌, [], IfOk, OnOk, pos, if◌then◌else◌};
ghost use Rattle.moo_value.specs.Size.{IsString};
ghost use Rattle.moo_value.specs.Tree.{integer};
ghost use Rattle.moo_builtin.specs.Telling.{Faults};
ghost use Rattle.moo_session.specs.Events.{CallsOwnHook, CheckpointStarts, CheckpointEnds, Starts, all_parted};

use moo_session_task::{Hook, Session, WorldState, call_server_verb, run_hooks, word_list};
use moo_value::{ListLimit, MooList, MooStr, Value};
use moo_world::World;
use std::alloc::{AllocError, Global};

/// Calls `checkpoint_started` of #0, since a checkpoint is about to begin, and runs the hooks that it causes. Fails
/// only if memory runs out.
pub fn checkpoint_starts(
    alloc: Global,
    live: &mut WorldState,
    moment: u32,
) -> Result<(), AllocError>
    ensures { OnOk result (CheckpointStarts Faults moment live.old live.new) }
{
    let args = no_values(alloc)?;
    call_own_hook(alloc, live, moment, b"checkpoint_started", args)
}

/// Calls `checkpoint_finished` of #0, since a checkpoint has ended, and runs the hooks that it causes. The argument is
/// 1 if the checkpoint was done, and 0 if it failed. Fails only if memory runs out.
pub fn checkpoint_ends(
    alloc: Global,
    live: &mut WorldState,
    moment: u32,
    done: bool,
) -> Result<(), AllocError>
    ensures { OnOk result (CheckpointEnds Faults moment done live.old live.new) }
{
    let args = one_number(alloc, outcome(done))?;
    call_own_hook(alloc, live, moment, b"checkpoint_finished", args)
}

/// Starts a server over a world in which these players were connected when it was saved. Runs `user_disconnected` for
/// each, in this order, then `server_started` of #0, with the hooks that they cause. Returns the world with its
/// sessions. Fails only if memory runs out.
pub fn start(
    alloc: Global,
    world: World,
    players: &[i32],
    moment: u32,
) -> Result<WorldState, AllocError>
    ensures { IfOk result (λ live. Starts Faults moment players.now world live) }
{
    let mut live = WorldState {
        world,
        session: Session::new(alloc),
    };
    part_all(&mut live.session, players)?;
    run_hooks(alloc, &mut live, moment)?;
    let args = no_values(alloc)?;
    call_own_hook(alloc, &mut live, moment, b"server_started", args)?;
    Ok(live)
}

fn part_all(session: &mut Session, players: &[i32]) -> Result<(), AllocError>
    ensures { OnOk result (session.new ≡ all_parted players.now session.old) }
{
    for player in players {
        session.cause(Hook::Disconnected(*player))?;
    }
    Ok(())
}

// Calls a hook of the server's own, which has no player, and runs what it causes.
fn call_own_hook(
    alloc: Global,
    live: &mut WorldState,
    moment: u32,
    name: &[u8],
    args: MooList,
) -> Result<(), AllocError>
    requires { IsString name.now }
    ensures { OnOk result (CallsOwnHook Faults moment name.now args live.old live.new) }
{
    let argstr = MooStr::empty(alloc)?;
    let _answer = call_server_verb(alloc, live, moment, name, -1, args, argstr)?;
    run_hooks(alloc, live, moment)
}

fn no_values(alloc: Global) -> Result<MooList, AllocError>
    ensures { IfOk result (λ list. list ≡ []) }
{
    word_list(alloc, Vec::new(alloc))
}

// Returns 1 if a checkpoint was done, and 0 if it failed.
fn outcome(done: bool) -> i32
    ensures { result ≡ (if done then pos 1 else pos 0) }
{
    i32::from(done)
}

// Returns a list of one number.
fn one_number(alloc: Global, number: i32) -> Result<MooList, AllocError>
    ensures { IfOk result (λ list. list ≡ integer number ∷ []) }
{
    let mut values = Vec::new(alloc);
    values.push(Value::Int(number))?;
    match MooList::try_from_vec(alloc, values) {
        Ok(list) => Ok(list),
        Err(ListLimit::Memory) => Err(AllocError),
        Err(ListLimit::TooLarge) => unreachable!(),
    }
}
