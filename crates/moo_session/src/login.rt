//! `do_login_command`, and whom its answer connects.
ghost use Rattle.std.specs.Prelude.{◌≡◌, OnOk};
ghost use Rattle.moo_builtin.specs.Telling.{Faults};
ghost use Rattle.moo_session_task.specs.State.{in_session};
ghost use Rattle.moo_session.specs.Login.{LogsIn, is_player, admitted, let_in, object_in};
ghost use Rattle.moo_session_task.specs.Seen.{seen_answer};
ghost use Rattle.moo_session_task.specs.WordList.{FitsAList};

use crate::connect::connect;
use moo_session_task::{WorldState, call_server_verb, own_number, word_list};
use moo_value::{MooStr, Value};
use moo_world::World;
use std::alloc::{AllocError, Global};

/// Calls `do_login_command` for the connection of this number, with the words and the line that it sent, and connects
/// the player that it returns. Fails only if memory runs out.
pub fn log_in(
    alloc: Global,
    live: &mut WorldState,
    moment: u32,
    number: u16,
    words: Vec<MooStr>,
    line: MooStr,
) -> Result<(), AllocError>
    requires { FitsAList words.items }
    ensures { OnOk result (LogsIn Faults moment number words.items line live.old live.new) }
{
    let highest = live.world.max_object();
    let args = word_list(alloc, words)?;
    let answer = call_server_verb(
        alloc,
        live,
        moment,
        b"do_login_command",
        own_number(number),
        args,
        line,
    )?;
    let admitted = admitted(live, number, answer);
    let_in(live, moment, number, highest, admitted)
}

// Connects the player of an answer. A player with a number above the highest before the call is new.
fn let_in(
    live: &mut WorldState,
    moment: u32,
    number: u16,
    highest: i32,
    admitted: Option<i32>,
) -> Result<(), AllocError>
    ensures { OnOk result (live.new ≡ in_session (let_in number moment highest admitted) live.old) }
{
    match admitted {
        Some(player) => connect(&mut live.session, number, player, moment, highest < player),
        None => Ok(()),
    }
}

// Returns whom an answer connects.
fn admitted(live: &WorldState, number: u16, answer: Option<Value>) -> Option<i32>
    ensures { result ≡ admitted live.now number (seen_answer answer) }
{
    let player = object_in(answer)?;
    if is_player(&live.world, player) && live.session.connections().client_here(number).is_some() {
        Some(player)
    } else {
        None
    }
}

fn object_in(answer: Option<Value>) -> Option<i32>
    ensures { result ≡ object_in (seen_answer answer) }
{
    match answer {
        Some(Value::Obj(o)) => Some(o),
        _ => None,
    }
}

// Is true if this is a valid object with the player flag.
fn is_player(world: &World, o: i32) -> bool
    ensures { result ≡ is_player world.now o }
{
    match world.object(o) {
        Some(object) => object.flags().player,
        None => false,
    }
}
