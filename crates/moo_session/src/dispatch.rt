//! A player's command, with what goes before and after it.
ghost use Rattle.std.specs.Prelude.{◌≡◌, ◌∷◌, OnOk, IfOk, IsSomeAnd, IsSome};
ghost use Rattle.moo_builtin.specs.Telling.{Faults};
ghost use Rattle.moo_command.specs.FirstWord.{IsTyped};
ghost use Rattle.moo_command.specs.Seen.{command_of};
ghost use Rattle.moo_session.specs.Dispatch.{Commanded, FollowsDoCommand, RunsVerb, is_true_answer, sent_unless_empty};
ghost use Rattle.moo_session_connection.specs.Connections.{client_here};
ghost use Rattle.moo_session_line.specs.Rest.{IsLine};
ghost use Rattle.moo_session_task.specs.Seen.{seen_answer};
ghost use Rattle.moo_session_task.specs.WordList.{FitsAList};

use crate::verb_choice::{command_frame, verb_to_run};
use moo_builtin_operator::is_true;
use moo_command::laws::words_are_light;
use moo_command::{Command, Typed, parse_typed};
use moo_session_task::{Session, WorldState, call_server_verb, run, word_list};
use moo_value::{MooStr, Value};
use std::alloc::{AllocError, Global};

/// Runs a player's command, a line with its words, on the connection of this number, which is open and not leaving.
/// Fails only if memory runs out.
pub(crate) fn command(
    alloc: Global,
    live: &mut WorldState,
    moment: u32,
    number: u16,
    player: i32,
    typed: Typed,
) -> Result<(), AllocError>
    requires typed { IsTyped typed.line typed.verb typed.rest typed.args.items }
    requires line { IsLine typed.line }
    requires here { IsSome (client_here number live.old.session.connections) }
    ensures { OnOk result (IsSomeAnd (client_here number live.old.session.connections) (λ client. Commanded Faults moment number client player (typed.verb ∷ typed.args.items) typed.line live.old live.new)) }
{
    let client = live.session.connections().client_here(number).unwrap();
    let prefix = client.prefix.try_clone()?;
    let suffix = client.suffix.try_clone()?;
    send_unless_empty(&mut live.session, number, &prefix)?;
    let words = all_words(alloc, &typed)?;
    words_are_light();
    let args = word_list(alloc, words)?;
    let argstr = typed.line.try_clone()?;
    let answer = call_server_verb(alloc, live, moment, b"do_command", player, args, argstr)?;
    follow(alloc, live, moment, number, player, typed, &answer)?;
    send_unless_empty(&mut live.session, number, &suffix)
}

// Returns the first word and the others.
fn all_words(alloc: Global, typed: &Typed) -> Result<Vec<MooStr>, AllocError>
    ensures { IfOk result (λ words. words.items ≡ typed.now.verb ∷ typed.now.args.items) }
{
    let mut words = Vec::new(alloc);
    words.push(typed.verb.try_clone()?)?;
    for word in &typed.args {
        words.push(word.try_clone()?)?;
    }
    Ok(words)
}

fn send_unless_empty(session: &mut Session, number: u16, line: &MooStr) -> Result<(), AllocError>
    ensures { OnOk result (session.new ≡ sent_unless_empty number line.now session.old) }
{
    if line.as_bytes().is_empty() {
        Ok(())
    } else {
        session.send(number, line.as_bytes())
    }
}

// Runs what comes after `do_command`, which gave this answer.
fn follow(
    alloc: Global,
    live: &mut WorldState,
    moment: u32,
    number: u16,
    player: i32,
    typed: Typed,
    answer: &Option<Value>,
) -> Result<(), AllocError>
    requires typed { IsTyped typed.line typed.verb typed.rest typed.args.items }
    requires line { IsLine typed.line }
    ensures { OnOk result (FollowsDoCommand Faults moment number player typed.line (seen_answer answer.now) live.old live.new) }
{
    if is_true_answer(answer) {
        return Ok(());
    }
    let command = parse_typed(alloc, &live.world, player, typed)?;
    words_are_light();
    run_verb(alloc, live, moment, number, player, command)
}

fn is_true_answer(answer: &Option<Value>) -> bool
    ensures { result ≡ is_true_answer (seen_answer answer.now) }
{
    match answer {
        Some(value) => is_true(value),
        None => false,
    }
}

// Runs the verb that a command means, or sends a line that there is none.
fn run_verb(
    alloc: Global,
    live: &mut WorldState,
    moment: u32,
    number: u16,
    player: i32,
    command: Command,
) -> Result<(), AllocError>
    requires { FitsAList (command_of command).args }
    ensures { OnOk result (RunsVerb Faults moment number player (command_of command) live.old live.new) }
{
    let Some((this, found)) = verb_to_run(&live.world, player, &command) else {
        return live.session.send(number, b"I couldn't understand that.");
    };
    let frame = command_frame(alloc, found, this, player, command)?;
    let _answer = run(alloc, live, moment, frame)?;
    Ok(())
}
