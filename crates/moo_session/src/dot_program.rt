//! How a player begins to program a verb.
ghost use Rattle.std.specs.Prelude.{◌≡◌, position, OnOk, IfOk};
ghost use Rattle.moo_session_task.specs.Sending.{sent};
ghost use Rattle.moo_session.specs.DotProgram.{is_colon, programming_begun, begun_by_word, begun_for, gathering_for, own_verb, ready_line};

use moo_builtin::is_programmer;
use moo_command::match_object;
use moo_session_connection::Gathering;
use moo_session_task::Session;
use moo_value::{MooStr, Value};
use moo_world::{Rights, World};
use moo_world_object::Need;
use std::alloc::{AllocError, Global};

/// Runs `.program` with these words after it. The connection of this number gathers lines from now on, or gets a line
/// that says why not. Fails only if memory runs out.
pub fn begin_programming(
    alloc: Global,
    world: &World,
    session: &mut Session,
    number: u16,
    player: i32,
    words: &[MooStr],
) -> Result<(), AllocError>
    ensures { OnOk result (session.new ≡ programming_begun world.now number player words.now session.old) }
{
    if !is_programmer(world, player) {
        return session.send(number, b"You are not a programmer.");
    }
    match words {
        [word] => begin_by_word(alloc, world, session, number, player, word),
        _ => session.send(number, b"Usage: .program OBJECT:VERB"),
    }
}

// Splits at the first colon: the text before it names an object, the text after it a verb.
fn begin_by_word(
    alloc: Global,
    world: &World,
    session: &mut Session,
    number: u16,
    player: i32,
    word: &MooStr,
) -> Result<(), AllocError>
    ensures { OnOk result (session.new ≡ begun_by_word world.now number player word.now session.old) }
{
    let bytes = word.as_bytes();
    match colon_in(bytes) {
        Some(colon) => {
            let o = match_object(world, player, &bytes[..colon]);
            let verb = word.part(alloc, colon + 1, bytes.len())?;
            begin_for(alloc, world, session, number, player, o, verb)
        }
        None => session.send(number, b"Usage: .program OBJECT:VERB"),
    }
}

fn colon_in(bytes: &[u8]) -> Option<usize>
    ensures { result ≡ position is_colon bytes.now }
{
    bytes.iter().position(|byte| *byte == b':')
}

fn begin_for(
    alloc: Global,
    world: &World,
    session: &mut Session,
    number: u16,
    player: i32,
    o: i32,
    verb: MooStr,
) -> Result<(), AllocError>
    ensures { OnOk result (session.new ≡ begun_for world.now number player o verb session.old) }
{
    match own_verb(world, o, verb.as_bytes()) {
        Some(index) if Rights::may_write_verb(world, player, o, index) => {
            gather_for(alloc, session, number, o, verb)
        }
        Some(_) => session.send(number, b"Permission denied."),
        None => session.send(number, b"No such verb."),
    }
}

fn gather_for(
    alloc: Global,
    session: &mut Session,
    number: u16,
    o: i32,
    verb: MooStr,
) -> Result<(), AllocError>
    ensures { OnOk result (session.new ≡ gathering_for number o verb (sent number (ready_line o verb) session.old)) }
{
    let line = ready_line(alloc, o, verb.as_bytes())?;
    session.send(number, &line)?;
    let gathering = Gathering::new(alloc, o, verb);
    session.connections_mut().gather(number, Some(gathering));
    Ok(())
}

fn ready_line(alloc: Global, o: i32, verb: &[u8]) -> Result<Vec<u8>, AllocError>
    ensures { IfOk result (λ line. line.items ≡ ready_line o verb.now) }
{
    let mut line = Vec::from_slice(alloc, b"Now programming ")?;
    line.extend_from_slice(&Value::Obj(o).to_literal(alloc)?)?;
    line.extend_from_slice(b":")?;
    line.extend_from_slice(verb)?;
    line.extend_from_slice(b". Use \".\" to end.")?;
    Ok(line)
}

/// Returns the place of the first verb of an object's own that a name fits.
pub(crate) fn own_verb(world: &World, o: i32, name: &[u8]) -> Option<usize>
    ensures { result ≡ own_verb world.now o name.now }
{
    world.object(o)?.verb_position(Need::Any, name)
}
