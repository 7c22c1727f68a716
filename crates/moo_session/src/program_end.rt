//! The end of the lines of a program.
ghost use Rattle.std.specs.Prelude.{◌≡◌, OnOk, true};
ghost use Rattle.moo_builtin.specs.Setting.{is_of_text};
ghost use Rattle.moo_builtin.specs.Telling.{Faults};
ghost use Rattle.moo_session.specs.DotProgram.{EndsProgramming, programmed, told_fault};

use crate::dot_program::own_verb;
use moo_session_connection::Gathering;
use moo_session_task::{Session, WorldState};
use moo_syntax::{SyntaxFault, SyntaxFaultKind, parse};
use moo_syntax_grammar::Names;
use moo_syntax_program::Program;
use moo_world::{Rights, WorldFault};
use std::alloc::{AllocError, Global};

/// Makes the lines the program of the verb that they were gathered for. Sends the connection of this number a line that
/// says so, or lines that say why not. Fails only if memory runs out.
pub(crate) fn end_programming(
    alloc: Global,
    live: &mut WorldState,
    number: u16,
    player: i32,
    gathering: &Gathering,
) -> Result<(), AllocError>
    ensures { OnOk result (EndsProgramming Faults number player gathering.now live.old live.new) }
{
    let o = gathering.object();
    let Some(index) = own_verb(&live.world, o, gathering.verb().as_bytes()) else {
        return live.session.send(number, b"No such verb.");
    };
    if !Rights::may_write_verb(&live.world, player, o, index) {
        return live.session.send(number, b"Permission denied.");
    }
    match parse(alloc, gathering.lines(), Names::Known) {
        Ok(program) => set_program(live, number, o, index, program),
        Err(fault) => report_fault(alloc, &mut live.session, number, &fault),
    }
}

fn set_program(
    live: &mut WorldState,
    number: u16,
    o: i32,
    index: usize,
    program: Program,
) -> Result<(), AllocError>
    ensures { OnOk result (live.new ≡ programmed number o index program live.old) }
{
    match live.world.set_program(o, index, Some(program)) {
        Ok(()) => live.session.send(number, b"Verb programmed."),
        Err(WorldFault::Raise(_)) => live.session.send(number, b"Verb not programmed."),
        Err(WorldFault::Memory) => unreachable!(),
    }
}

fn report_fault(
    alloc: Global,
    session: &mut Session,
    number: u16,
    fault: &SyntaxFault,
) -> Result<(), AllocError>
    ensures told { OnOk result (session.new ≡ told_fault number fault.now session.old) }
    ensures kind { OnOk result (is_of_text fault.now.kind ≡ true) }
{
    if matches!(fault.kind, SyntaxFaultKind::Memory) {
        return Err(AllocError);
    }
    let text = fault.text(alloc)?;
    session.send(number, &text)?;
    session.send(number, b"Verb not programmed.")
}
