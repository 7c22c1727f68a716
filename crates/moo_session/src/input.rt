//! The lines of an event.
ghost use Rattle.std.specs.Prelude.{◌≡◌, OnOk, All, is_none};
ghost use Rattle.moo_builtin.specs.Telling.{Faults};
ghost use Rattle.moo_session_connection.specs.Connections.{client_here};
ghost use Rattle.moo_session_line.specs.Rest.{IsLine};
ghost use Rattle.moo_session.specs.Inner.{MeetsNext};
ghost use Rattle.moo_session.specs.Input.{MeetsLines};

use crate::typed_line::type_line;
use moo_session_task::{Session, WorldState, run_hooks};
use moo_value::MooStr;
use std::alloc::{AllocError, Global};

/// Runs the lines of the connection of this number, one after another, each with the hooks that it causes. Drops those
/// of a connection that isn't open, or is leaving. Fails only if memory runs out.
pub fn meet_lines(
    alloc: Global,
    live: &mut WorldState,
    moment: u32,
    number: u16,
    lines: &[MooStr],
) -> Result<(), AllocError>
    requires { All IsLine lines.now }
    ensures { OnOk result (MeetsLines Faults moment number lines.now live.old live.new) }
{
    for line in lines {
        meet_line(alloc, live, moment, number, line)?;
    }
    Ok(())
}

// Runs one line with its hooks, if the connection is there.
fn meet_line(
    alloc: Global,
    live: &mut WorldState,
    moment: u32,
    number: u16,
    line: &MooStr,
) -> Result<(), AllocError>
    requires { IsLine line.now }
    ensures { OnOk result (MeetsNext moment number line.now live.old live.new) }
{
    if is_absent(&live.session, number) {
        return Ok(());
    }
    type_line(alloc, live, moment, number, line)?;
    run_hooks(alloc, live, moment)
}

fn is_absent(session: &Session, number: u16) -> bool
    ensures { result ≡ is_none (client_here number session.now.connections) }
{
    session.connections().client_here(number).is_none()
}
