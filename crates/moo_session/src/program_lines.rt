//! Lines that are gathered.
ghost use Rattle.std.specs.Prelude.{◌≡◌, OnOk, IsSomeAnd, IsSome};
ghost use Rattle.moo_builtin.specs.Telling.{Faults};
ghost use Rattle.moo_session.specs.DotProgram.{Gathers, gathering_of, is_dot};

use crate::program_end::end_programming;
use moo_session_task::WorldState;
use moo_value::MooStr;
use std::alloc::{AllocError, Global};

/// Takes a line of the connection of this number, which gathers lines: the line is kept, or it is the dot that ends
/// them. Fails only if memory runs out.
pub fn gather(
    alloc: Global,
    live: &mut WorldState,
    number: u16,
    player: i32,
    line: MooStr,
) -> Result<(), AllocError>
    requires { IsSome (gathering_of number live.old.session) }
    ensures { OnOk result (IsSomeAnd (gathering_of number live.old.session) (λ g. Gathers Faults number player g line live.old live.new)) }
{
    let connections = live.session.connections_mut();
    let mut gathering = connections.take_gathering(number).unwrap();
    if is_dot(&line) {
        return end_programming(alloc, live, number, player, &gathering);
    }
    gathering.push(line)?;
    let connections = live.session.connections_mut();
    connections.gather(number, Some(gathering));
    Ok(())
}

fn is_dot(line: &MooStr) -> bool
    ensures { result ≡ is_dot line.now }
{
    line.as_bytes() == b".".as_slice()
}
