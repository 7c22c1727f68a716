//! What happens to a world with its connections, and what comes of it.
ghost use Rattle.std.specs.Prelude.{◌≡◌, ◌++◌, ◌&&◌, not, ℕ, true, IfOk, OnOk};
ghost use Rattle.moo_builtin.specs.Telling.{Faults};
ghost use Rattle.moo_session_connection.specs.Streams.{stream};
ghost use Rattle.moo_server_core.specs.Application.{IsApt, is_dropped, seen_happening};
ghost use Rattle.moo_session_connection.specs.Outbox.{log_under_way, log_waiting, sent_under_way, sent_waiting};
ghost use Rattle.moo_server.specs.Live.{Becomes, live_meaning, settled};

use moo_server_core::{Input, Requests};
use moo_session::{WorldState, checkpoint_ends, checkpoint_starts, hang_up, open, receive};
use moo_session_connection::Outbox;
use std::alloc::{AllocError, Global};

/// Drops what an earlier happening has left. It takes no memory.
pub(crate) fn discard_leftovers(live: &mut WorldState)
    ensures { live.new ≡ settled live.old }
{
    let _sent = live.session.take_sent();
    let _log = live.session.take_log();
    let _asked = live.session.take_asked();
}

/// Returns whether a happening is bytes of a connection that is leaving. Such bytes change nothing.
pub(crate) fn is_dropped(live: &WorldState, happening: Input) -> bool
    ensures nothing { result ≡ true → (moment : ℕ) → Becomes Faults (seen_happening happening.entry) moment (settled live.now) (settled live.now) }
    ensures is { result ≡ is_dropped (live_meaning Faults) live.now (seen_happening happening.entry) }
{
    match happening {
        Input::Receives(c, _) => live.session.connections().is_leaving(c),
        _ => false,
    }
}

/// Applies a happening to the world and its connections, with the hooks that it causes. Err is out of memory.
pub(crate) fn apply(
    alloc: Global,
    live: &mut WorldState,
    moment: u32,
    happening: Input,
) -> Result<(), AllocError>
    requires { IsApt (live_meaning Faults) live.old (seen_happening happening) }
    ensures { OnOk result (Becomes Faults (seen_happening happening.entry) moment live.old live.new) }
{
    match happening {
        Input::Opens(c) => open(alloc, live, moment, c),
        Input::Receives(c, piece) => receive(alloc, live, moment, c, piece),
        Input::HangsUp(c) => hang_up(alloc, live, moment, c),
        Input::Starts => checkpoint_starts(alloc, live, moment),
        Input::Finishes(done) => checkpoint_ends(alloc, live, moment, done),
    }
}

/// Appends what was sent and logged to the output, and returns what was requested. A shutdown is among that only if it
/// began in this happening. Err is out of memory.
pub(crate) fn move_out(
    live: &mut WorldState,
    was_closing: bool,
    outbox: &mut Outbox,
) -> Result<Requests, AllocError>
    ensures live { live.new ≡ settled live.old }
    ensures checkpoint { IfOk result (λ asked. asked.checkpoint ≡ live.old.session.asked) }
    ensures shutdown { IfOk result (λ asked. asked.shutdown ≡ (live.old.session.closing && not was_closing)) }
    ensures sent { OnOk result ((c : ℕ) → sent_under_way outbox.new c ≡ sent_under_way outbox.old c ++ stream c live.old.session.sent) }
    ensures log { OnOk result (log_under_way outbox.new ≡ log_under_way outbox.old ++ live.old.session.log) }
    ensures waiting { (c : ℕ) → sent_waiting outbox.new c ≡ sent_waiting outbox.old c }
    ensures log_waiting { log_waiting outbox.new ≡ log_waiting outbox.old }
{
    let sent = live.session.take_sent();
    let log = live.session.take_log();
    let checkpoint = live.session.take_asked();
    let shutdown = live.session.is_closing() && !was_closing;
    outbox.add(&sent, &log)?;
    Ok(Requests {
        checkpoint,
        shutdown,
    })
}
