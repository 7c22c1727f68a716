//! The events that a round gives to a server first.
ghost use Rattle.std.specs.Prelude.{◌≡◌, ◌++◌, List, IfOk, OnOk};
ghost use Rattle.moo_server_core.specs.declared.event.Event as given;
ghost use Rattle.moo_cli_serve.specs.Rounds.{Begins, IsTold};

use crate::console::Console;
use log::{Log, warn};
use moo_cli_sockets::Sockets;
use moo_server_core::Event;
use std::alloc::{AllocError, Global};
use std::rt::Clock;
use std::time::Duration;

/// Returns the events of a round: those of the sockets and of the console, the moment, and a flush. Sets the last reported
/// moment. Fails only if memory runs out.
pub fn come<L: Clock + Log>(
    rt: &L,
    alloc: Global,
    sockets: &mut Sockets,
    console: &mut Console,
    moment: &mut u32,
    is_late: &mut bool,
) -> Result<Vec<Event>, AllocError>
    ensures { IfOk result (λ events. Begins sockets.old sockets.new console.old console.new moment.old moment.new events.items) }
{
    let mut events = sockets.take(rt)?;
    console.take(alloc, &mut events)?;
    let now = now(rt);
    report_back(rt, now, *moment, is_late);
    tell(now, moment, &mut events)?;
    events.push(Event::Flush)?;
    Ok(events)
}

// Logs that the clock was set back, once until it has passed the last reported moment.
fn report_back<L: Log>(rt: &L, now: Option<u32>, moment: u32, is_late: &mut bool) {
    let late = match now {
        Some(now) => moment.saturating_sub(now),
        None => 0,
    };
    if late != 0 && !*is_late {
        warn!(rt; target: "moo::serve", "the clock was set back: no checkpoint comes by time for {late} seconds, only if asked for; a restart ends that");
    }
    *is_late = late != 0;
}

// Appends the moment, unless the clock was set back. Then the last reported moment stays until the clock has passed it.
fn tell(now: Option<u32>, moment: &mut u32, events: &mut Vec<Event>) -> Result<(), AllocError>
    ensures { OnOk result ((timed : List given.Event) × IsTold now moment.old moment.new timed × (events.new.items ≡ events.old.items ++ timed)) }
{
    match now {
        Some(now) if now >= *moment => {
            *moment = now;
            events.push(Event::Moment(now))?;
        }
        _ => {}
    }
    Ok(())
}

/// Returns the time of a clock that is never set, or 0 if it can't be read.
pub fn time(clock: &impl Clock) -> Duration {
    clock.monotonic().unwrap_or(Duration::ZERO)
}

/// Returns the seconds since 1970, or `None` if the clock fails or is past the year 2106.
pub fn now(clock: &impl Clock) -> Option<u32> {
    let since = clock.since_1970().ok()?;
    u32::try_from(since.as_secs()).ok()
}
