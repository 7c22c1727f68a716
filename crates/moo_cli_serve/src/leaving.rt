//! The output of a round, and the connections that it closes.
ghost use Rattle.std.specs.Prelude.{◌≡◌, ◌≢◌, ◌<◌, ◌++◌, ℕ, None, Contains, false, true, IfOk, OnOk};
ghost use Rattle.std.specs.List.{AllPairs};
ghost use Rattle.moo_cli_sockets.specs.Coming.{held};
ghost use Rattle.moo_cli_sockets.specs.Reading.{IsAlike};
ghost use Rattle.moo_cli_serve.specs.Idle.{IsIdle};
ghost use Rattle.moo_cli_serve.specs.Room.{HasRoom, HaveRoom};
ghost use Rattle.moo_server_core.specs.Application.{Output};
ghost use Rattle.moo_server_core.specs.Server.{Hands, waiting_of};
ghost use Rattle.moo_cli_serve.specs.Rounds.{Logs};
ghost use Rattle.moo_cli_serve.specs.Silence.{is_silent};
ghost use Rattle.moo_cli_serve.specs.Writing.{IsLeft, IsWrittenTo, Writes, is_among, is_parted};

use crate::console::Console;
use crate::timeouts::Timeouts;
use log::{Log, info, warn};
use moo_cli_sockets::{Sockets, put, sort_numbers};
use moo_server_core::{Event, ServerCore, StartApplication};
use std::alloc::{AllocError, Global};

/// Writes once to each socket for which output came since the last round, or which can take more of what waits for it.
/// Returns the hang-ups of the connections that it closes. Nothing happens to the other sockets, so they cost no time: if the
/// last round ended well, none of them has more waiting than may. Fails only if memory runs out.
pub fn write_all<S: StartApplication, L: Log>(
    rt: &L,
    alloc: Global,
    server: &mut ServerCore<S>,
    sockets: &mut Sockets,
    most_waiting: usize,
    is_settled: bool,
    now: u64,
    timeouts: &mut Timeouts,
) -> Result<Vec<Event>, AllocError>
    requires { is_settled ≡ true → HaveRoom most_waiting sockets.old.sockets }
    ensures handed { (handed : Output) × Hands S.layer handed server.old server.new }
    ensures written { IfOk result (λ events. Writes S.layer most_waiting (is_silent timeouts.new.silence now) server.old server.new sockets.old.sockets sockets.new.sockets events.items) }
    ensures room { OnOk result (HaveRoom most_waiting sockets.new.sockets) }
    ensures heard { timeouts.new.silence.heard ≡ timeouts.old.silence.heard }
    ensures limit { timeouts.new.silence.limit ≡ timeouts.old.silence.limit }
    ensures logins { timeouts.new.strangers.limits ≡ timeouts.old.strangers.limits }
    ensures alike { IsAlike sockets.old sockets.new }
{
    let late = timeouts.find_late(rt, alloc, now, server, sockets)?;
    let due = due(alloc, server, sockets, &late, is_settled)?;
    let mut parted = Vec::new(alloc);
    for c in &due {
        let is_late = is_among(&late, *c);
        let event = write(rt, server, sockets, *c, most_waiting, is_late)?;
        put(&mut parted, event)?;
    }
    Ok(parted)
}

// Returns the numbers of the connections to which something may happen, by rising number.
fn due<S: StartApplication>(
    alloc: Global,
    server: &ServerCore<S>,
    sockets: &mut Sockets,
    late: &[u16],
    is_settled: bool,
) -> Result<Vec<u16>, AllocError>
    ensures rising { IfOk result (λ due. AllPairs (λ a b. a < b) due.items) }
    ensures rest { IfOk result (λ due. (c : ℕ) → c < 65536 → (Contains due.items c → ⊥) → IsIdle S.layer is_settled late.now server.now sockets.new.sockets c) }
    ensures same { sockets.new.sockets ≡ sockets.old.sockets }
    ensures alike { IsAlike sockets.old sockets.new }
{
    let pending = server.pending()?;
    let writable = sockets.take_writable();
    let others = unsettled(alloc, sockets, is_settled)?;
    let mut due = joined(pending, late, writable, others)?;
    sort_numbers(&mut due);
    Ok(due)
}

// Appends three lists of numbers to the first one.
fn joined(
    pending: Vec<u16>,
    late: &[u16],
    writable: Vec<u16>,
    others: Vec<u16>,
) -> Result<Vec<u16>, AllocError>
    ensures { IfOk result (λ all. all.items ≡ ((pending.items ++ late.now) ++ writable.items) ++ others.items) }
{
    let mut all = pending;
    all.extend_from_slice(late)?;
    all.extend_from_slice(&writable)?;
    all.extend_from_slice(&others)?;
    Ok(all)
}

// Returns the numbers of all sockets, perhaps with others, unless the last round ended well.
fn unsettled(alloc: Global, sockets: &Sockets, is_settled: bool) -> Result<Vec<u16>, AllocError>
    ensures { IfOk result (λ numbers. is_settled ≡ false → (c : ℕ) → c < 65536 → (Contains numbers.items c → ⊥) → held sockets.now.sockets c ≡ None) }
{
    if is_settled {
        return Ok(Vec::new(alloc));
    }
    let capacity = sockets.capacity();
    let numbers = numbers_below(alloc, capacity)?;
    Ok(numbers)
}

// Returns the numbers of connections that are below a bound.
fn numbers_below(alloc: Global, bound: usize) -> Result<Vec<u16>, AllocError>
    ensures { IfOk result (λ numbers. (c : ℕ) → c < 65536 → c < bound → Contains numbers.items c) }
{
    let mut numbers = Vec::new(alloc);
    for key in 0..bound {
        let Ok(c) = u16::try_from(key) else { break };
        numbers.push(c)?;
    }
    Ok(numbers)
}

// Writes once to a connection's socket, if it has one. Returns its hang-up if the connection is closed.
fn write<S: StartApplication, L: Log>(
    rt: &L,
    server: &mut ServerCore<S>,
    sockets: &mut Sockets,
    c: u16,
    most_waiting: usize,
    is_late: bool,
) -> Result<Option<Event>, AllocError>
    ensures handed { (handed : Output) × Hands S.layer handed server.old server.new }
    ensures written { IfOk result (λ event. IsWrittenTo S.layer most_waiting is_late server.old server.new sockets.old.sockets sockets.new.sockets c event) }
    ensures others { OnOk result ((k : ℕ) → k ≢ c → IsLeft S.layer k server.old server.new sockets.old.sockets sockets.new.sockets) }
    ensures room { OnOk result (HasRoom most_waiting sockets.new.sockets c) }
    ensures log { (waiting_of S.layer server.new).logged ≡ (waiting_of S.layer server.old).logged }
    ensures alike { IsAlike sockets.old sockets.new }
{
    if !sockets.contains(c) {
        return Ok(None);
    }
    let is_leaving = server.is_leaving(c);
    let output = server.take_output(c);
    let waiting = sockets.write(c, output)?;
    if !is_parted(most_waiting, is_leaving, is_late, waiting) {
        sockets.keep_writable(c)?;
        return Ok(None);
    }
    report_waiting(rt, c, most_waiting, waiting);
    sockets.close(c);
    Ok(Some(Event::Hangup(c)))
}

// Returns whether a connection is hung up: the socket failed, or the connection leaves and nothing waits, or too much
// waits, or it is late: nobody has logged in on it in time, or it has sent nothing for long.
fn is_parted(most: usize, is_leaving: bool, is_late: bool, waiting: Option<usize>) -> bool
    ensures { result ≡ is_parted most is_leaving is_late waiting }
{
    match waiting {
        Some(waiting) => (is_leaving && waiting == 0) || waiting > most || is_late,
        None => true,
    }
}

fn is_among(numbers: &[u16], c: u16) -> bool
    ensures { result ≡ is_among numbers.now c }
{
    numbers.iter().any(|number| *number == c)
}

fn report_waiting<L: Log>(rt: &L, c: u16, most: usize, waiting: Option<usize>) {
    if let Some(waiting) = waiting {
        if waiting > most {
            warn!(rt; target: "moo::serve", "connection {c} is hung up: {waiting} bytes wait for it");
        }
    }
}

/// Takes what waits for the console, and shows it there. Takes the lines that wait for the log, and logs them. Their target
/// is `moo`.
pub fn log_lines<S: StartApplication, L: Log>(
    rt: &L,
    console: &mut Console,
    server: &mut ServerCore<S>,
)
    ensures { Logs S.layer console.old console.new server.old server.new }
{
    console.show(server);
    let lines = server.take_log();
    for line in &lines {
        if let Ok(line) = str::from_utf8(line.as_bytes()) {
            info!(rt; target: "moo", "{line}");
        }
    }
}
