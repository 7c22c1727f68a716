//! Connections on which nobody logs in: which of them are hung up, and when.
ghost use Rattle.std.specs.Prelude.{◌≡◌, All, IfOk, IfSome, true};
ghost use Rattle.moo_cli_serve.specs.Strangers.{is_stranger};

use log::{Log, warn};
use moo_cli_sockets::{Age, Sockets};
use moo_server_core::{ServerCore, StartApplication};
use std::alloc::{AllocError, Global};

/// The limits for strangers: the connections on which no player is connected, and which aren't leaving.
#[derive(Clone, Copy, Debug, PartialEq, Eq)]
pub struct LoginLimits {
    /// The seconds after which a stranger is hung up, or 0 for no limit.
    pub seconds: u64,
    /// The greatest number of strangers, or 0 for no limit. If there are more, the oldest one is hung up.
    pub most: usize,
}

/// Finds the strangers that are hung up.
#[derive(Drop)]
pub struct Strangers {
    limits: LoginLimits,
    /// The second of the last search.
    second: u64,
    /// The number of connections that had been accepted at the last search.
    arrivals: u64,
    /// The number of strangers at the last search. More of them come only by new connections.
    count: usize,
    /// The second of the last line of the log.
    told: Option<u64>,
    /// The number of hang-ups since then, which the next line counts.
    untold: u64,
}

impl Strangers {
    /// Returns a search that has found nobody yet.
    pub fn new(limits: LoginLimits) -> Strangers
        ensures { result.limits ≡ limits }
    {
        Strangers {
            limits,
            second: 0,
            arrivals: 0,
            count: 0,
            told: None,
            untold: 0,
        }
    }

    /// Returns the strangers that are hung up now, and logs it. These are all that are past the seconds of the limits,
    /// and the oldest one if there are too many. Without limits there are none. Searches only in a new second, or after
    /// new connections with which there may be too many. Fails only if memory runs out.
    pub fn find_late<S: StartApplication, L: Log>(
        &mut self,
        rt: &L,
        alloc: Global,
        now: u64,
        server: &ServerCore<S>,
        sockets: &Sockets,
    ) -> Result<Vec<u16>, AllocError>
        ensures late { IfOk result (λ late. All (λ c. is_stranger S.layer server.now c ≡ true) late.items) }
        ensures limits { self.new.limits ≡ self.old.limits }
    {
        if !self.is_due(now, sockets.arrivals()) {
            return Ok(Vec::new(alloc));
        }
        self.second = now;
        self.arrivals = sockets.arrivals();
        let mut late = overdue(alloc, server, sockets, now, self.limits.seconds)?;
        let most = self.limits.most;
        self.count = count_strangers(server, sockets);
        if most != 0 && self.count > most {
            if let Some(c) = oldest(server, sockets) {
                late.push(c)?;
            }
        }
        self.report_late(rt, now, &late);
        Ok(late)
    }

    // Returns whether there are limits, and a second has passed since the last search or there may be too many strangers.
    fn is_due(&self, now: u64, arrivals: u64) -> bool {
        let is_limited = self.limits.seconds != 0 || self.limits.most != 0;
        is_limited && (now != self.second || self.may_exceed(arrivals))
    }

    // Returns whether the connections since the last search may have brought too many strangers.
    fn may_exceed(&self, arrivals: u64) -> bool {
        let new = arrivals.wrapping_sub(self.arrivals);
        let count = (self.count as u64).saturating_add(new);
        self.limits.most != 0 && new != 0 && count > self.limits.most as u64
    }

    // Logs a hang-up, at most once a second. The next line counts those between.
    fn report_late<L: Log>(&mut self, rt: &L, now: u64, late: &[u16])
        ensures { self.new.limits ≡ self.old.limits }
    {
        let Some(c) = late.first() else { return };
        let others = self
            .untold
            .saturating_add((late.len() as u64).saturating_sub(1));
        if self.told == Some(now) {
            self.untold = others.saturating_add(1);
            return;
        }
        self.told = Some(now);
        self.untold = 0;
        warn!(rt; target: "moo::serve", "connection {c} is hung up: nobody has logged in, and {others} others since the last such line");
    }
}

/// Returns whether a connection is a stranger.
pub(crate) fn is_stranger<S: StartApplication>(server: &ServerCore<S>, c: u16) -> bool
    ensures { result ≡ is_stranger S.layer server.now c }
{
    !server.is_leaving(c) && server.player_on(c).is_none()
}

// Returns the strangers that are past so many seconds. 0 seconds are no limit.
fn overdue<S: StartApplication>(
    alloc: Global,
    server: &ServerCore<S>,
    sockets: &Sockets,
    now: u64,
    most: u64,
) -> Result<Vec<u16>, AllocError>
    ensures { IfOk result (λ found. All (λ c. is_stranger S.layer server.now c ≡ true) found.items) }
{
    let mut found = Vec::new(alloc);
    for key in 0..sockets.capacity() {
        let Ok(c) = u16::try_from(key) else { break };
        if is_past(sockets.age(c), now, most) && is_stranger(server, c) {
            found.push(c)?;
        }
    }
    Ok(found)
}

fn is_past(age: Option<Age>, now: u64, most: u64) -> bool {
    match age {
        Some(age) => most != 0 && age.seconds_until(now) >= most,
        None => false,
    }
}

// Returns the number of strangers.
fn count_strangers<S: StartApplication>(server: &ServerCore<S>, sockets: &Sockets) -> usize {
    let mut count = 0usize;
    for key in 0..sockets.capacity() {
        let Ok(c) = u16::try_from(key) else { break };
        if sockets.contains(c) && is_stranger(server, c) {
            count = count.saturating_add(1);
        }
    }
    count
}

// Returns the stranger that was accepted first, if there is one.
fn oldest<S: StartApplication>(server: &ServerCore<S>, sockets: &Sockets) -> Option<u16>
    ensures { IfSome result (λ c. is_stranger S.layer server.now c ≡ true) }
{
    let mut oldest = None;
    let mut least = u64::MAX;
    for key in 0..sockets.capacity() {
        let Ok(c) = u16::try_from(key) else { break };
        let arrival = arrival_of(sockets.age(c));
        if arrival < least && is_stranger(server, c) {
            least = arrival;
            oldest = Some(c);
        }
    }
    oldest
}

// Returns the place of a connection in the order of their arrivals.
fn arrival_of(age: Option<Age>) -> u64 {
    match age {
        Some(age) => age.arrival,
        None => u64::MAX,
    }
}
