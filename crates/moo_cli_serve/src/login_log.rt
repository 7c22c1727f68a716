//! The lines of the log on logins: who has logged in, who has left, and whose line has logged nobody in.
use crate::line_bound::LineBound;
use crate::strangers::is_stranger;
use log::{Log, info};
use moo_cli_sockets::CONSOLE;
use moo_server_core::{Event, Phase, ServerCore, StartApplication};
use std::alloc::{AllocError, Global};
use std::collections::BTreeMap;

/// Logs which players log in and which leave, and the lines at a login that log nobody in. For this it compares who is on
/// a connection before and after each event of that connection.
#[derive(Drop)]
pub struct LoginLog {
    /// Whether anything is logged.
    is_on: bool,
    /// The second of the last round, of a clock that is never set.
    second: u64,
    /// The bound on the lines on players.
    logins: LineBound,
    /// The bound on the lines on those who are no players. It is their own, so that they can't hide a login.
    refusals: LineBound,
    /// The player of each connection on which there is one.
    players: BTreeMap<u16, i32>,
    /// The connection of each of these players.
    connections: BTreeMap<i32, u16>,
}

impl LoginLog {
    /// Returns a log with at most so many lines in a second on players, and as many on others. With 0 it logs nothing.
    pub fn new(alloc: Global, most: u64) -> LoginLog {
        LoginLog {
            is_on: most != 0,
            second: 0,
            logins: LineBound::new(most),
            refusals: LineBound::new(most),
            players: BTreeMap::new(alloc),
            connections: BTreeMap::new(alloc),
        }
    }

    /// Begins a round in this second. If it is a new one, logs how many lines were left out in the last one.
    pub fn begin_round<L: Log>(&mut self, rt: &L, second: u64) {
        if self.is_on && second != self.second {
            self.second = second;
            self.report_omitted(rt);
        }
    }

    /// Returns whether an event that the server is to take next ends a line of somebody who isn't logged in. The console
    /// is the operator's, so its lines don't count.
    pub fn is_attempt<S: StartApplication>(&self, server: &ServerCore<S>, event: &Event) -> bool {
        match event {
            Event::Bytes(c, piece) => {
                self.is_on && *c != CONSOLE && has_line_end(piece) && is_stranger(server, *c)
            }
            Event::Open(_) | Event::Hangup(_) | Event::Moment(_) | Event::Flush => false,
        }
    }

    /// Logs what an event has changed that the server has just taken. `is_attempt` is what `is_attempt` returned before.
    pub fn follow<S: StartApplication, L: Log>(
        &mut self,
        rt: &L,
        server: &ServerCore<S>,
        event: &Event,
        is_attempt: bool,
    ) {
        if !self.is_on {
            return;
        }
        match event {
            Event::Open(c) | Event::Bytes(c, _) | Event::Hangup(c) => {
                self.compare(rt, server, *c);
                if is_attempt {
                    self.report_refusal(rt, server, *c);
                }
            }
            // No second comes after this one, in which the number of lines could be logged.
            Event::Flush if matches!(server.phase(), Phase::Closed) => self.report_omitted(rt),
            Event::Moment(_) | Event::Flush => {}
        }
    }

    // Compares the player on a connection with the one that was there, and logs the difference.
    fn compare<S: StartApplication, L: Log>(&mut self, rt: &L, server: &ServerCore<S>, c: u16) {
        let before = self.players.get(&c).copied();
        let now = server.player_on(c);
        if before == now {
            return;
        }
        if let Some(player) = before {
            self.leave(rt, c, player);
        }
        if let Some(player) = now {
            self.enter(rt, c, player);
        }
    }

    // Notes that a player is on a connection no longer, and logs it.
    fn leave<L: Log>(&mut self, rt: &L, c: u16, player: i32) {
        self.players.remove(&c);
        self.connections.remove(&player);
        if self.logins.try_count() {
            info!(rt; target: "moo::serve", "connection {c}: player #{player} has left");
        }
    }

    // Notes that a player is on a connection, and logs it. If memory runs out for the note, it may be logged again.
    fn enter<L: Log>(&mut self, rt: &L, c: u16, player: i32) {
        let earlier = self.note(c, player).unwrap_or(None);
        if !self.logins.try_count() {
            return;
        }
        match earlier {
            Some(earlier) => {
                info!(rt; target: "moo::serve", "connection {c}: player #{player} has logged in, and is no longer on connection {earlier}");
            }
            None => {
                info!(rt; target: "moo::serve", "connection {c}: player #{player} has logged in");
            }
        }
    }

    // Notes that a player is on a connection, and on no other. Returns the one that the player was on.
    fn note(&mut self, c: u16, player: i32) -> Result<Option<u16>, AllocError> {
        self.players.insert(c, player)?;
        let earlier = self.connections.insert(player, c)?;
        if let Some(earlier) = earlier {
            self.players.remove(&earlier);
        }
        Ok(earlier)
    }

    // Logs that a line has logged nobody in, if so. Perhaps somebody has logged in and left in the same piece.
    fn report_refusal<S: StartApplication, L: Log>(
        &mut self,
        rt: &L,
        server: &ServerCore<S>,
        c: u16,
    ) {
        if server.player_on(c).is_some() || !self.refusals.try_count() {
            return;
        }
        let end = if server.is_leaving(c) {
            ", and it is leaving"
        } else {
            ""
        };
        info!(rt; target: "moo::serve", "connection {c}: nobody is logged in after a line{end}");
    }

    // Logs how many lines were left out.
    fn report_omitted<L: Log>(&mut self, rt: &L) {
        let logins = self.logins.begin_second();
        if logins != 0 {
            info!(rt; target: "moo::serve", "{logins} more lines on players were left out in one second");
        }
        let refusals = self.refusals.begin_second();
        if refusals != 0 {
            info!(rt; target: "moo::serve", "{refusals} more lines on those who aren't logged in were left out in one second");
        }
    }
}

// Returns whether a piece of what a client sent ends a line.
fn has_line_end(piece: &[u8]) -> bool {
    piece.contains(&b'\n') || piece.contains(&b'\r')
}
