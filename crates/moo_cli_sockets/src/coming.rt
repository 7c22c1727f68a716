//! The input of sockets: new connections, bytes and ends.
ghost use Rattle.std.specs.Prelude.{◌≡◌, ◌≢◌, ◌⊎◌, ◌<◌, ◌≤◌, ℕ, List, ◌++◌, Contains, IfOk, OnOk};
ghost use Rattle.slab.specs.Slab.{get};
ghost use Rattle.moo_server_core.specs.declared.event.Event as given;
ghost use Rattle.moo_cli_sockets.specs.Coming.{Comes, Each, Follow, IsListed, IsOpening, IsRead, held, only};
ghost use Rattle.moo_cli_sockets.specs.Reading.{Arrives, Brings, HasFilter, IsAlike, IsKept, IsLeft, IsLookedAt, IsUpgraded};

use crate::age::{Age, seconds};
use crate::descriptors::is_at;
use crate::numbers::sort_numbers;
use crate::sockets::{CONSOLE, Sockets};
use crate::{Came, Socket};
use log::{Log, warn};
use mio::net::TcpStream;
use mio::{Interest, Token};
use moo_server_core::Event;
use std::alloc::AllocError;
use std::io::ErrorKind;
use std::rt::Clock;
use std::{io, mem};

/// The least number of seconds between two lines of the log which say that no descriptor is left for a connection.
const FULL_TOLD_SECONDS: u64 = 60;

impl Sockets {
    /// Takes the input of one round: at most one new connection, and then one piece of each socket that may have
    /// bytes, by rising number. No other socket costs time. Closes at once a connection for which no number is left,
    /// and any socket that ended or failed. Fails only if memory runs out.
    pub fn take<L: Clock + Log>(&mut self, rt: &L) -> Result<Vec<Event>, AllocError>
        ensures comes { IfOk result (λ events. Comes self.old.sockets self.new.sockets events.items) }
        ensures arrives { IfOk result (λ events. Arrives self.old self.new events.items) }
        ensures filter { self.new.telnet ≡ self.old.telnet }
    {
        let mut events = Vec::new(self.alloc);
        let opened = self.open_one(rt)?;
        put(&mut events, opened)?;
        self.read_all(&mut events)?;
        Ok(events)
    }

    // Opens at most one connection: one that waits at the listener, or a WebSocket of a browser.
    #[tactic(auto, using(crate::proofs::Sent::opens_after, crate::proofs::Keeping::kept_left, crate::proofs::Keeping::looked_left))]
    fn open_one<L: Clock + Log>(&mut self, rt: &L) -> Result<Option<Event>, AllocError>
        ensures opens { IfOk result (λ event. IsOpening self.old.sockets event × Follow (only event) self.old.sockets self.new.sockets) }
        ensures kept { OnOk result ((c : ℕ) → IsKept (get self.old.sockets c) (get self.new.sockets c)) }
        ensures looks { OnOk result ((c : ℕ) → c < 65536 → IsLookedAt self.old.tended self.new.tended (get self.old.sockets c) (get self.new.sockets c)) }
        ensures fresh { IfOk result (λ event. HasFilter self.old.telnet self.new.sockets event ⊎ IsUpgraded self.new.sockets event) }
        ensures filter { self.new.telnet ≡ self.old.telnet }
    {
        self.serve_web(rt)?;
        match self.accept(rt)? {
            Some(event) => Ok(Some(event)),
            None => self.upgrade(rt),
        }
    }

    // Accepts one new connection, if one waits. After a fault it is tried again later, and the other connections go
    // on.
    #[tactic(auto, using(crate::proofs::Keeping::left_same))]
    fn accept<L: Clock + Log>(&mut self, rt: &L) -> Result<Option<Event>, AllocError>
        ensures opens { IfOk result (λ event. IsOpening self.old.sockets event × Follow (only event) self.old.sockets self.new.sockets) }
        ensures left { OnOk result ((c : ℕ) → IsLeft (get self.old.sockets c) (get self.new.sockets c)) }
        ensures filter { IfOk result (λ event. HasFilter self.old.telnet self.new.sockets event) }
        ensures alike { IsAlike self.old self.new }
    {
        if !self.may_accept {
            return Ok(None);
        }
        if self.is_full {
            self.report_full(rt);
            return Ok(None);
        }
        let stream = match self.listener.accept() {
            Ok((stream, _)) => stream,
            Err(error) => {
                self.may_accept = error.kind() != ErrorKind::WouldBlock;
                self.report_refused(rt, &error);
                return Ok(None);
            }
        };
        self.is_busy = true;
        self.is_told = false;
        match u16::try_from(self.sockets.vacant_key()) {
            Ok(c) if c != CONSOLE => self.keep(rt, c, stream),
            _ => {
                warn!(rt; target: "moo::serve", "a connection is refused: all numbers are taken");
                Ok(None)
            }
        }
    }

    // Logs that no connection can be accepted, once until one is.
    fn report_refused<L: Log>(&mut self, rt: &L, error: &io::Error)
        ensures { (self.new.sockets ≡ self.old.sockets) × IsAlike self.old self.new }
    {
        if self.may_accept && !self.is_told {
            self.is_told = true;
            warn!(rt; target: "moo::serve", "no connection can be accepted: {error}");
        }
    }

    // Logs that connections have taken all descriptors that are theirs, and that others may wait. Says it again after a
    // minute.
    fn report_full<L: Clock + Log>(&mut self, rt: &L)
        ensures { (self.new.sockets ≡ self.old.sockets) × IsAlike self.old self.new }
    {
        let now = seconds(rt);
        if now >= self.full_told {
            self.full_told = now.saturating_add(FULL_TOLD_SECONDS);
            let count = self.sockets.len();
            warn!(rt; target: "moo::serve", "no further connection is accepted until one of {count} ends: no descriptor is left for it");
        }
    }

    // Keeps a new connection's socket under its number. Closes it if the system can't watch it.
    #[tactic(auto, using(crate::proofs::Keeping::left_inserted, crate::proofs::Keeping::left_same, crate::proofs::Keeping::has_filter))]
    fn keep<L: Clock + Log>(
        &mut self,
        rt: &L,
        c: u16,
        mut stream: TcpStream,
    ) -> Result<Option<Event>, AllocError>
        requires vacant { c ≡ self.old.sockets.vacant_key }
        requires given { c ≢ CONSOLE }
        ensures opens { IfOk result (λ event. IsOpening self.old.sockets event × Follow (only event) self.old.sockets self.new.sockets) }
        ensures left { OnOk result ((c : ℕ) → IsLeft (get self.old.sockets c) (get self.new.sockets c)) }
        ensures filter { IfOk result (λ event. HasFilter self.old.telnet self.new.sockets event) }
        ensures alike { IsAlike self.old self.new }
    {
        let both = Interest::READABLE | Interest::WRITABLE;
        let token = Token(usize::from(c));
        let registered = self.poll.registry().register(&mut stream, token, both);
        if registered.is_err() || stream.set_nodelay(true).is_err() {
            return Ok(None);
        }
        self.sockets.reserve(1)?;
        self.is_full = is_at(&stream, self.most_descriptors);
        self.arrivals = self.arrivals.wrapping_add(1);
        let age = Age::new(rt, self.arrivals);
        self.sockets
            .insert_reserved(Socket::new(self.alloc, stream, age, self.telnet, None));
        Ok(Some(Event::Open(c)))
    }

    // Reads once from each socket that may have bytes. Those that may have more are read from in the next round.
    fn read_all(&mut self, events: &mut Vec<Event>) -> Result<(), AllocError>
        ensures read { OnOk result ((n : ℕ) × (reads : List given.Event) × Each (λ c event. IsRead (held self.old.sockets c) c event) n reads × Follow reads self.old.sockets self.new.sockets
            × (events.new.items ≡ events.old.items ++ reads) × Each (λ c event. Brings (get self.old.sockets c) event (get self.new.sockets c)) n reads
            × ((c : ℕ) → n ≤ c → get self.new.sockets c ≡ get self.old.sockets c)) }
        ensures alike { IsAlike self.old self.new }
        ensures listed { OnOk result ((c : ℕ) → Contains self.old.readable.items c → IsListed self.new.readable.items self.new.sockets c) }
    {
        let mut numbers = mem::replace(&mut self.readable, Vec::new(self.alloc));
        sort_numbers(&mut numbers);
        for c in &numbers {
            let event = self.read(*c)?;
            put(events, event)?;
            self.keep_readable(*c)?;
        }
        Ok(())
    }

    // Reads once from a socket. Its end or a fault is a hang-up. Lists it as one to which more may be written, if frames
    // answer what came.
    #[tactic(auto, using(crate::proofs::Keeping::brings_piece, crate::proofs::Keeping::brings_nothing, crate::proofs::Keeping::brings_same))]
    fn read(&mut self, c: u16) -> Result<Option<Event>, AllocError>
        ensures read { IfOk result (λ event. IsRead (held self.old.sockets c) c event × Follow (only event) self.old.sockets self.new.sockets) }
        ensures others { (k : ℕ) → k ≢ c → get self.new.sockets k ≡ get self.old.sockets k }
        ensures listed { self.new.readable ≡ self.old.readable }
        ensures brings { IfOk result (λ event. Brings (get self.old.sockets c) event (get self.new.sockets c)) }
        ensures alike { IsAlike self.old self.new }
    {
        let Some(socket) = self.sockets.get_mut(usize::from(c)) else {
            return Ok(None);
        };
        if !socket.is_readable() {
            return Ok(None);
        }
        let came = socket.read(self.alloc)?;
        if socket.is_writable() {
            self.writable.push(c)?;
        }
        match came {
            Came::Bytes(piece) => Ok(Some(Event::Bytes(c, piece))),
            Came::NothingYet => Ok(None),
            Came::End => {
                self.close(c);
                Ok(Some(Event::Hangup(c)))
            }
        }
    }

    // Lists a socket again if a read of it may return something.
    pub(crate) fn keep_readable(&mut self, c: u16) -> Result<(), AllocError>
        ensures listed { OnOk result (IsListed self.new.readable.items self.new.sockets c) }
        ensures others { OnOk result ((k : ℕ) → Contains self.old.readable.items k → Contains self.new.readable.items k) }
        ensures same { self.new.sockets ≡ self.old.sockets }
        ensures alike { IsAlike self.old self.new }
    {
        if let Some(socket) = self.sockets.get(usize::from(c)) {
            if socket.is_readable() {
                self.readable.push(c)?;
            }
        }
        Ok(())
    }
}

/// Appends an event, if there is one.
pub fn put(events: &mut Vec<Event>, event: Option<Event>) -> Result<(), AllocError>
    ensures { OnOk result (events.new.items ≡ events.old.items ++ only event) }
{
    if let Some(event) = event {
        events.push(event)?;
    }
    Ok(())
}
