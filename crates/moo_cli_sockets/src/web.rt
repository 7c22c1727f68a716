//! Browsers: the page that they get, and their WebSockets, which are connections.
ghost use Rattle.std.specs.Prelude.{◌≡◌, ◌≢◌, ◌<◌, ℕ, List, map, IfOk, OnOk};
ghost use Rattle.moo_cli_web_frames.specs.Channels.{IsNew};
ghost use Rattle.moo_cli_sockets.specs.Browsers.{ServesWeb};
ghost use Rattle.slab.specs.Slab.{get};
ghost use Rattle.moo_cli_sockets.specs.Coming.{Follow, IsOpening, held, only};
ghost use Rattle.moo_cli_sockets.specs.Reading.{IsAlike, IsKept, IsLeft, IsLookedAt, IsTended, IsUpgraded};

use crate::Socket;
use crate::age::{Age, seconds};
use crate::descriptors::is_at;
use crate::fault::SocketsFault;
use crate::sockets::{CONSOLE, Sockets};
use log::{Log, warn};
use mio::{Interest, Token};
use moo_cli_web_frames::Channel;
use moo_cli_web_listener::{Upgrade, WebListener};
use moo_server_core::Event;
use std::alloc::{AllocError, Global};
use std::net::{IpAddr, Net, SocketAddr};
use std::rt::Clock;
use websocket::handshake::server::write_response;

impl Sockets {
    /// Listens for browsers on a port of an address, and returns the address. Port 0 takes any free one. Pages of this
    /// machine and of these further origins may connect. Fails if the address is not available, or if memory runs out.
    pub fn open_web<N: Net>(
        &mut self,
        rt: &N,
        host: IpAddr,
        port: u16,
        origins: &[&str],
    ) -> Result<SocketAddr, SocketsFault>
        ensures held { (c : ℕ) → held self.new.sockets c ≡ held self.old.sockets c }
        ensures web { OnOk result (ServesWeb host (map (λ origin. origin.now) origins.now) self.new) }
        ensures filter { self.new.telnet ≡ self.old.telnet }
    {
        let registry = self.poll.registry();
        let web = WebListener::open(rt, self.alloc, registry, host, port, origins).map_err(
            SocketsFault::of_web,
        )?;
        let address = web.address().map_err(SocketsFault::of_web)?;
        self.web = Some(web);
        Ok(address)
    }

    // Reads requests of browsers and writes responses, once for each. Once in a second, looks which WebSockets are
    // silent. Fails only if memory runs out.
    #[tactic(auto, using(crate::proofs::Keeping::kept_same, crate::proofs::Keeping::same_channel))]
    pub(crate) fn serve_web<C: Clock>(&mut self, clock: &C) -> Result<(), AllocError>
        ensures held { (c : ℕ) → held self.new.sockets c ≡ held self.old.sockets c }
        ensures kept { (c : ℕ) → IsKept (get self.old.sockets c) (get self.new.sockets c) }
        ensures looks { OnOk result ((c : ℕ) → c < 65536 → IsLookedAt self.old.tended self.new.tended (get self.old.sockets c) (get self.new.sockets c)) }
        ensures filter { self.new.telnet ≡ self.old.telnet }
    {
        let Some(web) = &mut self.web else {
            return Ok(());
        };
        let now = seconds(clock);
        let is_busy = web.serve(self.poll.registry(), self.most_descriptors, now)?;
        self.is_busy = self.is_busy || is_busy;
        if now != self.tended {
            self.tended = now;
            self.tend_all(now)?;
        }
        Ok(())
    }

    // Looks at each WebSocket whether it is silent.
    #[tactic(auto, using(crate::proofs::Keeping::kept_on, crate::proofs::Keeping::kept_same))]
    fn tend_all(&mut self, now: u64) -> Result<(), AllocError>
        ensures tended { OnOk result ((c : ℕ) → c < 65536 → IsTended now (get self.old.sockets c) (get self.new.sockets c)) }
        ensures held { (c : ℕ) → held self.new.sockets c ≡ held self.old.sockets c }
        ensures kept { (c : ℕ) → IsKept (get self.old.sockets c) (get self.new.sockets c) }
        ensures alike { IsAlike self.old self.new }
    {
        for key in 0..self.sockets.capacity() {
            let Ok(c) = u16::try_from(key) else { break };
            self.tend(c, now)?;
        }
        Ok(())
    }

    // Looks whether a socket is a WebSocket that is silent. Lists it as one to which more may be written if a ping is to
    // be sent, and as one that is read from if it is over.
    fn tend(&mut self, c: u16, now: u64) -> Result<(), AllocError>
        ensures held { (k : ℕ) → held self.new.sockets k ≡ held self.old.sockets k }
        ensures kept { (k : ℕ) → IsKept (get self.old.sockets k) (get self.new.sockets k) }
        ensures others { (k : ℕ) → k ≢ c → get self.new.sockets k ≡ get self.old.sockets k }
        ensures tended { OnOk result (IsTended now (get self.old.sockets c) (get self.new.sockets c)) }
        ensures alike { IsAlike self.old self.new }
    {
        self.tend_socket(c, now)?;
        self.list_writable(c)?;
        self.keep_readable(c)
    }

    // Looks whether a socket is a WebSocket that is silent.
    #[tactic(auto, using(crate::proofs::Keeping::kept_written, crate::proofs::Keeping::kept_same, crate::proofs::Keeping::tended_if, crate::proofs::Keeping::tended_none))]
    fn tend_socket(&mut self, c: u16, now: u64) -> Result<(), AllocError>
        ensures held { (k : ℕ) → held self.new.sockets k ≡ held self.old.sockets k }
        ensures kept { (k : ℕ) → IsKept (get self.old.sockets k) (get self.new.sockets k) }
        ensures others { (k : ℕ) → k ≢ c → get self.new.sockets k ≡ get self.old.sockets k }
        ensures tended { OnOk result (IsTended now (get self.old.sockets c) (get self.new.sockets c)) }
        ensures alike { IsAlike self.old self.new }
    {
        match self.sockets.get_mut(usize::from(c)) {
            Some(socket) => socket.tend(now),
            None => Ok(()),
        }
    }

    // Opens a connection for a browser that asked for a WebSocket, if one did. Closes the WebSocket if no number is left
    // for it, or if the system can't watch it.
    #[tactic(auto, using(crate::proofs::Keeping::left_same))]
    pub(crate) fn upgrade<L: Clock + Log>(&mut self, rt: &L) -> Result<Option<Event>, AllocError>
        ensures opens { IfOk result (λ event. IsOpening self.old.sockets event × Follow (only event) self.old.sockets self.new.sockets) }
        ensures left { OnOk result ((c : ℕ) → IsLeft (get self.old.sockets c) (get self.new.sockets c)) }
        ensures fresh { IfOk result (λ event. IsUpgraded self.new.sockets event) }
        ensures alike { IsAlike self.old self.new }
    {
        if self.is_full {
            return Ok(None);
        }
        let Some(web) = &mut self.web else {
            return Ok(None);
        };
        let Some(upgrade) = web.take_upgrade()? else {
            return Ok(None);
        };
        self.is_busy = true;
        match u16::try_from(self.sockets.vacant_key()) {
            Ok(c) if c != CONSOLE => self.keep_upgrade(rt, c, upgrade),
            _ => {
                warn!(rt; target: "moo::serve", "a connection is refused: all numbers are taken");
                Ok(None)
            }
        }
    }

    // Keeps the socket of a WebSocket under its number. Its handshake is to be written, and frames may have come with the
    // request.
    #[tactic(auto, using(crate::proofs::Keeping::left_inserted, crate::proofs::Keeping::left_same))]
    fn keep_upgrade<C: Clock>(
        &mut self,
        clock: &C,
        c: u16,
        upgrade: Upgrade,
    ) -> Result<Option<Event>, AllocError>
        requires vacant { c ≡ self.old.sockets.vacant_key }
        requires given { c ≢ CONSOLE }
        ensures opens { IfOk result (λ event. IsOpening self.old.sockets event × Follow (only event) self.old.sockets self.new.sockets) }
        ensures left { OnOk result ((c : ℕ) → IsLeft (get self.old.sockets c) (get self.new.sockets c)) }
        ensures fresh { IfOk result (λ event. IsUpgraded self.new.sockets event) }
        ensures alike { IsAlike self.old self.new }
    {
        let Upgrade {
            mut stream,
            accept,
            frames,
        } = upgrade;
        let both = Interest::READABLE | Interest::WRITABLE;
        let token = Token(usize::from(c));
        let registered = self.poll.registry().reregister(&mut stream, token, both);
        if registered.is_err() || stream.set_nodelay(true).is_err() {
            return Ok(None);
        }
        self.is_full = is_at(&stream, self.most_descriptors);
        self.arrivals = self.arrivals.wrapping_add(1);
        let age = Age::new(clock, self.arrivals);
        let channel = open_channel(self.alloc, &accept, age.second)?;
        let mut socket = Socket::new(self.alloc, stream, age, None, Some(channel));
        socket.keep_payload(self.alloc, &frames)?;
        self.sockets.reserve(1)?;
        self.readable.push(c)?;
        self.writable.push(c)?;
        self.sockets.insert_reserved(socket);
        Ok(Some(Event::Open(c)))
    }
}

// Returns the channel of a WebSocket whose key is accepted by this value. Fails only if memory runs out.
fn open_channel(alloc: Global, accept: &[u8; 28], second: u64) -> Result<Channel, AllocError>
    ensures { IfOk result (λ channel. (response : List ℕ) × IsNew response channel) }
{
    let mut response = Vec::new(alloc);
    if write_response(accept, &[], &mut response).is_err() {
        return Err(AllocError);
    }
    Ok(Channel::new(alloc, response, second))
}
