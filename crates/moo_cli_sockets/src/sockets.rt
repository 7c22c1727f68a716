//! The listener, and the sockets of connections.
ghost use Rattle.std.specs.Prelude.{◌≡◌, ◌≢◌, ◌≤◌, ◌↔◌, ℕ, All, IfOk, OnOk, IsSome, IsTrue, None};
ghost use Rattle.mio.specs.Event.{event_token};
ghost use Rattle.slab.specs.Slab.{get};
ghost use Rattle.moo_cli_sockets.specs.Coming.{Closes, IsNamed, held};
ghost use Rattle.moo_cli_sockets.specs.Reading.{IsAlike, IsStill};

use crate::Socket;
use crate::descriptors::most_descriptors;
use crate::fault::SocketsFault;
use mio::event::Event;
use mio::net::TcpListener;
use mio::{Events, Interest, Poll, Token};
use moo_cli_telnet::Telnet;
use moo_cli_web_listener::WebListener;
use slab::Slab;
use std::alloc::{AllocError, Global};
use std::io::ErrorKind;
use std::mem;
use std::net::{IpAddr, Net, SocketAddr};
use std::time::Duration;

/// The number of ready sockets that one call of the system reports. The next call reports more.
const REPORTED: usize = 256;

/// The number of the operator's own connection. No socket gets it.
pub const CONSOLE: u16 = u16::MAX;

const LISTENER: Token = Token(usize::MAX);

/// Holds the sockets of connections, and the listener. The key of a socket is the number of its connection.
#[derive(Drop)]
pub struct Sockets {
    pub(crate) alloc: Global,
    pub(crate) poll: Poll,
    ready: Events,
    pub(crate) listener: TcpListener,
    /// Whether a connection may wait to be accepted.
    pub(crate) may_accept: bool,
    /// Whether the log already says that no connection can be accepted.
    pub(crate) is_told: bool,
    /// The descriptors of the process from which on no connection is accepted.
    pub(crate) most_descriptors: u64,
    /// Whether the last connection that was accepted took one of the last descriptors, and none was closed since.
    pub(crate) is_full: bool,
    /// The second from which on the log may say so again.
    pub(crate) full_told: u64,
    /// The number of connections that were accepted.
    pub(crate) arrivals: u64,
    /// The filter of each new connection that drops the commands of telnet, if they are to be dropped.
    pub(crate) telnet: Option<Telnet>,
    pub(crate) sockets: Slab<Socket>,
    /// The numbers of the sockets of which a read may return something. Some may be there twice.
    pub(crate) readable: Vec<u16>,
    /// The numbers of the sockets to which more may be written since the last `take_writable`. Some may be there twice.
    pub(crate) writable: Vec<u16>,
    /// Whether `wait` has marked the ready sockets since the last `look`.
    has_waited: bool,
    /// Whether a connection was accepted or closed since `rest`.
    pub(crate) is_busy: bool,
    /// The listener for browsers, if there is one.
    pub(crate) web: Option<WebListener>,
    /// The second in which the silence of WebSockets was last looked at.
    pub(crate) tended: u64,
}

impl Sockets {
    /// Listens on a port of an address. Port 0 takes any free one. Fails if the address is not available, or if
    /// memory runs out.
    #[tactic(auto, using(crate::proofs::Sent::held_none))]
    pub fn open<N: Net>(
        rt: &N,
        alloc: Global,
        host: IpAddr,
        port: u16,
        telnet: Option<Telnet>,
    ) -> Result<Sockets, SocketsFault>
        ensures none { IfOk result (λ sockets. (c : ℕ) → held sockets.sockets c ≡ None) }
        ensures filter { IfOk result (λ sockets. (sockets.telnet ≡ telnet) × (sockets.web ≡ None)) }
    {
        let mut listener = TcpListener::bind(rt, SocketAddr::from((host, port)))?;
        let poll = Poll::new(rt)?;
        poll.registry()
            .register(&mut listener, LISTENER, Interest::READABLE)?;
        Ok(Sockets {
            alloc,
            poll,
            ready: Events::with_capacity(alloc, REPORTED)?,
            listener,
            may_accept: true,
            is_told: false,
            most_descriptors: most_descriptors(),
            is_full: false,
            full_told: 0,
            arrivals: 0,
            telnet,
            sockets: Slab::new(alloc),
            readable: Vec::new(alloc),
            writable: Vec::new(alloc),
            has_waited: false,
            is_busy: false,
            web: None,
            tended: 0,
        })
    }

    /// Returns the address on which it listens.
    pub fn address(&self) -> Result<SocketAddr, SocketsFault> {
        let address = self.listener.local_addr()?;
        Ok(address)
    }

    /// Begins a round, of which `is_busy` reports.
    pub fn rest(&mut self)
        ensures same { self.new.sockets ≡ self.old.sockets }
        ensures alike { IsAlike self.old self.new }
    {
        self.is_busy = false;
    }

    /// Returns whether more can be done at once: a connection was accepted or closed since `rest`, or a socket may be
    /// read from or written to.
    pub fn is_busy(&self) -> bool {
        self.is_busy || !self.readable.is_empty() || !self.writable.is_empty()
    }

    /// Returns whether a connection has a socket.
    pub fn contains(&self, c: u16) -> bool
        ensures { IsTrue result ↔ IsSome (held self.now.sockets c) }
    {
        self.sockets.contains(usize::from(c))
    }

    /// Returns a bound on the numbers of sockets, all of which are below it.
    #[tactic(auto, using(crate::proofs::Sent::held_past))]
    pub fn capacity(&self) -> usize
        ensures { (c : ℕ) → result ≤ c → held self.now.sockets c ≡ None }
    {
        self.sockets.capacity()
    }

    /// Closes a connection's socket, and drops the output that waits for it. A WebSocket gets a close before.
    #[tactic(auto, using(crate::proofs::Sent::closes_after))]
    pub fn close(&mut self, c: u16)
        ensures closes { Closes c self.old.sockets self.new.sockets }
        ensures gone { get self.new.sockets c ≡ None }
        ensures others { (k : ℕ) → k ≢ c → get self.new.sockets k ≡ get self.old.sockets k }
        ensures readable { self.new.readable ≡ self.old.readable }
        ensures alike { IsAlike self.old self.new }
    {
        self.send_close(c);
        self.sockets.try_remove(usize::from(c));
        self.is_busy = true;
        self.is_full = false;
        self.shrink();
    }

    // Sends the close of a WebSocket.
    fn send_close(&mut self, c: u16)
        ensures held { (k : ℕ) → held self.new.sockets k ≡ held self.old.sockets k }
        ensures others { (k : ℕ) → k ≢ c → get self.new.sockets k ≡ get self.old.sockets k }
        ensures readable { self.new.readable ≡ self.old.readable }
        ensures alike { IsAlike self.old self.new }
    {
        if let Some(socket) = self.sockets.get_mut(usize::from(c)) {
            socket.send_close();
        }
    }

    // The search for strangers visits all numbers below the capacity. If most are free, this frees those above the
    // highest in use, so that past connections cost no time.
    fn shrink(&mut self)
        ensures held { (c : ℕ) → held self.new.sockets c ≡ held self.old.sockets c }
        ensures same { (c : ℕ) → get self.new.sockets c ≡ get self.old.sockets c }
        ensures readable { self.new.readable ≡ self.old.readable }
        ensures alike { IsAlike self.old self.new }
    {
        if self.sockets.len() < self.sockets.capacity() / 4 {
            self.sockets.shrink_to_fit();
        }
    }

    /// Marks the sockets that are ready now, unless `wait` has done so since the last call. Fails if the system can't
    /// report them, or if memory runs out.
    #[tactic(auto, using(crate::proofs::Keeping::still_same))]
    pub fn look(&mut self) -> Result<(), SocketsFault>
        ensures held { (c : ℕ) → held self.new.sockets c ≡ held self.old.sockets c }
        ensures still { (c : ℕ) → IsStill (get self.old.sockets c) (get self.new.sockets c) }
        ensures alike { IsAlike self.old self.new }
    {
        if mem::replace(&mut self.has_waited, false) {
            return Ok(());
        }
        self.poll(0)
    }

    /// Waits for ready sockets, at most for so many seconds, and marks them. Fails if the system can't report them,
    /// or if memory runs out.
    pub fn wait(&mut self, seconds: u64) -> Result<(), SocketsFault>
        ensures held { (c : ℕ) → held self.new.sockets c ≡ held self.old.sockets c }
        ensures still { (c : ℕ) → IsStill (get self.old.sockets c) (get self.new.sockets c) }
        ensures alike { IsAlike self.old self.new }
    {
        self.has_waited = true;
        self.poll(seconds)
    }

    // Marks the sockets that are ready within so many seconds.
    #[tactic(auto, using(crate::proofs::Keeping::still_same))]
    fn poll(&mut self, seconds: u64) -> Result<(), SocketsFault>
        ensures held { (c : ℕ) → held self.new.sockets c ≡ held self.old.sockets c }
        ensures still { (c : ℕ) → IsStill (get self.old.sockets c) (get self.new.sockets c) }
        ensures alike { IsAlike self.old self.new }
    {
        match self
            .poll
            .poll(&mut self.ready, Some(Duration::from_secs(seconds)))
        {
            Ok(()) => {}
            Err(error) if error.kind() == ErrorKind::Interrupted => return Ok(()),
            Err(error) => return Err(SocketsFault::from(error)),
        }
        let events = self.ready_events()?;
        self.wake_all(&events)?;
        Ok(())
    }

    fn ready_events(&self) -> Result<Vec<Event>, AllocError> {
        let mut events = Vec::new(self.alloc);
        for event in self.ready.iter() {
            events.push(*event)?;
        }
        Ok(events)
    }

    // Marks the sockets that these events name.
    fn wake_all(&mut self, events: &[Event]) -> Result<(), AllocError>
        ensures held { (c : ℕ) → held self.new.sockets c ≡ held self.old.sockets c }
        ensures still { (c : ℕ) → IsStill (get self.old.sockets c) (get self.new.sockets c) }
        ensures alike { IsAlike self.old self.new }
        ensures named { OnOk result (All (λ event. IsNamed (event_token event).0 self.new.sockets self.new.readable.items self.new.writable.items) events.now) }
    {
        for event in events {
            self.wake(event)?;
        }
        Ok(())
    }

    // Marks the socket, the listener or the browser that an event names.
    #[tactic(auto, using(crate::proofs::Keeping::still_same, crate::proofs::Keeping::still_written))]
    fn wake(&mut self, event: &Event) -> Result<(), AllocError>
        ensures held { (c : ℕ) → held self.new.sockets c ≡ held self.old.sockets c }
        ensures still { (c : ℕ) → IsStill (get self.old.sockets c) (get self.new.sockets c) }
        ensures alike { IsAlike self.old self.new }
        ensures named { OnOk result (IsNamed (event_token event.now).0 self.new.sockets self.new.readable.items self.new.writable.items) }
        ensures others { OnOk result ((c : ℕ) → IsNamed c self.old.sockets self.old.readable.items self.old.writable.items → IsNamed c self.new.sockets self.new.readable.items self.new.writable.items) }
    {
        let Token(key) = event.token();
        if key == LISTENER.0 {
            self.may_accept = true;
        }
        if let Some(web) = &mut self.web {
            web.wake(key);
        }
        let Some(socket) = self.sockets.get_mut(key) else {
            return Ok(());
        };
        socket.wake(event);
        if let Ok(c) = u16::try_from(key) {
            self.readable.push(c)?;
            self.writable.push(c)?;
        }
        Ok(())
    }
}
