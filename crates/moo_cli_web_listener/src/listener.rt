//! The listener for browsers.
ghost use Rattle.std.specs.Prelude.{◌≡◌, ◌≤◌, ◌+◌, ℕ, map, None, IfOk, IfSome, OnOk};
ghost use Rattle.slab.specs.Slab.{get, slab_len};
ghost use Rattle.moo_cli_web_listener.specs.Callers.{Accepts, AreCallers, IsFirst, IsStepped, IsTimely, MakesRoom, Serves, Takes};
ghost use Rattle.moo_cli_web_listener.specs.Names.{AllowsNamesAt};

use crate::caller::{Caller, Progress, Upgrade};
use crate::names::allowed_names;
use mio::net::{TcpListener, TcpStream};
use mio::{Interest, Registry, Token};
use moo_cli_web_request::Allowed;
use slab::Slab;
use std::alloc::{AllocError, Global};
use std::io;
use std::net::{IpAddr, Net, SocketAddr};
use std::os::fd::AsRawFd;

/// The greatest number of callers. The next takes the place of one whose response is out, or else of the one that came first.
const CALLERS_MOST: usize = 64;

/// The token of the listener.
const LISTENER: Token = Token(usize::MAX - 1);

/// The token of the first caller. The tokens of connections are lower.
const FIRST_CALLER: usize = 1 << 20;

/// Holds the listener for browsers, and the callers: browsers that ask for something, or that have had their response.
#[derive(Drop)]
pub struct WebListener {
    alloc: Global,
    listener: TcpListener,
    /// Whether a browser may wait to be accepted.
    may_accept: bool,
    allowed: Allowed,
    callers: Slab<Caller>,
    /// The number of callers that were accepted.
    arrivals: u64,
}

impl WebListener {
    /// Listens for browsers on a port of an address. Port 0 takes any free one. Pages of the address, of this machine and of these further origins
    /// may open a WebSocket. Fails if the address is not available, or if memory runs out.
    pub fn open<N: Net>(
        rt: &N,
        alloc: Global,
        registry: &Registry,
        host: IpAddr,
        port: u16,
        origins: &[&str],
    ) -> io::Result<WebListener>
        ensures callers { IfOk result (λ web. AreCallers web.allowed web.callers) }
        ensures names { IfOk result (λ web. AllowsNamesAt host (map (λ origin. origin.now) origins.now) web.allowed) }
    {
        let mut listener = TcpListener::bind(rt, SocketAddr::from((host, port)))?;
        registry.register(&mut listener, LISTENER, Interest::READABLE)?;
        let address = SocketAddr::from((host, listener.local_addr()?.port()));
        let allowed = allowed_names(alloc, address, origins)?;
        Ok(WebListener {
            alloc,
            listener,
            may_accept: true,
            allowed,
            callers: Slab::new(alloc),
            arrivals: 0,
        })
    }

    /// Returns the address on which it listens.
    pub fn address(&self) -> io::Result<SocketAddr> {
        self.listener.local_addr()
    }

    /// Records that the system reports this token as ready. That of another does nothing.
    #[tactic(auto, using(crate::proofs::Calling::woken_callers))]
    pub fn wake(&mut self, token: usize)
        ensures callers { AreCallers self.old.allowed self.old.callers → AreCallers self.new.allowed self.new.callers }
        ensures allowed { self.new.allowed ≡ self.old.allowed }
    {
        if token == LISTENER.0 {
            self.may_accept = true;
            return;
        }
        if let Some(key) = token.checked_sub(FIRST_CALLER) {
            if let Some(caller) = self.callers.get_mut(key) {
                caller.wake();
            }
        }
    }

    /// Accepts a browser, if one waits, unless its descriptor would be at this number or a higher one. Then makes a step of each
    /// caller in the second `now`. Returns whether anything was done. Fails only if memory runs out.
    #[tactic(auto, using(crate::proofs::Stepping::stepped_on, crate::proofs::Stepping::stepped_same))]
    pub fn serve(
        &mut self,
        registry: &Registry,
        most_descriptors: u64,
        now: u64,
    ) -> Result<bool, AllocError>
        ensures serves { AreCallers self.old.allowed self.old.callers → Serves now self.old.callers self.new.callers }
        ensures timely { OnOk result ((key : ℕ) → IsTimely now (get self.new.callers key)) }
        ensures callers { AreCallers self.old.allowed self.old.callers → AreCallers self.new.allowed self.new.callers }
        ensures allowed { self.new.allowed ≡ self.old.allowed }
    {
        let mut is_busy = self.accept(registry, most_descriptors)?;
        for key in 0..self.callers.capacity() {
            let progress = self.step(key, now)?;
            is_busy = is_busy || progress != Progress::None;
        }
        Ok(is_busy)
    }

    // Makes a step of a caller, and closes its connection once it is done.
    #[tactic(auto, using(crate::proofs::Stepping::stepped_same, crate::proofs::Stepping::stepped_written, crate::proofs::Stepping::stepped_removed))]
    fn step(&mut self, key: usize, now: u64) -> Result<Progress, AllocError>
        ensures steps { (k : ℕ) → IsStepped now (get self.old.callers k) (get self.new.callers k) }
        ensures timely { OnOk result (IsTimely now (get self.new.callers key)) }
        ensures callers { AreCallers self.old.allowed self.old.callers → AreCallers self.new.allowed self.new.callers }
        ensures allowed { self.new.allowed ≡ self.old.allowed }
    {
        let Some(caller) = self.callers.get_mut(key) else {
            return Ok(Progress::None);
        };
        let progress = caller.step(&self.allowed, now)?;
        if progress == Progress::Done {
            self.callers.try_remove(key);
        }
        Ok(progress)
    }

    // Accepts a browser, if one waits, and returns whether one did.
    fn accept(&mut self, registry: &Registry, most_descriptors: u64) -> Result<bool, AllocError>
        ensures accepts { AreCallers self.old.allowed self.old.callers → Accepts self.old.callers self.new.callers }
        ensures callers { AreCallers self.old.allowed self.old.callers → AreCallers self.new.allowed self.new.callers }
        ensures allowed { self.new.allowed ≡ self.old.allowed }
    {
        if !self.may_accept {
            return Ok(false);
        }
        let Ok((stream, _)) = self.listener.accept() else {
            self.may_accept = false;
            return Ok(false);
        };
        let number = u64::try_from(stream.as_raw_fd());
        if number.is_ok_and(|number| number < most_descriptors) {
            self.keep(registry, stream)?;
        }
        Ok(true)
    }

    // Keeps a new caller. Closes its connection if the system can't watch it.
    #[tactic(auto, using(crate::proofs::Stepping::keeps_none, crate::proofs::Stepping::keeps_one))]
    fn keep(&mut self, registry: &Registry, mut stream: TcpStream) -> Result<(), AllocError>
        ensures accepts { AreCallers self.old.allowed self.old.callers → Accepts self.old.callers self.new.callers }
        ensures callers { AreCallers self.old.allowed self.old.callers → AreCallers self.new.allowed self.new.callers }
        ensures allowed { self.new.allowed ≡ self.old.allowed }
    {
        self.make_room();
        self.callers.reserve(1)?;
        let key = self.callers.vacant_key();
        let Some(token) = key.checked_add(FIRST_CALLER) else {
            return Ok(());
        };
        let both = Interest::READABLE | Interest::WRITABLE;
        if registry.register(&mut stream, Token(token), both).is_err() {
            return Ok(());
        }
        self.arrivals = self.arrivals.wrapping_add(1);
        let caller = Caller::new(self.alloc, stream, self.arrivals);
        self.callers.insert_reserved(caller);
        Ok(())
    }

    // Closes the connection of the caller that makes room first, if there are as many callers as there may be.
    fn make_room(&mut self)
        ensures room { AreCallers self.old.allowed self.old.callers → MakesRoom self.old.callers self.new.callers }
        ensures callers { AreCallers self.old.allowed self.old.callers → AreCallers self.new.allowed self.new.callers }
        ensures allowed { self.new.allowed ≡ self.old.allowed }
    {
        if self.callers.len() < CALLERS_MOST {
            return;
        }
        if let Some((_, key)) = first_caller(&self.callers) {
            self.callers.try_remove(key);
        }
    }

    /// Removes a caller that waits to become a WebSocket, and returns its connection. Fails only if memory runs out.
    pub fn take_upgrade(&mut self) -> Result<Option<Upgrade>, AllocError>
        ensures takes { AreCallers self.old.allowed self.old.callers → IfOk result (λ upgrade. IfSome upgrade (Takes self.old self.new)) }
        ensures callers { AreCallers self.old.allowed self.old.callers → AreCallers self.new.allowed self.new.callers }
        ensures allowed { self.new.allowed ≡ self.old.allowed }
    {
        for key in 0..self.callers.capacity() {
            if self
                .callers
                .get(key)
                .is_some_and(|caller| caller.is_upgrading())
            {
                return match self.callers.try_remove(key) {
                    Some(caller) => caller.upgrade(self.alloc),
                    None => Ok(None),
                };
            }
        }
        Ok(None)
    }
}

// Returns the place and the key of the caller that makes room first, if there are callers.
#[tactic(auto, using(crate::proofs::Calling::no_callers))]
fn first_caller(callers: &Slab<Caller>) -> Option<(u64, usize)>
    ensures first { IsFirst callers.now callers.now.capacity result }
    ensures none { result ≡ None → slab_len callers.now ≡ 0 }
{
    let mut first = None;
    for key in 0..callers.capacity() {
        first = earlier(callers, key, first);
    }
    first
}

// Returns the caller that makes room first: this one, or the one at this key, if there is one.
#[tactic(auto, using(crate::proofs::Calling::first_earlier, crate::proofs::Calling::first_none, crate::proofs::Calling::first_past, crate::proofs::Calling::first_stays))]
fn earlier(callers: &Slab<Caller>, key: usize, first: Option<(u64, usize)>) -> Option<(u64, usize)>
    ensures { IsFirst callers.now key first → IsFirst callers.now (key + 1) result }
{
    let Some(caller) = callers.get(key) else {
        return first;
    };
    let place = caller.place();
    match first {
        None => Some((place, key)),
        Some(first) if first.0 <= place => Some(first),
        Some(_) => Some((place, key)),
    }
}
