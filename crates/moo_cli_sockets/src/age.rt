//! The ages of connections.
ghost use Rattle.std.specs.Prelude.{◌≡◌};

use crate::sockets::Sockets;
use std::rt::Clock;

/// When a connection was accepted.
#[derive(Clone, Copy, Debug)]
pub struct Age {
    /// The seconds of a clock that is never set, or 0 if it can't be read.
    pub second: u64,
    /// The number of connections that were accepted before it, and itself. A later one has a higher number.
    pub arrival: u64,
}

impl Age {
    /// Returns the age of a connection that is accepted now.
    pub fn new<C: Clock>(clock: &C, arrival: u64) -> Age {
        Age {
            second: seconds(clock),
            arrival,
        }
    }

    /// Returns the whole seconds since it was accepted.
    pub fn seconds_until(&self, now: u64) -> u64 {
        now.saturating_sub(self.second)
    }
}

/// Returns the seconds of a clock that is never set, or 0 if it can't be read.
pub fn seconds<C: Clock>(clock: &C) -> u64 {
    match clock.monotonic() {
        Ok(since) => since.as_secs(),
        Err(_) => 0,
    }
}

impl Sockets {
    /// Returns when a connection was accepted, if it has a socket.
    pub fn age(&self, c: u16) -> Option<Age> {
        let socket = self.sockets.get(usize::from(c))?;
        Some(socket.age())
    }

    /// Returns the number of connections that were accepted.
    pub fn arrivals(&self) -> u64
        ensures { result ≡ self.now.arrivals }
    {
        self.arrivals
    }
}
