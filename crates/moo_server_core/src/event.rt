//! The events of a server, why it refuses one, and its phases.
ghost use Rattle.std.specs.Prelude.{◌≡◌};
ghost use Rattle.moo_server_core.specs.Courses.{is_closed, is_closing};
ghost use Rattle.moo_server_core.specs.Seen.{is_flush, seen};

/// Is an event that a server is given.
#[derive(Drop)]
pub enum Event {
    /// A connection opens under this number.
    Open(u16),
    /// Bytes arrive on a connection.
    Bytes(u16, Vec<u8>),
    /// A connection hangs up.
    Hangup(u16),
    /// The clock shows this moment, in seconds.
    Moment(u32),
    /// The open checkpoint, if there is one, takes a turn.
    Flush,
}

impl Event {
    pub(crate) fn is_flush(&self) -> bool
        ensures { result ≡ is_flush (seen self.now) }
    {
        matches!(self, Event::Flush)
    }
}

/// Is the phase of a server.
#[derive(Clone, Copy, Debug, PartialEq, Eq)]
pub enum Phase {
    Running,
    /// A task asked for a shutdown, and the last checkpoint isn't reported yet.
    Closing,
    /// The last checkpoint is reported.
    Closed,
    /// Memory ran out. The server takes no event any more.
    Halted,
}

/// Is the phase of a server, apart from whether it is halted.
#[derive(Clone, Copy, Debug, PartialEq, Eq)]
pub(crate) enum Course {
    Running,
    Closing,
    Closed,
}

/// Is the reason why a run ends before the end of its events.
#[derive(Clone, Copy, Debug, PartialEq, Eq)]
pub enum Cause {
    /// The connection that the event names isn't open.
    NoSuchConnection,
    /// A connection of this number is already open.
    ConnectionInUse,
    /// The moment is before the last one.
    ClockBack,
    /// Memory ran out, and the server is halted.
    Memory,
    /// The server was halted before the run.
    Halted,
    /// The server is closed.
    Closed,
}

/// Is the fault of a run that took `done` events, and not the event after them.
#[derive(Clone, Copy, Debug, PartialEq, Eq)]
pub struct RunFault {
    pub done: usize,
    pub cause: Cause,
}

impl Course {
    pub(crate) fn is_closing(self) -> bool
        ensures { result ≡ is_closing self }
    {
        matches!(self, Course::Closing)
    }

    pub(crate) fn is_closed(self) -> bool
        ensures { result ≡ is_closed self }
    {
        matches!(self, Course::Closed)
    }
}
