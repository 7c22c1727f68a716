//! The lives of a server: what each is given, and what is returned of it.
ghost use Rattle.std.specs.Prelude.{◌≡◌};
ghost use Rattle.moo_server_core.specs.Server.{done_of};

use crate::{Event, RunFault};
use moo_checkpoint::OpenFault;

/// Is the way in which a life ends.
#[derive(Clone, Copy, Debug, PartialEq, Eq)]
pub enum LifeStop {
    /// A crash, which leaves the text of this number, from 0.
    Crash(usize),
    /// The server ends, and the disk stays as it is.
    ServerOnly,
}

/// Is the life of a server. It starts at a moment, in seconds, and is given these events.
#[derive(Drop)]
pub struct Life {
    pub moment: u32,
    pub events: Vec<Event>,
    pub stop: LifeStop,
}

/// Is what is returned of a life.
#[derive(Drop)]
pub struct LifeBegin {
    /// The canonical text of the world that it began from.
    pub text: Vec<u8>,
    /// The number of its events that the server took.
    pub done: usize,
}

/// Is the reason why a life can't begin or end.
#[derive(Clone, Copy, Debug, PartialEq, Eq)]
pub enum LivesCause {
    /// The server found no world to start from.
    Open(OpenFault),
    /// The crash leaves no text of that number.
    NoSuchImage,
    /// Memory ran out.
    Memory,
}

/// Names the life at which the lives ended, from 0, and the reason.
#[derive(Clone, Copy, Debug, PartialEq, Eq)]
pub struct LivesFault {
    pub life: usize,
    pub cause: LivesCause,
}

/// Returns the number of events that a run took.
pub(crate) fn done_in(answer: Result<usize, RunFault>) -> usize
    ensures { result ≡ done_of answer }
{
    match answer {
        Ok(done) => done,
        Err(fault) => fault.done,
    }
}
