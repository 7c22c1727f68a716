//! The reasons why a server ends before it is closed.
ghost use Rattle.std.specs.Prelude.{◌≡◌};
ghost use Rattle.moo_cli_serve.specs.Status.{fault_status};
ghost use Rattle.moo_cli_serve.specs.declared.fault.ServeFault.TheVariants.{Memory, Open, Refused, Sockets};

use moo_checkpoint::OpenFault;
use moo_cli_sockets::SocketsFault;
use moo_server_core::Cause;
use std::alloc::AllocError;
use std::io;
use thiserror::Error;

/// The reason why a server ends before it is closed. The program prints it as a line, and exits with the status `status`.
#[derive(Debug, Drop, Error)]
pub enum ServeFault {
    /// The database is refused, or can't be read.
    #[error("{0}")]
    Open(OpenFault),
    /// The address is not available, or the system can't report which sockets are ready.
    #[error("{0}")]
    Sockets(SocketsFault),
    /// The line with the server's address can't be written.
    #[error("refused: Device")]
    Output(io::Error),
    /// The server refused an event.
    #[error("refused: {0:?}")]
    Refused(Cause),
    /// Memory ran out for what came.
    #[error("refused: Memory")]
    Memory,
}

impl ServeFault {
    /// Returns the program's exit status: 1 for a refused database, 3 for a device, 4 for memory, 5 for an event.
    pub fn status(&self) -> u8
        ensures { result ≡ fault_status self.now }
    {
        match self {
            ServeFault::Open(OpenFault::Db(_)) => 1,
            ServeFault::Open(OpenFault::Device)
            | ServeFault::Sockets(SocketsFault::Device(_) | SocketsFault::Web(_))
            | ServeFault::Output(_) => 3,
            ServeFault::Open(OpenFault::Memory)
            | ServeFault::Sockets(SocketsFault::Memory)
            | ServeFault::Refused(Cause::Memory)
            | ServeFault::Memory => 4,
            ServeFault::Refused(_) => 5,
        }
    }
}

impl From<Cause> for ServeFault {
    ghost from_gives = { λ cause fault. fault ≡ Refused cause };

    fn from(cause: Cause) -> ServeFault {
        ServeFault::Refused(cause)
    }
}

impl From<OpenFault> for ServeFault {
    ghost from_gives = { λ cause fault. fault ≡ Open cause };

    fn from(fault: OpenFault) -> ServeFault {
        ServeFault::Open(fault)
    }
}

impl From<SocketsFault> for ServeFault {
    ghost from_gives = { λ cause fault. fault ≡ Sockets cause };

    fn from(fault: SocketsFault) -> ServeFault {
        ServeFault::Sockets(fault)
    }
}

impl From<AllocError> for ServeFault {
    ghost from_gives = { λ _ fault. fault ≡ Memory };

    fn from(_fault: AllocError) -> ServeFault {
        ServeFault::Memory
    }
}
