//! The reasons why there are no sockets.
use std::alloc::AllocError;
use std::io;
use thiserror::Error;

/// The reason why there are no sockets, or none that can be waited for.
#[derive(Debug, Drop, Error)]
pub enum SocketsFault {
    /// The address is not available, or the system can't report which sockets are ready.
    #[error("refused: Device")]
    Device(io::Error),
    /// The address for browsers is not available.
    #[error("refused: Device")]
    Web(io::Error),
    #[error("refused: Memory")]
    Memory,
}

impl From<io::Error> for SocketsFault {
    fn from(error: io::Error) -> SocketsFault {
        match error.kind() {
            io::ErrorKind::OutOfMemory => SocketsFault::Memory,
            _ => SocketsFault::Device(error),
        }
    }
}

impl SocketsFault {
    /// Returns why there is no listener for browsers.
    pub fn of_web(error: io::Error) -> SocketsFault {
        match error.kind() {
            io::ErrorKind::OutOfMemory => SocketsFault::Memory,
            _ => SocketsFault::Web(error),
        }
    }
}

impl From<AllocError> for SocketsFault {
    fn from(_fault: AllocError) -> SocketsFault {
        SocketsFault::Memory
    }
}
