//! The descriptors of the process, and how many of them connections may take.
use libc::types::rlimit;
use mio::net::TcpStream;
use std::os::fd::AsRawFd;

/// The number of descriptors that connections leave to the rest of the program. A checkpoint needs one, and keeps it
/// itself. The others are for what the program opens later.
const RESERVED: u64 = 8;

/// Returns the number of a descriptor from which on no connection is accepted: the limit of the process, less a
/// reserve. The system gives out the lowest free number, so all lower ones are in use then. If the limit is low, half
/// of it is for connections.
pub fn most_descriptors() -> u64 {
    let mut limit = rlimit {
        rlim_cur: 0,
        rlim_max: 0,
    };
    if libc::getrlimit(libc::RLIMIT_NOFILE, &mut limit) < 0 {
        return u64::MAX;
    }
    let most = limit.rlim_cur;
    most.saturating_sub(RESERVED).max(most / 2)
}

/// Returns whether a socket has this descriptor or a higher one.
pub fn is_at(stream: &TcpStream, most: u64) -> bool {
    u64::try_from(stream.as_raw_fd()).is_ok_and(|number| number >= most)
}
