//! A connection's socket.
ghost use Rattle.std.specs.Prelude.{◌+◌, ◌≤◌, vec_len};

use crate::age::Age;
use crate::waiting::Waiting;
use mio::net::TcpStream;
use moo_cli_telnet::Telnet;
use moo_cli_web_frames::Channel;

/// The result of a read.
#[derive(Debug, Drop)]
pub enum Came {
    /// The bytes that came next.
    Bytes(Vec<u8>),
    /// No bytes have come yet.
    NothingYet,
    /// The other side has closed the connection, or the socket failed.
    End,
}

/// A socket, the output that waits for it, and the input that was read from it. A call that would block is made again
/// once the system reports that the socket is ready.
#[derive(Drop)]
pub struct Socket {
    pub(crate) stream: TcpStream,
    pub(crate) waiting: Waiting,
    /// The bytes that were read and not returned yet. Those of a WebSocket are the payload of its messages.
    pub(crate) input: Vec<u8>,
    /// Whether the system may have bytes, or the end may be read.
    pub(crate) may_read: bool,
    /// Whether the system reported that no bytes come after those that it has, or a fault.
    pub(crate) is_ending: bool,
    pub(crate) may_write: bool,
    pub(crate) age: Age,
    /// Drops the commands of telnet, if they are to be dropped.
    pub(crate) telnet: Option<Telnet>,
    /// The frames, if the socket is a WebSocket.
    pub(crate) channel: Option<Channel>,
    /// The number of bytes at the front of what waits that are in frames.
    pub(crate) carried: usize,
    ghost carried_in_range: { carried + waiting.gone ≤ vec_len waiting.going },
}
