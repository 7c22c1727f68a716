//! The bytes of a connection over a WebSocket, each way.
ghost use Rattle.std.specs.Prelude.{◌≤◌, length};

use crate::endpoint::Endpoint;
use crate::silence::Silence;

/// The greatest number of payload bytes in a frame that is sent.
pub const PAYLOAD_MOST: usize = 16384;

/// The number of bytes of frames that may wait. While more wait, nothing is received.
pub const FRAMES_MOST: usize = 65536;

/// Holds the payload that came and isn't taken yet, and the frames that aren't written yet.
#[derive(Drop)]
pub struct Channel {
    pub(crate) endpoint: Endpoint,
    /// The payload of the messages that came.
    pub(crate) payload: Vec<u8>,
    /// What goes out, as it is on the wire.
    pub(crate) frames: Vec<u8>,
    /// The number of bytes of `frames` that were written.
    pub(crate) written: usize,
    /// Whether nothing more is received.
    pub(crate) is_over: bool,
    pub(crate) silence: Silence,
    ghost written_in_range: { written ≤ length frames.items },
}
