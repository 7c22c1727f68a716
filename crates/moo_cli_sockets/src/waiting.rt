//! The bytes that wait for a socket.
ghost use Rattle.std.specs.Prelude.{◌≤◌, vec_len};

/// Holds bytes in the order in which they are written. The bytes of the front stay where they are; later bytes are
/// gathered separately.
#[derive(Drop)]
pub struct Waiting {
    pub(crate) going: Vec<u8>,
    /// The number of bytes of `going` that were written.
    pub(crate) gone: usize,
    pub(crate) following: Vec<u8>,
    ghost in_range: { gone ≤ vec_len going },
}
