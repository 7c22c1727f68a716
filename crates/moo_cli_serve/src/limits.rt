//! The limits for connections.
use crate::strangers::LoginLimits;

/// The limits for connections. The operator's own has none.
#[derive(Clone, Copy, Debug, PartialEq, Eq)]
pub struct Limits {
    /// The number of waiting bytes past which a connection is hung up.
    pub most_waiting: usize,
    /// The limits for connections on which nobody has logged in.
    pub login: LoginLimits,
    /// The seconds after which a connection that has sent nothing is hung up, or 0 for no limit.
    pub idle_seconds: u64,
}
