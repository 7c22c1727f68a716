//! The bytes of a connection within the frames of a WebSocket (RFC 6455).
//! An internal crate of the program `moo`.
#![tactic(auto)]

mod channel;
mod endpoint;
pub mod laws;
mod payload;
mod receiving;
mod sending;
mod silence;

pub use channel::{Channel, FRAMES_MOST, PAYLOAD_MOST};
pub use endpoint::{Endpoint, FRAME_MOST, close_code};
pub use silence::{Due, GONE_SECONDS, PING_SECONDS, Silence};
