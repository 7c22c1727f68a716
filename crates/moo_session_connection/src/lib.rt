//! The connections of a server, and the output that waits to be taken from it: the bytes for each connection, and the
//! lines of the log. The output of an event waits once the event is kept (docs/reference/commands.md).
//! An internal crate of `moo_session`.
#![tactic(auto)]

mod client;
mod connections;
mod gathering;
mod hearing;
mod keeping;
mod leaving;
mod lookup;
mod opening;
mod outbox;
mod pending;
mod playing;
mod row;
mod sent;

pub use client::Client;
pub use connections::Connections;
pub use gathering::Gathering;
pub use moo_eval_frame::{Connection, Login, own_number};
pub use outbox::Outbox;
pub use pending::pending_numbers;
pub use sent::Sent;
