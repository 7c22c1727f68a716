//! The sockets of connections, each under its number, and the listener for new ones.
//! An internal crate of the program `moo`.
#![tactic(auto)]

mod age;
mod channel;
mod coming;
mod descriptors;
mod fault;
mod numbers;
mod piece;
mod queue;
mod sending;
mod socket;
mod sockets;
mod transfer;
mod waiting;
mod web;

pub use age::{Age, seconds};
pub use coming::put;
pub use fault::SocketsFault;
pub use numbers::sort_numbers;
pub use socket::{Came, Socket};
pub use sockets::{CONSOLE, Sockets};
pub use waiting::Waiting;
