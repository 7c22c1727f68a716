//! The commands of telnet in what a client sends, which are dropped.
//! An internal crate of `moo`.
#![tactic(auto)]

mod filter;
pub mod laws;

pub use filter::{State, Telnet};
