//! The listener for browsers, and their connections up to the end of a response.
//! An internal crate of the program `moo`.
#![tactic(auto)]

mod caller;
mod listener;
mod names;

pub use caller::Upgrade;
pub use listener::WebListener;
