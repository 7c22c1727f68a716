//! Calls of built-in functions that call no verb: those that inspect the task and its connections, those that leave a
//! notice, and plain ones. Also ticks. An internal crate of `moo_eval`.
#![tactic(auto)]

mod asking;
mod call;
mod connections;
pub mod laws;
mod raising;
mod spliced;
mod task;
mod ticks;

pub use call::{call_function, call_values};
pub use ticks::{MOST_TICKS, Ticks};
