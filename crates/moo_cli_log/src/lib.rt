//! The log with the time of each line.
//! An internal crate of `moo`.
#![tactic(auto)]

mod local;
mod sink;
mod standard_error;

pub use local::LocalTime;
pub use sink::{LogTimes, TimedLog};
