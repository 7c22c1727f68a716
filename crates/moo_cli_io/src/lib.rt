//! The reports and exit statuses of the program `moo`: why it gives up, why a database is refused, and whether its
//! input, its output or memory has failed.
//! An internal crate of `moo`.
#![tactic(auto)]

mod device;
mod exit_reason;
mod part;
mod report;
mod told;
mod watch;

pub use device::{Device, log_error, open};
pub use exit_reason::ExitReason;
pub use part::{LinePart, PartEnd, next_part};
pub use report::{report_fault, show};
pub use told::fault_line;
pub use watch::Watch;
