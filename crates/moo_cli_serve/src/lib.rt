//! Rounds between the sockets of connections and a server over a disk.
//! An internal crate of `moo`.
#![tactic(auto)]

mod beginning;
mod clients;
mod coming;
mod console;
mod fault;
mod giving;
pub mod laws;
mod leaving;
mod limits;
mod line_bound;
mod listening;
mod login_log;
mod program;
mod report;
mod serving;
mod silence;
mod strangers;
mod timeouts;

pub use fault::ServeFault;
pub use limits::Limits;
pub use listening::Web;
pub use program::{Served, run_serve, serve_disk, serve_watched};
pub use serving::{Round, Serving};
pub use strangers::LoginLimits;
