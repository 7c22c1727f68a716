//! The server of a world that is kept on a disk: events, checkpoints, and what a crash may leave.
#![tactic(auto)]

mod connected;
mod happening;
pub mod laws;
mod lives;
mod moo_application;

pub use lives::{run_lives, run_lives_on};
pub use moo_application::MooApplication;
pub use moo_checkpoint::OpenFault;
pub use moo_disk::CrashDisk;
pub use moo_server_core::{
    Application, Cause, Event, Input, Life, LifeBegin, LifeStop, LivesCause, LivesFault, Phase,
    Requests, RunFault, ServerCore, StartApplication,
};

/// A server over a world with its connections. The disk is lent to each run.
pub type Server = ServerCore<MooApplication>;
