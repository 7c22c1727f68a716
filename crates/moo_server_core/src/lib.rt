//! A server over a disk and any application: events, checkpoints, and what a crash may leave.
//! An internal crate of `moo_server`.
#![tactic(auto)]

mod application;
mod begin;
mod disk_laws;
mod event;
pub mod laws;
mod life;
mod life_laws;
mod lives;
mod opening;
mod server_core;
mod start_application;
mod taking;

pub use application::{Application, Input, Requests};
pub use event::{Cause, Event, Phase, RunFault};
pub use life::{Life, LifeBegin, LifeStop, LivesCause, LivesFault};
pub use lives::{run_lives, run_lives_on};
pub use server_core::ServerCore;
pub use start_application::StartApplication;
