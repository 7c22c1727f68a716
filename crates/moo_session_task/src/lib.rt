//! Tasks that the server starts, the hooks that they cause, and the sessions that they change. An internal crate of
//! `moo_session`.
#![tactic(auto)]

mod hook;
mod hooks;
pub mod laws;
mod leaving;
mod notices;
mod sending;
mod session;
mod strings;
mod tasks;
mod verbs;
mod world_state;

pub use hook::Hook;
pub use hooks::run_hooks;
pub use moo_session_connection::{Client, Connections, Gathering, Sent, own_number};
pub use session::Session;
pub use strings::word_list;
pub use tasks::run;
pub use verbs::call_server_verb;
pub use world_state::WorldState;
