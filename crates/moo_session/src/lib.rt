//! What an opening, bytes and a hang-up do to a world and its sessions, hooks included, and the calls that the server
//! itself makes (docs/reference/commands.md).
#![tactic(auto)]

mod checkpoints;
mod connect;
mod dispatch;
mod dot_program;
mod events;
mod input;
mod intervals;
pub mod laws;
mod login;
mod player_line;
mod program_end;
mod program_lines;
mod typed_line;
mod verb_choice;

pub use checkpoints::{checkpoint_ends, checkpoint_starts, start};
pub use dot_program::begin_programming;
pub use events::{hang_up, open, receive};
pub use input::meet_lines;
pub use intervals::interval;
pub use login::log_in;
pub use moo_session_connection::{Client, Connections, Gathering, Outbox, Sent};
pub use moo_session_line::LineReader;
pub use moo_session_task::{Hook, Session, WorldState};
pub use program_lines::gather;
