//! Parses a typed line into a command: its words, its verb and its objects. Chooses the verb that it runs
//! (docs/reference/commands.md).
#![tactic(auto)]

mod choice;
mod command;
pub mod laws;
mod matching;
mod named;
mod numbered;
mod parsing;
mod prepositions;
mod reading;
mod splitting;
mod typed;
mod word_laws;

pub use choice::{Chosen, choose_verb};
pub use command::Command;
pub use matching::{match_object, room_of};
pub use parsing::{parse_command, parse_typed};
pub use reading::{skip_blanks, words};
pub use typed::{Typed, read_typed, typed_after};
