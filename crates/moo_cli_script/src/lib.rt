//! The command `moo script`, over a reader and a writer: it reads events, gives them to a server, and prints what comes of
//! them.
//! An internal crate of `moo`.
#![tactic(auto)]

mod acting;
mod address;
mod connection_line;
mod disk_line;
mod handing;
mod hex;
mod input;
pub mod laws;
mod line;
mod number;
mod playing;
mod printing;
mod program;
mod script;
mod script_line;
mod telling;
mod work;

pub use input::{next_line, whole_text};
pub use printing::{print_bad_line, print_sent};
pub use program::{run_script, script_watched};
pub use script_line::{ScriptLine, read_script_line};
