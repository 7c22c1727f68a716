//! The records of a whole database text, read in pieces.
//! An internal crate of `moo_dbtext`.
#![tactic(auto)]

mod dump;
mod dump_reader;
mod fault;
mod heading;
pub mod laws;
mod line_sink;
mod program_table;
mod record_reader;
mod writing;

pub use dump::{Connection, Dump, Form};
pub use fault::{DbFault, DbFaultKind, ProgramFault, ProgramFaultKind};
pub use line_sink::{LineSink, feed_lines};
pub use program_table::Source;
pub use record_reader::{RecordFault, RecordReader};
pub use writing::{
    put_connections, put_header, put_live, put_players, put_program, put_program_line,
    put_recycled, put_tasks,
};
