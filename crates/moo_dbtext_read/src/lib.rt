//! Saved worlds, and the bytes that spell them.
//! An internal crate of `moo_dbtext`.
#![tactic(auto)]

mod database;
mod db_reader;
mod fault;
pub mod laws;
mod loading;
mod object_line;
pub mod program_laws;
mod program_reader;
mod program_rows;
mod saved;
pub mod saved_laws;
mod text;
mod world_reader;

pub use database::Database;
pub use db_reader::DbReader;
pub use fault::kind_of_source;
pub use moo_dbtext_record::{DbFault, DbFaultKind, ProgramFault, ProgramFaultKind};
pub use program_reader::{ProgramReader, take_line};
pub use saved::Saved;
pub use text::read_db;
