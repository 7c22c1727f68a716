//! Reads and writes saved worlds as database texts.
#![tactic(auto)]

mod dump_laws;
pub mod laws;
mod link;
mod nexts;
mod object;
mod program;
mod round_trip_laws;
mod world;
mod writing;

pub use moo_dbtext_read::{
    DbFault, DbFaultKind, DbReader, ProgramFault, ProgramFaultKind, Saved, read_db,
};
pub use moo_dbtext_restore::Link;
pub use world::write_world;
pub use writing::{write_db, write_world_and_connected};
