//! The commands `moo check`, `moo check --all` and `moo copy`, over a reader and a writer. The first reports why a database is
//! refused, the second every program of it that is, and the third writes a database that it has read.
//! An internal crate of `moo`.
#![tactic(auto)]

mod check;
mod check_all;
mod copy;
mod counts;
mod loading;
mod readers;
mod survey;
mod told;

pub use check::{check_watched, run_check};
pub use check_all::{check_all_watched, run_check_all};
pub use copy::{copy_watched, run_copy};
pub use counts::counts_line;
pub use loading::load;
pub use moo_cli_io::{ExitReason, Watch};
