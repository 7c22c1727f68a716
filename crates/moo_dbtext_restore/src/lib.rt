//! The world that the records of a database describe.
//! An internal crate of `moo_dbtext`.
#![tactic(auto)]

mod counts;
mod fault;
mod first;
mod joining;
pub mod laws;
mod link;
mod lists;
mod names;
mod nodes;
mod objects;
mod records;
mod restoring;
mod rows;
mod tour;

pub use fault::RestoreFault;
pub use link::Link;
pub use restoring::{check_objects, restore_checked};
