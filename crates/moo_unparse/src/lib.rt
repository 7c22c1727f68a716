//! The listings of programs.
#![tactic(auto)]

mod block;
mod expression;
mod fault;
mod form;
mod head;
pub mod laws;
mod line;
mod listing;
mod literal;
mod operator;

pub use fault::{ListFault, Memory};
pub use listing::{list_full, list_full_indented, list_short, write_full};
