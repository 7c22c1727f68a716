//! Programs: the statements of a text, with their lowered form and the slots of their variables.
//! An internal crate of `moo_syntax`.
#![tactic(auto)]

mod order;
mod program;

pub use program::Program;
