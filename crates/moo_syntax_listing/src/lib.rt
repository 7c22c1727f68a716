//! The full listing of programs: which of its parts have parentheses, and whether its lines fit strings.
//! An internal crate of `moo_syntax`.
#![tactic(auto)]

mod length;
mod lines;
pub mod shape;

pub use lines::fit_lines;
