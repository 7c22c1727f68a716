//! The grammar of programs.
//! An internal crate of `moo_syntax`.
#![tactic(auto)]

pub mod laws;
mod level;
mod names;

pub use level::{Level, Operator, operator_at};
pub use names::Names;
