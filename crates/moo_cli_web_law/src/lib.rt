//! Laws of browsers: their lines.
//! An internal crate of the program `moo`.
#![tactic(auto)]

pub mod laws;
