//! The page on which a browser plays.
//! An internal crate of the program `moo`.
#![tactic(auto)]

mod page;

pub use page::PAGE;
