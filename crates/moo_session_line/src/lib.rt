//! Splits the bytes of a connection into lines, in whatever pieces they come.
//! An internal crate of `moo_session`.
#![tactic(auto)]

pub mod laws;
mod line_reader;

pub use line_reader::{LINE_LIMIT, LineReader};
