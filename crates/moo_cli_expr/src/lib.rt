//! The command `moo expr`, over a reader and a writer.
//! An internal crate of `moo`.
#![tactic(auto)]

mod answer;
mod first_line;

pub use answer::{expr_watched, run_expr};
