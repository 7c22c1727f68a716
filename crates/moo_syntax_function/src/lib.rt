//! The table of the built-in functions: their names, their arguments, and the calls that are refused before a function
//! reads its arguments.
//! An internal crate of `moo_builtin`.
#![tactic(auto)]

mod check;
mod function;
pub mod laws;
mod likely;
mod names;
mod table;

pub use function::Function;
pub use table::{Kind, Row};
