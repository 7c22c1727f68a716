//! Lowers programs: decides once what depends on the text of a program alone, so that the evaluator needn't.
//! An internal crate of `moo_syntax`.
#![tactic(auto)]

mod assignment;
mod block;
mod expression;
mod item;
mod slots;
mod variables;

pub use block::lower_block;
pub use slots::variable_names;
