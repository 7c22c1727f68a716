//! The meaning of programs: the big-step relation of evaluation, what built-in functions do that call verbs or read the
//! task, and the laws of both. An internal crate of `moo_eval`.
#![tactic(auto)]

mod hook_laws;
pub mod laws;
mod stage;

pub use stage::Stage;
