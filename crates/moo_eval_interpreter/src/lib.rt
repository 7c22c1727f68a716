//! Runs programs: one function for each kind of statement and expression. An internal crate of `moo_eval`.
#![tactic(auto)]

mod arguments;
mod arithmetic;
mod assignment;
mod calls;
mod catching;
mod conditions;
mod deciding;
mod deferred;
mod element;
mod extension;
mod functions;
mod interpreter;
mod lengthening;
mod loops;
mod nodes;
mod operators;
mod property;
mod property_element;
mod scattering;
mod statement;
mod trying;
mod update;

pub use interpreter::evaluate;
pub use moo_eval_task::Task;
pub use statement::run_all;
