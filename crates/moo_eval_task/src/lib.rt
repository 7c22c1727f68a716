//! The resources of a task, and the statements and expressions that run without a call of a verb.
//! An internal crate of `moo_eval`.
#![tactic(auto)]

mod arguments;
mod arithmetic;
mod assignment;
mod calls;
mod catching;
mod conditions;
mod constant;
mod element;
mod extension;
mod hooks;
mod leaves;
mod lengthening;
mod loops;
mod nodes;
mod operators;
mod property;
mod property_element;
mod scattering;
mod shown;
mod spare;
mod statement;
mod task;
mod trying;

pub use arguments::{has_splice, push};
pub use assignment::as_set_variable;
pub use calls::answered;
pub use catching::Attempt;
pub use conditions::decides;
pub use hooks::Pending;
pub use loops::set_value;
pub use nodes::copied_text;
pub use operators::listed;
pub use property_element::as_set_property_element;
pub use spare::SpareMemory;
pub use task::Task;
