//! The plain built-in functions: those that call no verb, leave no notice, and read no frame, tick or connection.
#![tactic(auto)]

mod answers;
mod call;
mod code_call;
pub mod laws;
mod listing;
mod plain;
mod setting;

pub use call::{Caller, call_found, call_plain};
pub use code_call::call_code;
pub use listing::verb_code;
pub use moo_builtin_operator::OperationFault;
pub use moo_builtin_value::Outcome;
pub use moo_syntax_function::{Function, Kind, Row};
pub use plain::try_plain;
pub use setting::{is_programmer, told_fault};
