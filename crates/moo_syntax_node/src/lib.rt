//! The nodes of lowered programs, which the evaluator runs.
//! An internal crate of `moo_syntax`.
#![tactic(auto)]

mod constant;
mod function_name;
mod node;
mod statement;

pub use constant::{Constant, constant_list};
pub use function_name::FunctionName;
pub use node::{Node, NodeCodes, NodeItem};
pub use statement::{NodeArm, NodeHandler, NodeStmt};
