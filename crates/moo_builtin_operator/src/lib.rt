//! The operators of the language over values. An internal crate of `moo_builtin`.
#![tactic(auto)]

mod arithmetic;
mod assignment;
mod comparison;
mod fault;
pub mod laws;
mod made;
mod operator;
mod place;

pub use assignment::{before_place, index_refusal, takes_range, with_index, with_range};
pub use comparison::{is_decided, is_equal, is_true};
pub use fault::OperationFault;
pub use made::list;
pub use operator::{binary, unary};
pub use place::{index, length_of, list_bounds, range, spliced};
