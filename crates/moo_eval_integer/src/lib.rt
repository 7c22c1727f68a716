//! Integers of operators between integers, variables, their elements, their lengths and their types, computed at once.
//! An internal crate of `moo_eval`.
#![tactic(auto)]

mod element;
mod function;
mod integer;
mod letters;
mod operand;
mod ticks;

pub use element::{element_of, inner_element_of, try_put_inner_integer, try_put_integer};
pub use function::call_integer;
pub use integer::{arithmetic_integer, counts_as_true, try_add_integer, try_set_arithmetic};
pub use letters::Letters;
pub use operand::{compare_nodes, is_equality, is_leaf};
