//! The built-in functions over values alone. An internal crate of `moo_builtin`.
#![tactic(auto)]

mod call;
mod conversion;
pub mod laws;
mod lists;
mod looks;
mod made;
mod numbers;
mod numeral;
mod place;
mod search;
mod strings;
mod substitution;

pub use call::{Outcome, answer, plain_answer, raised, settled};
pub use conversion::{append_texts, to_integer, to_literal, to_object, to_text};
pub use looks::type_number;
pub use place::{compare, index, last_index};
pub use substitution::substitute;
