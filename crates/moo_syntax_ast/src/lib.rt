//! The syntax trees of programs.
//! An internal crate of `moo_syntax`.
#![tactic(auto)]

mod given;
pub mod laws;
mod limits;
mod name;
mod name_hash;
mod name_key;
mod numbering;
pub mod operator;
mod target;
mod text;
mod tree;

pub use given::Given;
pub use limits::{MOST_BRACKETS, MOST_NODES};
pub use name::Name;
pub use name_hash::{class_of, first_letter, hash_of};
pub use name_key::NameKey;
pub use numbering::{is_code, name_number};
pub use target::is_target;
pub use text::Text;
pub use tree::{Arm, Codes, Expr, Handler, Item, Literal, Stmt};
