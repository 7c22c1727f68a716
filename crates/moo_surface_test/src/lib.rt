//! The public surface, typed: each function calls one public function with arguments and a result of the types that users of
//! the library write, and each `match` names all variants of a public enum. The crate uses public crates only.
#![tactic(auto)]

pub mod builtin;
pub mod checkpoint;
pub mod command;
pub mod dbtext;
pub mod disk;
pub mod eval;
pub mod laws;
pub mod server;
pub mod session;
pub mod syntax;
pub mod unparse;
pub mod value;
pub mod world;
