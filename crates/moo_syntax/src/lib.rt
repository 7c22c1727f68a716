//! The parser: it makes a program of a text, or reports a fault.
#![tactic(auto)]

mod brackets;
mod cursor;
mod fault;
mod jump;
pub mod laws;
mod levels;
mod make;
mod members;
mod node;
mod place;
mod postfix;
mod primary;
mod reader;
mod rules;
mod statement;
mod syntax_fault;

pub use cursor::Cursor;
pub use fault::Fault;
pub use levels::expression;
pub use make::below;
pub use moo_syntax_ast::operator::{BinaryOperator, LogicOperator, UnaryOperator};
pub use moo_syntax_ast::{Arm, Codes, Expr, Given, Handler, Item, Literal, Name, Stmt, Text};
pub use moo_syntax_grammar::{Level, Names, Operator};
pub use moo_syntax_program::Program;
pub use moo_syntax_token::{Keyword, NameInterner, Sign, Spot, Token};
pub use node::{Caught, Node};
pub use place::Place;
pub use primary::codes;
pub use reader::{parse, parse_with};
pub use syntax_fault::{SyntaxFault, SyntaxFaultKind};
