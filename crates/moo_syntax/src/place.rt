//! The context of an expression.
use moo_syntax_grammar::Names;

/// The context of an expression, and the functions that it may call.
#[derive(Clone, Copy)]
pub struct Place {
    /// Whether the expression is inside an index, where `$` is allowed.
    pub inside: bool,
    pub names: Names,
}
