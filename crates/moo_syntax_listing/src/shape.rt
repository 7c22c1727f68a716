//! The shapes of expressions that a listing distinguishes.
ghost use Rattle.std.specs.Prelude.{◌≡◌, Some, None, MatchOption};
ghost use Rattle.moo_syntax_ast.specs.View.{tree};
ghost use Rattle.moo_syntax_ast.specs.Listing.{is_compound, is_compound_base, constant_name, is_system_object};

use moo_syntax_ast::{Expr, Literal};
use moo_syntax_token::is_name;
use moo_value::MooStr;

/// Is true if the expression is an operator, a conditional or an assignment, which a listing puts in parentheses as an
/// operand.
pub fn is_compound(value: &Expr) -> bool
    ensures { result ≡ is_compound (tree value.now) }
{
    matches!(
        value,
        Expr::Unary(..)
            | Expr::Binary(..)
            | Expr::Logic(..)
            | Expr::Conditional(..)
            | Expr::Assign(..)
    )
}

/// Is true if the expression is compound or an integer literal, which a listing puts in parentheses before `.`, `:` and
/// `[`.
pub fn is_compound_base(value: &Expr) -> bool
    ensures { result ≡ is_compound_base (tree value.now) }
{
    match value {
        Expr::Literal(Literal::Integer(_)) => true,
        _ => is_compound(value),
    }
}

/// Returns the expression's string if it is a string literal that is a name and no keyword.
pub fn constant_name(value: &Expr) -> Option<&MooStr>
    ensures { MatchOption result (constant_name (tree value.now) ≡ None) (λ name. constant_name (tree value.now) ≡ Some name.now) }
{
    match value {
        Expr::Literal(Literal::Str(text)) if is_name(text.string().as_bytes()) => Some(
            text.string(),
        ),
        _ => None,
    }
}

/// Is true if the expression is the literal `#0`.
pub fn is_system_object(value: &Expr) -> bool
    ensures { result ≡ is_system_object (tree value.now) }
{
    matches!(value, Expr::Literal(Literal::Object(0)))
}
