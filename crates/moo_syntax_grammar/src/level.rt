//! The levels of the binary operators.
ghost use Rattle.std.specs.Prelude.{◌≡◌};
ghost use Rattle.moo_syntax_grammar.specs.Tokens.{sign_operator, operator_at};

use moo_syntax_ast::operator::{BinaryOperator, LogicOperator};
use moo_syntax_token::{Keyword, Sign, Token};

/// The precedence levels of binary operators, the loosest first.
#[derive(Clone, Copy, PartialEq, Eq)]
pub enum Level {
    /// `&&` and `||`
    Logic,
    /// Comparisons and `in`
    Relation,
    /// `+` and `-`
    Sum,
    /// `*`, `/` and `%`
    Product,
}

/// An operator at one of these levels.
#[derive(Clone, Copy, PartialEq, Eq)]
pub enum Operator {
    Binary(BinaryOperator),
    Logic(LogicOperator),
}

/// Returns the operator that the sign is at this level, or `None` if it is none.
fn sign_operator(level: Level, sign: Sign) -> Option<Operator>
    ensures { result ≡ sign_operator level sign }
{
    match (level, sign) {
        (Level::Logic, Sign::AndAnd) => Some(Operator::Logic(LogicOperator::And)),
        (Level::Logic, Sign::OrOr) => Some(Operator::Logic(LogicOperator::Or)),
        (Level::Relation, Sign::Equal) => Some(Operator::Binary(BinaryOperator::Equal)),
        (Level::Relation, Sign::NotEqual) => Some(Operator::Binary(BinaryOperator::NotEqual)),
        (Level::Relation, Sign::Less) => Some(Operator::Binary(BinaryOperator::Less)),
        (Level::Relation, Sign::LessEqual) => Some(Operator::Binary(BinaryOperator::LessOrEqual)),
        (Level::Relation, Sign::Greater) => Some(Operator::Binary(BinaryOperator::Greater)),
        (Level::Relation, Sign::GreaterEqual) => Some(Operator::Binary(
            BinaryOperator::GreaterOrEqual,
        )),
        (Level::Sum, Sign::Plus) => Some(Operator::Binary(BinaryOperator::Add)),
        (Level::Sum, Sign::Minus) => Some(Operator::Binary(BinaryOperator::Subtract)),
        (Level::Product, Sign::Star) => Some(Operator::Binary(BinaryOperator::Multiply)),
        (Level::Product, Sign::Slash) => Some(Operator::Binary(BinaryOperator::Divide)),
        (Level::Product, Sign::Percent) => Some(Operator::Binary(BinaryOperator::Remainder)),
        _ => None,
    }
}

/// Returns the operator that the token is at this level, or `None` if it is none.
pub fn operator_at(level: Level, token: &Token) -> Option<Operator>
    ensures { result ≡ operator_at level token.now }
{
    match token {
        Token::Sign(sign) => sign_operator(level, *sign),
        Token::Keyword(Keyword::In) => match level {
            Level::Relation => Some(Operator::Binary(BinaryOperator::In)),
            Level::Logic | Level::Sum | Level::Product => None,
        },
        _ => None,
    }
}
