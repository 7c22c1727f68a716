//! The text of operators.
ghost use Rattle.std.specs.Prelude.{◌≡◌, ◌++◌, OnOk};
ghost use Rattle.moo_syntax_ast.specs.Listing.{unary_sign, binary_sign, logic_sign};

use crate::line::Line;
use moo_syntax_ast::operator::{BinaryOperator, LogicOperator, UnaryOperator};
use moo_syntax_token::{Keyword, Sign};
use std::alloc::AllocError;

pub(crate) fn write_unary_operator(
    operator: UnaryOperator,
    line: &mut Line,
) -> Result<(), AllocError>
    ensures { OnOk result (line.new ≡ line.old ++ unary_sign operator) }
{
    match operator {
        UnaryOperator::Not => line.sign(Sign::Bang),
        UnaryOperator::Negate => line.sign(Sign::Minus),
    }
}

pub(crate) fn write_binary_operator(
    operator: BinaryOperator,
    line: &mut Line,
) -> Result<(), AllocError>
    ensures { OnOk result (line.new ≡ line.old ++ binary_sign operator) }
{
    match operator {
        BinaryOperator::Add => line.sign(Sign::Plus),
        BinaryOperator::Subtract => line.sign(Sign::Minus),
        BinaryOperator::Multiply => line.sign(Sign::Star),
        BinaryOperator::Divide => line.sign(Sign::Slash),
        BinaryOperator::Remainder => line.sign(Sign::Percent),
        BinaryOperator::Power => line.sign(Sign::Caret),
        BinaryOperator::Equal => line.sign(Sign::Equal),
        BinaryOperator::NotEqual => line.sign(Sign::NotEqual),
        BinaryOperator::Less => line.sign(Sign::Less),
        BinaryOperator::LessOrEqual => line.sign(Sign::LessEqual),
        BinaryOperator::Greater => line.sign(Sign::Greater),
        BinaryOperator::GreaterOrEqual => line.sign(Sign::GreaterEqual),
        BinaryOperator::In => line.keyword(Keyword::In),
    }
}

pub(crate) fn write_logic_operator(
    operator: LogicOperator,
    line: &mut Line,
) -> Result<(), AllocError>
    ensures { OnOk result (line.new ≡ line.old ++ logic_sign operator) }
{
    match operator {
        LogicOperator::And => line.sign(Sign::AndAnd),
        LogicOperator::Or => line.sign(Sign::OrOr),
    }
}
