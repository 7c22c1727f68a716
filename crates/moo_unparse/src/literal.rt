//! The text of literals.
ghost use Rattle.std.specs.Prelude.{◌≡◌, ◌++◌, OnOk};
ghost use Rattle.moo_value.specs.Text.{literal as text_of};
ghost use Rattle.moo_syntax_ast.specs.Tree.{literal_value};

use crate::line::Line;
use moo_syntax_ast::Literal;
use std::alloc::AllocError;

pub(crate) fn write_literal(literal: &Literal, line: &mut Line) -> Result<(), AllocError>
    ensures { OnOk result (line.new ≡ line.old ++ text_of (literal_value literal.now)) }
{
    match literal {
        Literal::Integer(number) => line.number(*number),
        Literal::Object(number) => line.object(*number),
        Literal::Error(error) => line.text(error.name().as_bytes()),
        Literal::Str(text) => line.quoted(text.string().as_bytes()),
    }
}
