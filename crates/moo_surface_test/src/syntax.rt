//! The surface of `moo_syntax`.
use moo_syntax::{
    Arm, Codes, Cursor, Expr, Fault, Given, Handler, Item, Keyword, Level, Literal, Name,
    NameInterner, Names, Operator, Program, Sign, Spot, Stmt, SyntaxFault, SyntaxFaultKind, Text,
    Token,
};
use moo_value::MooStr;
use std::alloc::{AllocError, Global};

pub fn parse(alloc: Global, lines: &[MooStr], names: Names) -> Result<Program, SyntaxFault> {
    moo_syntax::parse(alloc, lines, names)
}

pub fn parse_with(
    alloc: Global,
    known: &mut NameInterner,
    lines: &[MooStr],
    names: Names,
) -> Result<Program, SyntaxFault> {
    moo_syntax::parse_with(alloc, known, lines, names)
}

pub fn try_clone(program: &Program) -> Result<Program, AllocError> {
    program.try_clone()
}

pub fn slots(program: &Program) -> &[MooStr] {
    program.slots()
}

pub fn statements(program: &Program) -> &[Stmt] {
    program.statements()
}

pub fn fault_text(fault: &SyntaxFault, alloc: Global) -> Result<Vec<u8>, AllocError> {
    fault.text(alloc)
}

pub fn fault_line(fault: &SyntaxFault) -> usize {
    fault.line
}

/// Returns the number of a kind.
pub fn fault_kind(kind: &SyntaxFaultKind) -> u8 {
    match kind {
        SyntaxFaultKind::BadToken => 1,
        SyntaxFaultKind::Unexpected => 2,
        SyntaxFaultKind::TooDeep => 3,
        SyntaxFaultKind::UnknownFunction(_) => 4,
        SyntaxFaultKind::BadTarget => 5,
        SyntaxFaultKind::BadLoopName => 6,
        SyntaxFaultKind::Memory => 7,
    }
}

/// Returns whether any function name is taken.
pub fn takes_any(names: Names) -> bool {
    match names {
        Names::Any => true,
        Names::Known => false,
    }
}

/// Returns the number of a statement's form.
pub fn statement(stmt: &Stmt) -> u8 {
    match stmt {
        Stmt::Return(_) => 0,
        Stmt::Expression(_) => 1,
        Stmt::If(_, _, _) => 2,
        Stmt::ForList(_, _, _) => 3,
        Stmt::ForRange(_, _, _, _) => 4,
        Stmt::While(_, _, _) => 5,
        Stmt::Break(_) => 6,
        Stmt::Continue(_) => 7,
        Stmt::TryExcept(_, _) => 8,
        Stmt::TryFinally(_, _) => 9,
    }
}

/// Returns the number of an expression's form.
pub fn expression(expr: &Expr) -> u8 {
    match expr {
        Expr::Literal(_) => 0,
        Expr::Variable(_) => 1,
        Expr::Length => 2,
        Expr::Unary(_, _) => 3,
        Expr::Binary(_, _, _) => 4,
        Expr::Logic(_, _, _) => 5,
        Expr::Conditional(_, _, _) => 6,
        Expr::Index(_, _) => 7,
        Expr::Range(_, _, _) => 8,
        Expr::List(_) => 9,
        Expr::Property(_, _) => 10,
        Expr::VerbCall(_, _, _) => 11,
        Expr::Call(_, _) => 12,
        Expr::Assign(_, _) => 13,
        Expr::Catch(_, _, _) => 14,
    }
}

/// Returns the number of a literal's form.
pub fn literal(literal: &Literal) -> u8 {
    match literal {
        Literal::Integer(_) => 0,
        Literal::Object(_) => 1,
        Literal::Error(_) => 2,
        Literal::Str(_) => 3,
    }
}

/// Returns the number of an item's form.
pub fn item(item: &Item) -> u8 {
    match item {
        Item::Element(_) => 0,
        Item::Splice(_) => 1,
        Item::Optional(_) => 2,
        Item::Defaulted(_, _) => 3,
    }
}

/// Returns whether a handler names a variable.
pub fn has_name(handler: &Handler) -> bool {
    match handler {
        Handler::Except(_, _) => false,
        Handler::ExceptAs(_, _, _) => true,
    }
}

/// Returns whether codes fit any error.
pub fn fit_any(codes: &Codes) -> bool {
    match codes {
        Codes::Any => true,
        Codes::Listed(_) => false,
    }
}

/// Returns the name of a variable, if an expression is one.
pub fn variable(expr: &Expr) -> Option<&Name> {
    match expr {
        Expr::Variable(name) => Some(name),
        _ => None,
    }
}

/// Returns the text of a string, if a literal is one.
pub fn string(literal: &Literal) -> Option<&Text> {
    match literal {
        Literal::Str(text) => Some(text),
        _ => None,
    }
}

/// Returns the branches after the first, if a statement is an `if`.
pub fn branches(stmt: &Stmt) -> Option<&[Arm]> {
    match stmt {
        Stmt::If(_, _, arms) => Some(arms.as_slice()),
        _ => None,
    }
}

/// Returns the variable that every frame has, if a name is one.
pub fn given(name: &Name) -> Option<Given> {
    name.given()
}

/// Returns a cursor at the first token.
pub fn cursor(spots: &[Spot]) -> Cursor<'_> {
    Cursor { spots, at: 0 }
}

pub fn take(cursor: &mut Cursor<'_>, sign: Sign) -> bool {
    cursor.take(sign)
}

pub fn expect_keyword(cursor: &mut Cursor<'_>, keyword: Keyword) -> Result<(), Fault> {
    cursor.expect_keyword(keyword)
}

pub fn take_operator(cursor: &mut Cursor<'_>, level: Level) -> Option<Operator> {
    cursor.take_operator(level)
}

/// Returns the number of a token's form.
pub fn token(token: &Token) -> u8 {
    match token {
        Token::Integer(_) => 0,
        Token::Object(_) => 1,
        Token::Error(_) => 2,
        Token::Str(_) => 3,
        Token::Name(_) => 4,
        Token::Keyword(_) => 5,
        Token::Sign(_) => 6,
        Token::Bad => 7,
    }
}

/// Returns whether an operator evaluates both operands.
pub fn is_strict(operator: Operator) -> bool {
    match operator {
        Operator::Binary(_) => true,
        Operator::Logic(_) => false,
    }
}

/// Returns the number of a level.
pub fn level(level: Level) -> u8 {
    match level {
        Level::Logic => 0,
        Level::Relation => 1,
        Level::Sum => 2,
        Level::Product => 3,
    }
}
