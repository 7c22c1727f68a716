//! The syntax tree of a program.
use crate::name::Name;
use crate::operator::{BinaryOperator, LogicOperator, UnaryOperator};
use crate::text::Text;
use moo_value::{ErrorCode, MooStr};

/// A literal in a program.
#[derive(Drop)]
pub enum Literal {
    Integer(i32),
    Object(i32),
    Error(ErrorCode),
    Str(Text),
}

/// An expression.
#[cycle(tree)]
#[derive(Drop)]
pub enum Expr {
    Literal(Literal),
    /// A variable, by its name.
    Variable(Name),
    /// `$`, the length of the value that is indexed.
    Length,
    Unary(UnaryOperator, Box<Expr>),
    Binary(BinaryOperator, Box<Expr>, Box<Expr>),
    Logic(LogicOperator, Box<Expr>, Box<Expr>),
    /// `a ? b | c`
    Conditional(Box<Expr>, Box<Expr>, Box<Expr>),
    /// `a[b]`
    Index(Box<Expr>, Box<Expr>),
    /// `a[b..c]`
    Range(Box<Expr>, Box<Expr>, Box<Expr>),
    /// `{..}`
    List(Vec<Item>),
    /// `a.(b)`; `a.n` is `a.("n")`.
    Property(Box<Expr>, Box<Expr>),
    /// `a:(b)(..)`; `a:n(..)` is `a:("n")(..)`.
    VerbCall(Box<Expr>, Box<Expr>, Box<Vec<Item>>),
    /// `f(..)`, a call of a built-in function, by its name as spelled.
    Call(MooStr, Vec<Item>),
    /// `a = b`
    Assign(Box<Expr>, Box<Expr>),
    /// `` `a ! codes' `` or `` `a ! codes => b' ``
    Catch(Box<Expr>, Box<Codes>, Option<Box<Expr>>),
}

/// An item of a list, of a call's arguments, of the errors in a catch, or of the target of a scatter.
#[cycle(tree)]
#[derive(Drop)]
pub enum Item {
    Element(Box<Expr>),
    /// `@a`
    Splice(Box<Expr>),
    /// `?a`, only in the target of a scatter: a variable's name.
    Optional(Box<Name>),
    /// `?a = b`, only in the target of a scatter: a variable's name and its default.
    Defaulted(Box<Name>, Box<Expr>),
}

/// The errors that a catch handles.
#[cycle(tree)]
#[derive(Drop)]
pub enum Codes {
    /// `ANY`
    Any,
    Listed(Vec<Item>),
}

/// A statement.
#[cycle(statements)]
#[derive(Drop)]
pub enum Stmt {
    /// `return;` or `return a;`
    Return(Option<Box<Expr>>),
    /// `a;`
    Expression(Box<Expr>),
    /// `if (a) .. endif`: the condition, the statements, and the further arms.
    If(Box<Expr>, Vec<Stmt>, Vec<Arm>),
    /// `for x in (a) .. endfor`
    ForList(Name, Box<Expr>, Vec<Stmt>),
    /// `for x in [a..b] .. endfor`
    ForRange(Name, Box<Expr>, Box<Expr>, Vec<Stmt>),
    /// `while (a) .. endwhile` or `while x (a) .. endwhile`
    While(Option<MooStr>, Box<Expr>, Vec<Stmt>),
    /// `break;` or `break x;`
    Break(Option<MooStr>),
    /// `continue;` or `continue x;`
    Continue(Option<MooStr>),
    /// `try .. except x (codes) .. endtry`
    TryExcept(Vec<Stmt>, Vec<Handler>),
    /// `try .. finally .. endtry`
    TryFinally(Vec<Stmt>, Vec<Stmt>),
}

/// A further arm of an `if`.
#[cycle(statements)]
#[derive(Drop)]
pub enum Arm {
    /// `elseif (a) ..`
    ElseIf(Box<Expr>, Vec<Stmt>),
    /// `else ..`, the last arm: arms after it are no part of the program.
    Else(Vec<Stmt>),
}

/// A handler of a `try`.
#[cycle(statements)]
#[derive(Drop)]
pub enum Handler {
    /// `except (codes) ..`
    Except(Codes, Vec<Stmt>),
    /// `except x (codes) ..`, which assigns the error to the variable.
    ExceptAs(Name, Codes, Vec<Stmt>),
}
