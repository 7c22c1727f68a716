//! The nodes of lowered expressions.
use crate::constant::Constant;
use crate::function_name::FunctionName;
use moo_syntax_ast::operator::{BinaryOperator, LogicOperator, UnaryOperator};
use moo_syntax_ast::{Name, Text};
use moo_value::ErrorCode;

/// Holds a lowered expression.
#[cycle(node)]
#[derive(Drop)]
pub enum Node {
    Integer(i32),
    Object(i32),
    Error(ErrorCode),
    Str(Text),
    Variable(Name),
    /// `$`, the length of the value that is indexed.
    Length,
    Unary(UnaryOperator, Box<Node>),
    Binary(BinaryOperator, Box<Node>, Box<Node>),
    /// `a + b` and its like, if the operands are integers, variables, their elements, their lengths or such operators
    /// themselves. So its value is most often computed from integers alone. The place of such an element has at most two
    /// operators, and no elements are operands of `==` and `!=`.
    Arithmetic(BinaryOperator, Box<Node>, Box<Node>),
    Logic(LogicOperator, Box<Node>, Box<Node>),
    /// `a ? b | c`
    Conditional(Box<Node>, Box<Node>, Box<Node>),
    /// `a[b]`
    Index(Box<Node>, Box<Node>),
    /// `a[b..c]`
    Range(Box<Node>, Box<Node>, Box<Node>),
    /// `{..}`
    List(Vec<NodeItem>),
    /// `{..}` of literals and of such lists.
    Constant(Constant),
    /// `a.(b)`; `a.n` is `a.("n")`.
    Property(Box<Node>, Box<Node>),
    /// `a:(b)(..)`; `a:n(..)` is `a:("n")(..)`.
    VerbCall(Box<Node>, Box<Node>, Box<Vec<NodeItem>>),
    /// `f(..)`, a call of a built-in function.
    Call(FunctionName, Vec<NodeItem>),
    /// `a = b`
    Assign(Box<Node>, Box<Node>),
    /// `` `a ! codes' `` or `` `a ! codes => b' ``
    Catch(Box<Node>, Box<NodeCodes>, Option<Box<Node>>),
}

/// Holds an item of a list, of a call's arguments, of the errors in a catch, or of the target of a scatter.
#[cycle(node)]
#[derive(Drop)]
pub enum NodeItem {
    Element(Box<Node>),
    /// `@a`
    Splice(Box<Node>),
    /// `?a`, only in the target of a scatter.
    Optional(Box<Name>),
    /// `?a = b`, only in the target of a scatter: a variable and its default.
    Defaulted(Box<Name>, Box<Node>),
}

/// Holds the errors that a catch handles.
#[cycle(node)]
#[derive(Drop)]
pub enum NodeCodes {
    /// `ANY`
    Any,
    /// Literal errors, as in `E_DIV, E_RANGE`.
    Known(Vec<ErrorCode>),
    Listed(Vec<NodeItem>),
}
