//! The statements of lowered programs.
use crate::function_name::FunctionName;
use crate::node::{Node, NodeCodes, NodeItem};
use moo_syntax_ast::Name;
use moo_value::MooStr;

/// Holds a lowered statement.
#[cycle(statement)]
#[derive(Drop)]
pub enum NodeStmt {
    /// `return;` or `return a;`
    Return(Option<Box<Node>>),
    /// `a;`, a statement of an expression that none of the next seven is.
    Expression(Box<Node>),
    /// `x = a;`
    Set(Name, Box<Node>),
    /// `x = {@x, a};`
    Lengthen(Name, Box<Node>),
    /// `x = x + a;`
    Extend(Name, Box<Node>),
    /// `x = f(x, ..);` for a built-in function that makes a list of a list, as `listappend`.
    Update(Name, FunctionName, Vec<NodeItem>),
    /// `x[a] = b;`
    Put(Name, Box<Node>, Box<Node>),
    /// `{x, y} = a;`, if each item is a variable.
    ScatterNames(Vec<Name>, Box<Node>),
    /// `{..} = a;` for other items.
    Scatter(Vec<NodeItem>, Box<Node>),
    /// `if (a) .. endif`: the condition, the statements, and the further arms.
    If(Box<Node>, Vec<NodeStmt>, Vec<NodeArm>),
    /// `for x in (a) .. endfor`
    ForList(Name, Box<Node>, Vec<NodeStmt>),
    /// `for x in [a..b] .. endfor`
    ForRange(Name, Box<Node>, Box<Node>, Vec<NodeStmt>),
    /// `while (a) .. endwhile` or `while x (a) .. endwhile`
    While(Option<MooStr>, Box<Node>, Vec<NodeStmt>),
    /// `break;` or `break x;`
    Break(Option<MooStr>),
    /// `continue;` or `continue x;`
    Continue(Option<MooStr>),
    /// `try .. except x (codes) .. endtry`
    TryExcept(Vec<NodeStmt>, Vec<NodeHandler>),
    /// `try .. finally .. endtry`
    TryFinally(Vec<NodeStmt>, Vec<NodeStmt>),
}

/// Holds a further arm of an `if`.
#[cycle(statement)]
#[derive(Drop)]
pub enum NodeArm {
    /// `elseif (a) ..`
    ElseIf(Box<Node>, Vec<NodeStmt>),
    /// `else ..`, the last arm: arms after it are no part of the program.
    Else(Vec<NodeStmt>),
}

/// Holds a handler of a `try`.
#[cycle(statement)]
#[derive(Drop)]
pub enum NodeHandler {
    /// `except (codes) ..`
    Except(NodeCodes, Vec<NodeStmt>),
    /// `except x (codes) ..`, which assigns the error to the variable.
    ExceptAs(Name, NodeCodes, Vec<NodeStmt>),
}
