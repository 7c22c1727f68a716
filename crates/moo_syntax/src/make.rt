//! Constructors of nodes, which refuse paths that are too long.
ghost use Rattle.std.specs.Prelude.{◌≡◌, ◌+◌, ◌-◌, ◌≤◌, ◌<◌, max, min, MatchResult};
ghost use Rattle.moo_syntax_ast.specs.Limits.{height as height_of};
ghost use Rattle.moo_syntax_ast.specs.Tree as tree;
ghost use Rattle.moo_syntax_ast.specs.declared.tree.Literal.TheVariants as literal;
ghost use Rattle.moo_syntax_ast.specs.View.{root, tree as tree_of};
ghost use Rattle.moo_syntax.specs.declared.fault.Fault.TheVariants.{Memory, TooDeep};
ghost use Rattle.moo_syntax_grammar.specs.Grammar.{negated, joined};
ghost use Rattle.moo_syntax.specs.Height.{IsMade};
ghost use Rattle.moo_syntax_grammar.specs.Minuses.{negations};

use crate::fault::Fault;
use crate::node::Node;
use moo_syntax_ast::operator::UnaryOperator;
use moo_syntax_ast::{Expr, Literal, Text};
use moo_syntax_grammar::Operator;
use moo_value::MooStr;
use std::alloc::Global;

/// Returns how many nodes a path may have below a node, if it may have `room` from that node on. Refuses a `room` of 0
/// with `TooDeep`.
pub fn below(room: u32) -> Result<u32, Fault>
    ensures { MatchResult result (λ r. r + 1 ≡ room) (λ f. (f ≡ TooDeep) × (room ≡ 0)) }
{
    room.checked_sub(1).ok_or(Fault::TooDeep)
}

/// Returns how many nodes a path may have below a node over a part of this height, if it may have `room` from that node
/// on. Refuses a part that is too high with `TooDeep`.
pub fn beside(height: u32, room: u32) -> Result<u32, Fault>
    ensures { MatchResult result (λ r. (r + 1 ≡ room) × (height < room)) (λ f. (f ≡ TooDeep) × (room ≤ height)) }
{
    if height < room {
        Ok(room - 1)
    } else {
        Err(Fault::TooDeep)
    }
}

/// Returns how many nodes a path may have after these minuses, if it may have `room` from the first minus on. A number
/// absorbs its minuses, so that it fits after any of them.
pub fn after_minuses(minuses: usize, room: u32) -> u32
    ensures { result ≡ max (room - minuses) (min room 1) }
{
    let minuses = u32::try_from(minuses).unwrap_or(room);
    room.saturating_sub(minuses).max(room.min(1))
}

/// Makes a node over others, of which the highest has the height `below`. Refuses more than `room` nodes on a path with
/// `TooDeep`.
pub fn node_over(alloc: Global, tree: Expr, below: u32, room: u32) -> Result<Node, Fault>
    requires { height_of (tree_of tree) ≡ below + 1 }
    ensures { IsMade (tree_of tree) room result }
{
    if below >= room {
        return Err(Fault::TooDeep);
    }
    let tree = Box::new(alloc, tree)?;
    Ok(Node {
        tree,
        height: below + 1,
    })
}

/// Makes a node of a literal.
pub fn constant(alloc: Global, literal: Literal) -> Result<Node, Fault>
    ensures { MatchResult result (λ n. root n.tree ≡ tree.literal literal) (λ f. f ≡ Memory) }
{
    let tree = Box::new(alloc, Expr::Literal(literal))?;
    Ok(Node { tree, height: 1 })
}

/// Makes a string literal of a name.
pub fn name_constant(alloc: Global, name: MooStr) -> Result<Node, Fault>
    ensures { MatchResult result (λ n. root n.tree ≡ tree.literal (literal.Str name)) (λ f. f ≡ Memory) }
{
    constant(alloc, Literal::Str(Text::new(name)))
}

/// Makes a node of the operator and its two operands.
pub fn join(
    alloc: Global,
    operator: Operator,
    left: Node,
    right: Node,
    room: u32,
) -> Result<Node, Fault>
    ensures { IsMade (joined operator (root left.tree) (root right.tree)) room result }
{
    let below = left.height.max(right.height);
    match operator {
        Operator::Binary(operator) => {
            node_over(
                alloc,
                Expr::Binary(operator, left.tree, right.tree),
                below,
                room,
            )
        }
        Operator::Logic(operator) => {
            node_over(
                alloc,
                Expr::Logic(operator, left.tree, right.tree),
                below,
                room,
            )
        }
    }
}

/// Puts a minus before the operand. A minus before an integer literal becomes part of the literal.
fn negate(alloc: Global, operand: Node, room: u32) -> Result<Node, Fault>
    ensures { IsMade (negated (root operand.tree)) room result }
{
    if let Expr::Literal(Literal::Integer(number)) = &*operand.tree {
        return node_over(
            alloc,
            Expr::Literal(Literal::Integer(number.wrapping_neg())),
            0,
            room,
        );
    }
    let below = operand.height;
    node_over(
        alloc,
        Expr::Unary(UnaryOperator::Negate, operand.tree),
        below,
        room,
    )
}

/// Puts this many minuses before the operand.
pub fn negate_times(alloc: Global, minuses: usize, operand: Node, room: u32) -> Result<Node, Fault>
    requires { operand.height ≤ room }
    ensures { IsMade (negations minuses (root operand.tree)) room result }
{
    let mut operand = operand;
    for _ in 0..minuses {
        operand = negate(alloc, operand, room)?;
    }
    Ok(operand)
}
