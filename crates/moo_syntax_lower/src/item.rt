//! Lowers the items of lists and of calls, and the errors of catches.
ghost use Rattle.std.specs.Prelude.{◌≡◌, IfOk, IfSome};
ghost use Rattle.moo_syntax_ast.specs.declared.tree.Literal.TheVariants.{Error};
ghost use Rattle.moo_syntax_ast.specs.Tree as source_tree;
ghost use Rattle.moo_syntax_ast.specs.Tree.{Items};
ghost use Rattle.moo_syntax_ast.specs.View.{tree, items_of, codes_of, with_item};
ghost use Rattle.moo_syntax_node.specs.Source.{source_codes, source_items, with_source, error_items};

use crate::expression::{copied_name, lower_boxed};
use moo_syntax_ast::{Codes, Expr, Item, Literal};
use moo_syntax_node::{NodeCodes, NodeItem};
use moo_value::ErrorCode;
use std::alloc::{AllocError, Global};

/// Returns the node of the errors of a catch.
#[cycle(lowering)]
pub(crate) fn lower_codes(alloc: Global, codes: &Codes) -> Result<NodeCodes, AllocError>
    ensures { IfOk result (λ node. source_codes node ≡ codes_of codes.now) }
{
    match codes {
        Codes::Any => Ok(NodeCodes::Any),
        Codes::Listed(items) => match literal_errors(alloc, items)? {
            Some(errors) => Ok(NodeCodes::Known(errors)),
            None => Ok(NodeCodes::Listed(lower_items(alloc, items)?)),
        },
    }
}

// Returns the errors, if each item is a literal one.
fn literal_errors(alloc: Global, items: &[Item]) -> Result<Option<Vec<ErrorCode>>, AllocError>
    ensures { IfOk result (λ found. IfSome found (λ errors. items_of items.now ≡ error_items errors.items)) }
{
    let mut errors = Vec::with_capacity(alloc, items.len())?;
    for item in items {
        let Some(error) = as_literal_error(item) else {
            return Ok(None);
        };
        errors.push(error)?;
    }
    Ok(Some(errors))
}

fn as_literal_error(item: &Item) -> Option<ErrorCode>
    ensures { IfSome result (λ e. (rest : Items) → with_item item.now rest ≡ source_tree.element (source_tree.literal (Error e)) rest) }
{
    let Item::Element(expr) = item else {
        return None;
    };
    as_error(expr)
}

fn as_error(expr: &Expr) -> Option<ErrorCode>
    ensures { IfSome result (λ e. tree expr.now ≡ source_tree.literal (Error e)) }
{
    match expr {
        Expr::Literal(Literal::Error(error)) => Some(*error),
        _ => None,
    }
}

/// Returns the nodes of items, in order.
#[cycle(lowering)]
pub(crate) fn lower_items(alloc: Global, items: &[Item]) -> Result<Vec<NodeItem>, AllocError>
    ensures { IfOk result (λ nodes. source_items nodes.items ≡ items_of items.now) }
{
    let mut nodes = Vec::with_capacity(alloc, items.len())?;
    for item in items {
        let node = lower_item(alloc, item)?;
        nodes.push(node)?;
    }
    Ok(nodes)
}

#[cycle(lowering)]
fn lower_item(alloc: Global, item: &Item) -> Result<NodeItem, AllocError>
    ensures { IfOk result (λ node. (rest : Items) → with_source node rest ≡ with_item item.now rest) }
{
    match item {
        Item::Element(value) => Ok(NodeItem::Element(lower_boxed(alloc, value)?)),
        Item::Splice(value) => Ok(NodeItem::Splice(lower_boxed(alloc, value)?)),
        Item::Optional(name) => {
            let name = copied_name(name)?;
            Ok(NodeItem::Optional(Box::new(alloc, name)?))
        }
        Item::Defaulted(name, value) => {
            let name = copied_name(name)?;
            let name = Box::new(alloc, name)?;
            let value = lower_boxed(alloc, value)?;
            Ok(NodeItem::Defaulted(name, value))
        }
    }
}
