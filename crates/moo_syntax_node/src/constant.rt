//! Lists of literals, which are made once.
ghost use Rattle.std.specs.Prelude.{◌≡◌, ◌+◌, IfOk, IfSome};
ghost use Rattle.moo_value.specs.Tree.{elements_of};
ghost use Rattle.moo_value.specs.View.{tree};
ghost use Rattle.moo_syntax_ast.specs.Tree as source_tree;
ghost use Rattle.moo_syntax_ast.specs.Tree.{Items};
ghost use Rattle.moo_syntax_node.specs.Source.{source, source_items, with_source};
ghost use Rattle.moo_syntax_node.specs.Spelling.{spelled, spelled_items, nodes_of, nodes_in};

use crate::node::{Node, NodeItem};
use moo_value::{ListLimit, MooList, Value};
use std::alloc::{AllocError, Global};
use std::marker::Model;

/// Holds the value of a list of literals and of such lists.
#[derive(Drop)]
pub struct Constant {
    list: MooList,
    nodes: usize,
}

impl Model for Constant {
    ghost use Rattle.std.specs.Prelude.{◌≡◌, List};
    ghost use Rattle.moo_value.specs.Tree.{Tree, list_of};
    ghost use Rattle.moo_value.specs.TreeCode.{tree_list_code};
    ghost use Rattle.moo_syntax_node.specs.Spelling.{nodes_of};

    ghost Value = { List Tree };

    ghost coded = { tree_list_code };

    ghost view = { λ c. c.list };

    ghost invariant = { λ c. c.nodes ≡ nodes_of (list_of c.list) };
}

impl Constant {
    ghost use Rattle.moo_value.specs.Tree.{list_of};

    /// Returns the list.
    pub fn list(&self) -> &MooList
        ensures { result.now ≡ self.now }
    {
        &self.list
    }

    /// Returns how many expressions the list is written with, itself and its elements.
    pub fn nodes(&self) -> usize
        ensures { result ≡ nodes_of (list_of self.now) }
    {
        self.nodes
    }
}

/// Returns the list of these items, if each is a literal or a list of literals. `None` too if the list is past the limits
/// of lists. Err is out of memory.
pub fn constant_list(alloc: Global, items: &[NodeItem]) -> Result<Option<Constant>, AllocError>
    ensures { IfOk result (λ found. IfSome found (λ list. source_items items.now ≡ spelled_items (elements_of list))) }
{
    let mut values = Vec::with_capacity(alloc, items.len())?;
    let mut nodes: usize = 1;
    for item in items {
        let Some((value, count)) = literal_item(item)? else {
            return Ok(None);
        };
        let Some(sum) = nodes.checked_add(count) else {
            return Ok(None);
        };
        values.push(value)?;
        nodes = sum;
    }
    match MooList::try_from_vec(alloc, values) {
        Ok(list) => Ok(Some(Constant { list, nodes })),
        Err(ListLimit::TooLarge) => Ok(None),
        Err(ListLimit::Memory) => Err(AllocError),
    }
}

// Returns the value of an item, and how many expressions it is written with, if it is a literal or a list of literals.
fn literal_item(item: &NodeItem) -> Result<Option<(Value, usize)>, AllocError>
    ensures spelled { IfOk result (λ found. IfSome found (λ p. (rest : Items) → with_source item.now rest ≡ source_tree.element (spelled (tree p.0)) rest)) }
    ensures nodes { IfOk result (λ found. IfSome found (λ p. p.1 ≡ nodes_of (tree p.0))) }
{
    match item {
        NodeItem::Element(node) => literal_value(node),
        _ => Ok(None),
    }
}

fn literal_value(node: &Node) -> Result<Option<(Value, usize)>, AllocError>
    ensures spelled { IfOk result (λ found. IfSome found (λ p. source node.now ≡ spelled (tree p.0))) }
    ensures nodes { IfOk result (λ found. IfSome found (λ p. p.1 ≡ nodes_of (tree p.0))) }
{
    match node {
        Node::Integer(number) => Ok(Some((Value::Int(*number), 1))),
        Node::Object(number) => Ok(Some((Value::Obj(*number), 1))),
        Node::Error(error) => Ok(Some((Value::Err(*error), 1))),
        Node::Str(text) => Ok(Some((Value::Str(text.string().try_clone()?), 1))),
        Node::Constant(constant) => {
            let list = constant.list().try_clone()?;
            Ok(Some((Value::List(list), constant.nodes())))
        }
        _ => Ok(None),
    }
}
