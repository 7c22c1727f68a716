//! The nodes of a tree that links describe, and the first object whose links are unsound.

ghost use Rattle.std.specs.Prelude.{◌≡◌, ◌<◌, ◌^◌, ℕ, length, false, IfOk, slice_index_or};
ghost use Rattle.moo_dbtext_restore.specs.First.{IsFirst};
ghost use Rattle.moo_dbtext_restore.specs.Links.{IsPlace, IsSound, IsTreeOf, link_of};
ghost use Rattle.moo_dbtext_restore.specs.Lists.{AreNodesOf};

use crate::first::least_of;
use crate::link::{Link, above_in, is_place, link_of};
use crate::lists::list_below;
use moo_world_tree::{Forest, Node, first_endless, first_unlisted};
use std::alloc::{AllocError, Global};

/// Returns a node for each number, joined as the links describe.
pub(crate) fn nodes_of(alloc: Global, links: &[Option<Link>]) -> Result<Vec<Node>, AllocError>
    ensures { IfOk result (λ nodes. AreNodesOf links.now nodes.items) }
{
    let mut taken = vec![in alloc; false; links.len()]?;
    nodes_along(alloc, links, &mut taken)
}

fn nodes_along(
    alloc: Global,
    links: &[Option<Link>],
    taken: &mut [bool],
) -> Result<Vec<Node>, AllocError>
    requires len { length taken.old ≡ length links.now }
    requires clear { (y : ℕ) → slice_index_or taken.old y false ≡ false }
    ensures { IfOk result (λ nodes. AreNodesOf links.now nodes.items) }
{
    let mut nodes = Vec::with_capacity(alloc, links.len())?;
    for x in 0..links.len() {
        let below = list_below(alloc, links, taken, x)?;
        let node = Node::new(alloc, above_in(links, x), &below)?;
        nodes.push(node)?;
    }
    Ok(nodes)
}

/// Returns the first object that is right below a number which is no object's.
pub(crate) fn first_misplaced(links: &[Option<Link>]) -> Option<usize>
    ensures { IsFirst (λ x. IsPlace links.now (link_of links.now x).above) (length links.now) result }
{
    for x in 0..links.len() {
        if !is_place(links, link_of(links, x).above) {
            return Some(x);
        }
    }
    None
}

/// Returns the first object whose links are unsound. Such an object is right below a number that is no object's, has
/// no end of ancestors, or has a list that differs from the objects right below it.
pub(crate) fn first_unsound(
    alloc: Global,
    links: &[Option<Link>],
    nodes: &[Node],
) -> Result<Option<usize>, AllocError>
    requires small { length links.now < 2 ^ 63 }
    requires nodes { AreNodesOf links.now nodes.now }
    ensures { IfOk result (λ r. IsFirst (IsSound links.now) (length links.now) r) }
{
    let misplaced = first_misplaced(links);
    let endless = first_endless(alloc, nodes)?;
    let unlisted = first_unlisted(alloc, nodes)?;
    Ok(least_of(misplaced, least_of(endless, unlisted)))
}

/// Returns the forest that sound links describe.
pub(crate) fn forest_of(links: &[Option<Link>], nodes: Vec<Node>) -> Forest
    requires nodes { AreNodesOf links.now nodes.items }
    requires sound { (x : ℕ) → x < length links.now → IsSound links.now x }
    ensures { IsTreeOf links.now result }
{
    Forest::from_nodes(nodes)
}
