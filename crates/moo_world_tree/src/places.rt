//! The slots of nodes in lists, as nodes are added and removed.

ghost use Rattle.std.specs.Prelude.{◌≡◌, ◌<◌, ◌≤◌, OnOk, OnErr, vec_len, count_by, nat_eq};
ghost use Rattle.std.specs.Option.{ForSome};
ghost use Rattle.moo_world_tree.specs.Forest.{below_of};
ghost use Rattle.moo_world_tree.specs.Steps.{with_newest, with_taken_out, with_all_newest};

use crate::node::Node;
use std::alloc::AllocError;

/// Appends a node to the list of another. Out of memory nothing changes.
pub fn put_below(nodes: &mut Vec<Node>, x: usize, to: Option<usize>) -> Result<(), AllocError>
    requires { ForSome to (λ up. up < vec_len nodes.old) }
    ensures ok { OnOk result (nodes.new.items ≡ with_newest nodes.old.items x to) }
    ensures err { OnErr result (nodes.new.items ≡ nodes.old.items) }
{
    if let Some(up) = to {
        let place = nodes[up].places();
        nodes[up].add_below(x)?;
        note(nodes, x, place);
    }
    Ok(())
}

/// Appends nodes to the list of another. Out of memory nothing changes.
pub fn put_all_below(
    nodes: &mut Vec<Node>,
    xs: &[usize],
    to: Option<usize>,
) -> Result<(), AllocError>
    requires { ForSome to (λ up. up < vec_len nodes.old) }
    ensures ok { OnOk result (nodes.new.items ≡ with_all_newest nodes.old.items xs.now to) }
    ensures err { OnErr result (nodes.new.items ≡ nodes.old.items) }
{
    if let Some(up) = to {
        let place = nodes[up].places();
        nodes[up].add_all_below(xs)?;
        note_list(nodes, up, place);
    }
    Ok(())
}

/// Removes a node from the list of another, in which its slot is `place`. Packs a list of which more than half is
/// empty, so that the cost is shared by the removals.
pub fn take_out(nodes: &mut Vec<Node>, x: usize, from: Option<usize>, place: usize)
    requires node { ForSome from (λ up. up < vec_len nodes.old) }
    requires once { ForSome from (λ up. count_by (nat_eq x) (below_of nodes.old.items up) ≤ 1) }
    ensures { nodes.new.items ≡ with_taken_out nodes.old.items x from }
{
    if let Some(up) = from {
        nodes[up].remove_below(x, place);
        if nodes[up].is_sparse() {
            nodes[up].pack();
            note_list(nodes, up, 0);
        }
    }
}

/// Stores in each node its slot in the list that holds it.
pub fn note_all(nodes: &mut Vec<Node>)
    ensures { nodes.new.items ≡ nodes.old.items }
{
    for up in 0..nodes.len() {
        note_list(nodes, up, 0);
    }
}

// Stores in the nodes of a list their slots, from the slot `first` on.
fn note_list(nodes: &mut Vec<Node>, up: usize, first: usize)
    requires { up < vec_len nodes.old }
    ensures { nodes.new.items ≡ nodes.old.items }
{
    for place in first..nodes[up].places() {
        if let Some(x) = nodes[up].at(place) {
            note(nodes, x, place);
        }
    }
}

fn note(nodes: &mut Vec<Node>, x: usize, place: usize)
    ensures { nodes.new.items ≡ nodes.old.items }
{
    if x < nodes.len() {
        nodes[x].set_place(place);
    }
}
