//! The check that the list of each node holds just its children.

ghost use Rattle.std.specs.Prelude.{◌≡◌, ℕ, ◌+◌, ◌<◌, ◌≤◌, ◌≢◌, List, [], length, Option, Some, false, true, MatchOption, MatchBool, IfOk, slice_index_or};
ghost use Rattle.moo_world_tree.specs.Forest.{Links, above_of, below_of};
ghost use Rattle.moo_world_tree.specs.Listed.{IsListed, IsLeastUnlisted, held, AreMarked, AreRead, IsLeast};

use crate::node::Node;
use std::alloc::{AllocError, Global};

/// Returns the least node whose list is wrong. A right list holds each node that this node is right above, once, and no
/// other.
pub fn first_unlisted(alloc: Global, nodes: &[Node]) -> Result<Option<usize>, AllocError>
    ensures { IfOk result (λ r. MatchOption r ((x : ℕ) → x < length nodes.now → IsListed nodes.now x) (IsLeastUnlisted nodes.now)) }
{
    let mut listed = vec![in alloc; false; nodes.len()]?;
    let limit = mark_lists(nodes, &mut listed);
    Ok(least_unlisted(nodes, &listed, limit))
}

// Marks the nodes in the lists, up to the first list that holds another's child, or one twice. Returns the node of that
// list, or the number of nodes.
fn mark_lists(nodes: &[Node], listed: &mut [bool]) -> usize
    requires len { length listed.old ≡ length nodes.now }
    requires clear { (y : ℕ) → slice_index_or listed.old y false ≡ false }
    ensures { AreRead nodes.now listed.new result }
{
    for x in 0..nodes.len() {
        if !mark_list(nodes, listed, x) {
            return x;
        }
    }
    nodes.len()
}

fn mark_list(nodes: &[Node], listed: &mut [bool], x: usize) -> bool
    requires len { length listed.old ≡ length nodes.now }
    requires node { x < length nodes.now }
    requires marked { AreMarked nodes.now listed.old (held nodes.now x []) }
    ensures len { length listed.new ≡ length nodes.now }
    ensures read { MatchBool result (AreMarked nodes.now listed.new (held nodes.now (x + 1) [])) (AreRead nodes.now listed.new x) }
{
    let below = nodes[x].below();
    for y in below {
        if !is_fresh(nodes, listed, x, y) {
            return false;
        }
        listed[y] = true;
    }
    true
}

// Is true if `y` has no mark yet and `x` is right above it.
fn is_fresh(nodes: &[Node], listed: &[bool], x: usize, y: usize) -> bool
    requires { length listed.now ≡ length nodes.now }
    ensures { MatchBool result
        ((y < length nodes.now) × (above_of nodes.now y ≡ Some x) × (slice_index_or listed.now y false ≡ false))
        ((above_of nodes.now y ≡ Some x) → slice_index_or listed.now y false ≡ true) }
{
    y < nodes.len() && nodes[y].above() == Some(x) && !listed[y]
}

fn least_unlisted(nodes: &[Node], listed: &[bool], limit: usize) -> Option<usize>
    requires { AreRead nodes.now listed.now limit }
    ensures { MatchOption result ((x : ℕ) → x < length nodes.now → IsListed nodes.now x) (IsLeastUnlisted nodes.now) }
{
    let least = least_above(nodes, listed, limit);
    if least < nodes.len() {
        Some(least)
    } else {
        None
    }
}

// Returns the least node that is right above a node without a mark, or the limit if none is less.
fn least_above(nodes: &[Node], listed: &[bool], limit: usize) -> usize
    requires { length listed.now ≡ length nodes.now }
    ensures { IsLeast nodes.now listed.now limit result (length nodes.now) }
{
    let mut least = limit;
    for y in 0..nodes.len() {
        least = lower(nodes[y].above(), listed[y], least);
    }
    least
}

fn lower(above: Option<usize>, listed: bool, least: usize) -> usize
    ensures most { result ≤ least }
    ensures above { listed ≡ false → (up : ℕ) → above ≡ Some up → result ≤ up }
    ensures reason { result < least → (listed ≡ false) × (above ≡ Some result) }
{
    match above {
        Some(up) if !listed && up < least => up,
        _ => least,
    }
}
