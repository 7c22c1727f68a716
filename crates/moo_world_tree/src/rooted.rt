//! The check that the path up from each node ends.

ghost use Rattle.std.specs.Prelude.{◌≡◌, ℕ, ◌+◌, ◌<◌, ◌≤◌, ◌^◌, length, Some, None, MatchOption, MatchBool, IfOk};
ghost use Rattle.moo_world_tree.specs.Forest.{Links, above_of};
ghost use Rattle.moo_world_tree.specs.Rooted.{IsRooted, IsLeastEndless, MarksEnd};

use crate::node::Node;
use std::alloc::{AllocError, Global};

/// Returns the least node from which the path up does not end, or `None` if each path ends.
pub fn first_endless(alloc: Global, nodes: &[Node]) -> Result<Option<usize>, AllocError>
    requires { length nodes.now < 2 ^ 63 }
    ensures { IfOk result (λ r. MatchOption r ((x : ℕ) → x < length nodes.now → IsRooted nodes.now x) (IsLeastEndless nodes.now)) }
{
    let mut marks = vec![in alloc; 0usize; nodes.len()]?;
    Ok(first_in(nodes, &mut marks))
}

fn first_in(nodes: &[Node], marks: &mut [usize]) -> Option<usize>
    requires len { length marks.old ≡ length nodes.now }
    requires small { length nodes.now < 2 ^ 63 }
    requires clear { MarksEnd nodes.now marks.old 0 }
    ensures { MatchOption result ((x : ℕ) → x < length nodes.now → IsRooted nodes.now x) (IsLeastEndless nodes.now) }
{
    for from in 0..nodes.len() {
        if !is_rooted(nodes, marks, from) {
            return Some(from);
        }
    }
    None
}

// Is true if the path up from a node ends. Marks the nodes that it passes with `from + 1`.
fn is_rooted(nodes: &[Node], marks: &mut [usize], from: usize) -> bool
    requires len { length marks.old ≡ length nodes.now }
    requires small { length nodes.now < 2 ^ 63 }
    requires node { from < length nodes.now }
    requires marked { MarksEnd nodes.now marks.old from }
    ensures ends { MatchBool result (IsRooted nodes.now from × MarksEnd nodes.now marks.new (from + 1)) (¬ (IsRooted nodes.now from)) }
{
    let mut at = Some(from);
    while let Some(x) = node_of(nodes, at) {
        if marks[x] == from + 1 {
            return false;
        }
        if marks[x] != 0 {
            return true;
        }
        marks[x] = from + 1;
        at = nodes[x].above();
    }
    true
}

// Returns the number if it is that of a node.
fn node_of(nodes: &[Node], at: Option<usize>) -> Option<usize>
    ensures { MatchOption result ((x : ℕ) → at ≡ Some x → length nodes.now ≤ x) (λ x. (at ≡ Some x) × (x < length nodes.now)) }
{
    let x = at?;
    if x < nodes.len() { Some(x) } else { None }
}
