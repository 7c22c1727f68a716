//! Where an object may be joined to a tree.

ghost use Rattle.std.specs.Prelude.{◌≡◌, ◌<◌, length, Option};
ghost use Rattle.std.specs.Option.{ForSome};
ghost use Rattle.moo_world_table.specs.Changes.{would_loop};

use moo_world_tree::Forest;

/// Returns whether `x` is the new place or an ancestor of it.
pub fn would_loop(tree: &Forest, x: usize, to: Option<usize>) -> bool
    requires { ForSome to (λ up. up < length tree.now) }
    ensures { result ≡ would_loop tree.now x to }
{
    match to {
        Some(up) => tree.is_within(up, x),
        None => false,
    }
}
