//! The next number after each one in the lists of a tree.

ghost use Rattle.std.specs.Prelude.{◌≡◌, ◌<◌, ℕ, length, IfOk, None, slice_index_or};
ghost use Rattle.std.specs.List.{All};
ghost use Rattle.moo_dbtext.specs.Nexts.{next_or, AreNexts};

use moo_world_tree::{Below, Forest};
use std::alloc::{AllocError, Global};

/// Returns for each number of a tree the next one among the children of its parent.
pub(crate) fn nexts(alloc: Global, tree: &Forest) -> Result<Vec<Option<usize>>, AllocError>
    ensures { IfOk result (λ next. AreNexts tree.now next.items) }
{
    let mut next = vec![in alloc; None; tree.len()]?;
    put_nexts(tree, &mut next);
    Ok(next)
}

fn put_nexts(tree: &Forest, next: &mut [Option<usize>])
    requires len { length next.old ≡ length tree.now }
    requires clear { (y : ℕ) → slice_index_or next.old y None ≡ None }
    ensures { AreNexts tree.now next.new }
{
    tree.is_forest();
    for x in 0..tree.len() {
        put_next(tree.below(x), next);
    }
}

// Stores for each number of a list the next one.
fn put_next(list: Below<'_>, next: &mut [Option<usize>])
    requires { All (λ y. y < length next.old) list }
    ensures { (y : ℕ) → slice_index_or next.new y None ≡ next_or list.entry (slice_index_or next.old y None) y }
{
    let mut left = list;
    let mut following = None;
    while let Some(x) = left.take_last() {
        next[x] = following;
        following = Some(x);
    }
}
