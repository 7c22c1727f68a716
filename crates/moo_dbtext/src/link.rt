//! The links of objects in a tree.

ghost use Rattle.std.specs.Prelude.{◌≡◌, ◌<◌, ◌≤◌, length};
ghost use Rattle.std.specs.Option.{ForSome};
ghost use Rattle.moo_world_table.specs.World.{most};
ghost use Rattle.moo_dbtext_restore.specs.Links.{place_number};
ghost use Rattle.moo_dbtext_restore.specs.Recorded.{link_in};
ghost use Rattle.moo_dbtext.specs.Nexts.{AreNexts};

use moo_dbtext_restore::Link;
use moo_world_tree::Forest;

/// Returns the links of number `x` in a tree. Takes for each number the next one, as `nexts` returns them.
pub(crate) fn link_in(tree: &Forest, next: &[Option<usize>], x: usize) -> Link
    requires node { x < length tree.now }
    requires few { length tree.now ≤ most }
    requires next { AreNexts tree.now next.now }
    ensures { result ≡ link_in tree.now x }
{
    tree.is_forest();
    Link {
        above: place_number(tree.above(x)),
        first: place_number(tree.below(x).first()),
        next: place_number(next[x]),
    }
}

// Returns the number of an object, or -1.
fn place_number(place: Option<usize>) -> i32
    requires { ForSome place (λ y. y < most) }
    ensures { result ≡ place_number place }
{
    match place {
        Some(y) => y as i32,
        None => -1,
    }
}
