//! The lists of the objects right below an object, followed from `first` along `next`.

ghost use Rattle.std.specs.Prelude.{◌≡◌, ◌+◌, ◌<◌, ℕ, length, Some, false, true, IfOk, MatchBool, MatchOption, IsTrue, ◌↔◌, pos, slice_index_or, ◌≢◌};
ghost use Rattle.moo_dbtext_restore.specs.Links.{above_in, link_of, nowhere};
ghost use Rattle.moo_dbtext_restore.specs.Lists.{IsFollowed, AreTakenBefore};

use crate::link::{Link, above_in, link_of};
use std::alloc::{AllocError, Global};

/// Returns the list of the objects right below `x`. It ends with the first that can't be part of it, if there is one.
pub(crate) fn list_below(
    alloc: Global,
    links: &[Option<Link>],
    taken: &mut [bool],
    x: usize,
) -> Result<Vec<usize>, AllocError>
    requires len { length taken.old ≡ length links.now }
    requires before { AreTakenBefore links.now taken.old x }
    ensures list { IfOk result (λ ys. IsFollowed links.now x ys.items) }
    ensures len { length taken.new ≡ length links.now }
    ensures taken { IfOk result (λ _. AreTakenBefore links.now taken.new (x + 1)) }
{
    let mut list = Vec::new(alloc);
    let mut at = first_of(links, x);
    while let Some(y) = number_of(at) {
        list.push(y)?;
        if !is_fresh(links, taken, x, y) {
            return Ok(list);
        }
        taken[y] = true;
        at = next_of(links, y);
    }
    if !is_end(at) {
        list.push(links.len())?;
    }
    Ok(list)
}

fn first_of(links: &[Option<Link>], x: usize) -> i32
    ensures { result ≡ (link_of links.now x).first }
{
    link_of(links, x).first
}

fn next_of(links: &[Option<Link>], x: usize) -> i32
    ensures { result ≡ (link_of links.now x).next }
{
    link_of(links, x).next
}

fn number_of(z: i32) -> Option<usize>
    ensures { MatchOption result ((y : ℕ) → z ≢ pos y) (λ y. z ≡ pos y) }
{
    usize::try_from(z).ok()
}

fn is_end(z: i32) -> bool
    ensures { IsTrue result ↔ (z ≡ nowhere) }
{
    z == -1
}

// Returns whether `y` is right below `x` and is unmarked.
fn is_fresh(links: &[Option<Link>], taken: &[bool], x: usize, y: usize) -> bool
    requires { length taken.now ≡ length links.now }
    ensures { MatchBool result
        ((y < length links.now) × (above_in links.now y ≡ Some x) × (slice_index_or taken.now y false ≡ false))
        ((above_in links.now y ≡ Some x) → slice_index_or taken.now y false ≡ true) }
{
    y < links.len() && above_in(links, y) == Some(x) && !taken[y]
}
