//! A walk over all the trees that links make, down from each object that has nothing above it.

ghost use Rattle.std.specs.Prelude.{◌≡◌, ◌<◌, ◌++◌, ◌∷◌, ℕ, [], None, length, vec_len, map, false, true, IfOk, OnOk, MatchBool, slice_index_or, slice_set, reverse};
ghost use Rattle.std.specs.Option.{ForSome};
ghost use Rattle.moo_world_tree.specs.Forest.{below_of};
ghost use Rattle.moo_world_tree.specs.Steps.{with_newest};
ghost use Rattle.moo_dbtext_restore.specs.declared.tour.Visit.TheVariants.{Enter, Leave};
ghost use Rattle.moo_dbtext_restore.specs.Links.{above_in};
ghost use Rattle.moo_dbtext_restore.specs.Tours.{IsTour, AreListsBelow, Awaits, times_entered};

use crate::link::{Link, above_in};
use moo_world_tree::{Below, Node};
use std::alloc::{AllocError, Global};

/// A step of a walk: it enters an object, and leaves it after all the objects below.
#[derive(Clone, Copy, Debug, PartialEq, Eq)]
pub(crate) enum Visit {
    Enter(usize),
    Leave(usize),
}

/// Returns a walk that enters and leaves each object whose ancestors end, inside the one right above it.
pub(crate) fn tour_of(alloc: Global, links: &[Option<Link>]) -> Result<Vec<Visit>, AllocError>
    ensures { IfOk result (λ tour. IsTour links.now tour.items) }
{
    let nodes = lists_below(alloc, links)?;
    let mut seen = vec![in alloc; false; links.len()]?;
    let mut todo = visits_to_tops(alloc, links)?;
    let mut tour = Vec::new(alloc);
    while let Some(visit) = todo.pop() {
        if let Visit::Enter(x) = visit {
            if !mark(&mut seen, x) {
                continue;
            }
            add_visits(&mut todo, x, nodes[x].below())?;
        }
        tour.push(visit)?;
    }
    Ok(tour)
}

// Returns for each object the list of those right below it.
fn lists_below(alloc: Global, links: &[Option<Link>]) -> Result<Vec<Node>, AllocError>
    ensures len { IfOk result (λ nodes. length nodes.items ≡ length links.now) }
    ensures lists { IfOk result (λ nodes. AreListsBelow links.now nodes.items) }
{
    let mut nodes = nodes_alone(alloc, links.len())?;
    for y in 0..links.len() {
        put_below(&mut nodes, y, above_in(links, y))?;
    }
    Ok(nodes)
}

fn nodes_alone(alloc: Global, many: usize) -> Result<Vec<Node>, AllocError>
    ensures len { IfOk result (λ nodes. length nodes.items ≡ many) }
    ensures alone { IfOk result (λ nodes. (x : ℕ) → below_of nodes.items x ≡ []) }
{
    let mut nodes = Vec::with_capacity(alloc, many)?;
    for _ in 0..many {
        nodes.push(Node::alone(alloc))?;
    }
    Ok(nodes)
}

fn put_below(nodes: &mut Vec<Node>, y: usize, to: Option<usize>) -> Result<(), AllocError>
    requires { ForSome to (λ up. up < vec_len nodes.old) }
    ensures { OnOk result (nodes.new.items ≡ with_newest nodes.old.items y to) }
{
    if let Some(up) = to {
        nodes[up].add_below(y)?;
    }
    Ok(())
}

// Returns a visit to each object that has nothing above it.
fn visits_to_tops(alloc: Global, links: &[Option<Link>]) -> Result<Vec<Visit>, AllocError>
    ensures lead { IfOk result (λ todo. Awaits links.now [] (reverse todo.items)) }
    ensures whole { IfOk result (λ todo. (y : ℕ) → y < length links.now → above_in links.now y ≡ None → 0 < times_entered y todo.items) }
{
    let mut todo = Vec::new(alloc);
    for y in 0..links.len() {
        if above_in(links, y).is_none() {
            todo.push(Visit::Enter(y))?;
        }
    }
    Ok(todo)
}

// Marks an object that is unmarked, and returns whether it did.
fn mark(seen: &mut Vec<bool>, x: usize) -> bool
    ensures { MatchBool result
        ((x < length seen.old.items) × (slice_index_or seen.old.items x false ≡ false) × (seen.new.items ≡ slice_set seen.old.items x true))
        ((x < length seen.old.items → slice_index_or seen.old.items x false ≡ true) × (seen.new.items ≡ seen.old.items)) }
{
    if x >= seen.len() || seen[x] {
        return false;
    }
    seen[x] = true;
    true
}

// Pushes visits to the objects right below `x`, and then the exit from it. The last one pushed is the next visit.
fn add_visits(todo: &mut Vec<Visit>, x: usize, below: Below<'_>) -> Result<(), AllocError>
    ensures { OnOk result (todo.new.items ≡ (todo.old.items ++ Leave x ∷ []) ++ map Enter below.entry) }
{
    todo.push(Visit::Leave(x))?;
    for y in below {
        todo.push(Visit::Enter(y))?;
    }
    Ok(())
}
