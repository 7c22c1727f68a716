//! Rows of cells along a walk down from an object whose parent or definitions change.

ghost use Rattle.std.specs.Prelude.{◌≡◌, ◌<◌, ◌+◌, IfOk, length, IsSome, vec_len, nat_lt, ℕ};
ghost use Rattle.std.specs.Option.{ForSome, unwrap_or};
ghost use Rattle.std.specs.List.{list_any};
ghost use Rattle.moo_world_tree.specs.Walk.{step_at, met};
ghost use Rattle.moo_world_object.specs.Cells.{AreDistinct};
ghost use Rattle.moo_world_table.specs.World.{nothing, most, thing_of, fitted_over, object_of, with_cells, cells_of};
ghost use Rattle.moo_world_table.specs.Steps.{AreFitted, with_rows, is_crowded_by};

use crate::MOST;
use crate::properties::{cells_in, cells_of};
use moo_world_object::{Object, PropCell, Row};
use moo_world_tree::Step;
use std::alloc::{AllocError, Global};

/// Returns the rows of the objects on a walk, once the first has the parent `p`.
pub fn rows_below(
    objects: &[Option<Object>],
    alloc: Global,
    walk: &[Step],
    p: Option<usize>,
) -> Result<Vec<Row>, AllocError>
    requires begins { 0 < length walk.now }
    requires place { ForSome p (λ up. up < length objects.now) }
    requires valid { (k : ℕ) → k < length walk.now → IsSome (object_of objects.now (step_at walk.now k).node) }
    requires distinct { (k : ℕ) → k < length walk.now → AreDistinct (thing_of objects.now (step_at walk.now k).node).cells }
    requires follows { (k : ℕ) → 0 < k → k < length walk.now → (step_at walk.now k).from < k }
    ensures { let x = (step_at walk.now 0).node in
        IfOk result (λ rows. AreFitted objects.now walk.now (fitted_over x (object_of objects.now x) (cells_of objects.now p)) (length walk.now) rows.items) }
{
    let mut rows = Vec::new(alloc);
    let first = walk[0].node;
    rows.push(row_over(&objects[first], alloc, first, cells_of(objects, p))?)?;
    for i in 1..walk.len() {
        let step = walk[i];
        let row = row_over(
            &objects[step.node],
            alloc,
            step.node,
            rows[step.from].as_slice(),
        )?;
        rows.push(row)?;
    }
    Ok(rows)
}

// Returns the cells of a valid object under a parent with these cells.
fn row_over(
    slot: &Option<Object>,
    alloc: Global,
    x: usize,
    above: &[PropCell],
) -> Result<Row, AllocError>
    requires valid { IsSome slot.now }
    requires distinct { AreDistinct (unwrap_or slot.now nothing).cells }
    ensures { IfOk result (λ row. row ≡ fitted_over x slot.now above.now) }
{
    match slot {
        Some(object) => object.fitted_row(alloc, x, above),
        None => Ok(Row::new(alloc)),
    }
}

/// Gives each object on a walk its new row.
pub fn put_rows(objects: &mut Vec<Option<Object>>, walk: &[Step], mut rows: Vec<Row>)
    requires many { vec_len rows ≡ length walk.now }
    requires within { (k : ℕ) → k < length walk.now → (step_at walk.now k).node < vec_len objects.old }
    ensures { objects.new.items ≡ with_rows objects.old.items (met walk.now) rows.items }
{
    while let Some(row) = rows.pop() {
        let step = walk[rows.len()];
        put_row(&mut objects[step.node], row);
    }
}

fn put_row(slot: &mut Option<Object>, row: Row)
    ensures { slot.new ≡ with_cells slot.old row }
{
    if let Some(object) = slot {
        object.set_cells(row);
    }
}

/// Returns whether some object on a walk would have too many properties if each of them gained and lost these cells.
pub fn some_crowded(
    objects: &[Option<Object>],
    walk: &[Step],
    gained: &[PropCell],
    lost: &[PropCell],
) -> bool
    requires { (k : ℕ) → k < length walk.now → (step_at walk.now k).node < length objects.now }
    ensures { result ≡ list_any (is_crowded_by objects.now (length gained.now) (length lost.now)) (met walk.now) }
{
    for step in walk {
        if crowded_in(&objects[step.node], gained, lost) {
            return true;
        }
    }
    false
}

fn crowded_in(slot: &Option<Object>, gained: &[PropCell], lost: &[PropCell]) -> bool
    ensures { result ≡ nat_lt (most + length lost.now) (length (unwrap_or slot.now nothing).cells + length gained.now) }
{
    cells_in(slot).len() + gained.len() > MOST + lost.len()
}
