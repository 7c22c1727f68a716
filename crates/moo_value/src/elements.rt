//! The elements of lists, which are copied only if another list shares them.
ghost use Rattle.std.specs.Prelude.{◌≡◌, ◌<◌, ◌++◌, ◌∷◌, [], ◌≤◌, length, vec_len, drop, take, insert, remove, slice_set, ℕ, IsTrue, IsFalse, IfOk, OnOk};
ghost use Rattle.moo_value.specs.Inner.{IsMeasuredList};
ghost use Rattle.moo_value.specs.Held.{IsAlike};
ghost use Rattle.moo_value.specs.Splice.{spliced};
ghost use Rattle.moo_value.specs.View.{trees};
ghost use Rattle.moo_value.specs.declared.value.Value.TheVariants.{Int};

use crate::measure::Measure;
use crate::string::total_length;
use crate::value::Value;
use std::alloc::{AllocError, Global};
use std::rc::Rc;

// Appends a value to the elements, which then have this measure. Copies them only if another list shares them.
pub(crate) fn with_last(
    alloc: Global,
    block: Rc<(Vec<Value>, Measure)>,
    value: Value,
    measure: Measure,
) -> Result<Rc<(Vec<Value>, Measure)>, AllocError>
    ensures elements { IfOk result (λ all. all.value.0.items ≡ block.value.0.items ++ value ∷ []) }
    ensures measure { IfOk result (λ all. all.value.1 ≡ measure) }
{
    let mut block = block;
    if let Some(own) = Rc::get_mut(&mut block) {
        own.0.push(value)?;
        own.1 = measure;
        return Ok(block);
    }
    let mut copies = copied(alloc, &block.0)?;
    copies.push(value)?;
    Ok(Rc::new(alloc, (copies, measure))?)
}

// Puts a value before the element at `index`, or after the last one, so that the elements have this measure. Copies them
// only if another list shares them.
pub(crate) fn with_inserted(
    alloc: Global,
    block: Rc<(Vec<Value>, Measure)>,
    index: usize,
    value: Value,
    measure: Measure,
) -> Result<Rc<(Vec<Value>, Measure)>, AllocError>
    requires { index ≤ vec_len block.value.0 }
    ensures elements { IfOk result (λ all. all.value.0.items ≡ insert block.value.0.items index value) }
    ensures measure { IfOk result (λ all. all.value.1 ≡ measure) }
{
    let mut block = block;
    if let Some(own) = Rc::get_mut(&mut block) {
        own.0.insert(index, value)?;
        own.1 = measure;
        return Ok(block);
    }
    let mut copies = Vec::with_capacity(alloc, block.0.len().saturating_add(1))?;
    push_copies(&mut copies, &block.0[..index])?;
    copies.push(value)?;
    push_copies(&mut copies, &block.0[index..])?;
    Ok(Rc::new(alloc, (copies, measure))?)
}

// Removes the element at `index`, so that the elements have this measure. Copies the others only if another list shares
// them.
pub(crate) fn without(
    alloc: Global,
    block: Rc<(Vec<Value>, Measure)>,
    index: usize,
    measure: Measure,
) -> Result<Rc<(Vec<Value>, Measure)>, AllocError>
    requires { index < vec_len block.value.0 }
    ensures elements { IfOk result (λ all. all.value.0.items ≡ remove block.value.0.items index) }
    ensures measure { IfOk result (λ all. all.value.1 ≡ measure) }
{
    let mut block = block;
    if let Some(own) = Rc::get_mut(&mut block) {
        own.0.remove(index);
        own.1 = measure;
        return Ok(block);
    }
    let copies = copied_in_a_row(alloc, &block.0[..index], &[], &block.0[index + 1..])?;
    Ok(Rc::new(alloc, (copies, measure))?)
}

// Keeps the elements from `low` up to but not including `high`. A drain takes many steps, so there is none if no element
// or only the first one is removed.
pub(crate) fn narrow(elements: &mut Vec<Value>, low: usize, high: usize)
    requires order { low ≤ high }
    requires within { high ≤ vec_len elements.old }
    ensures { elements.new.items ≡ drop low (take high elements.old.items) }
{
    elements.truncate(high);
    match low {
        0 => {}
        1 => {
            elements.remove(0);
        }
        _ => drop(elements.drain(..low)),
    }
}

// Replaces the element at `index` by a value, so that the elements have this measure. Copies them only if another list
// shares them.
pub(crate) fn with_put(
    alloc: Global,
    block: Rc<(Vec<Value>, Measure)>,
    index: usize,
    value: Value,
    measure: Measure,
) -> Result<Rc<(Vec<Value>, Measure)>, AllocError>
    requires { index < vec_len block.value.0 }
    ensures elements { IfOk result (λ all. all.value.0.items ≡ slice_set block.value.0.items index value) }
    ensures measure { IfOk result (λ all. all.value.1 ≡ measure) }
{
    let mut block = block;
    if let Some(own) = Rc::get_mut(&mut block) {
        put(&mut own.0, index, value);
        own.1 = measure;
        return Ok(block);
    }
    let mut copies = copied(alloc, &block.0)?;
    put(&mut copies, index, value);
    Ok(Rc::new(alloc, (copies, measure))?)
}

// Replaces the element at `index` by an integer if it is an integer. Returns whether it was.
#[tactic(auto, using(crate::proofs::Replaced::measured_alike, crate::proofs::Replaced::put_back))]
#[inline]
pub(crate) fn puts_integer(elements: &mut Vec<Value>, index: usize, number: i32) -> bool
    ensures put { IsTrue result → (index < length elements.old.items) × (elements.new.items ≡ slice_set elements.old.items index (Int number)) }
    ensures alike { (w d : ℕ) → IsMeasuredList w d (trees elements.old.items) → IsMeasuredList w d (trees elements.new.items) }
    ensures kept { IsFalse result → elements.new.items ≡ elements.old.items }
{
    if index >= elements.len() {
        return false;
    }
    replaces_integer(&mut elements[index], number)
}

// Replaces a value by an integer if it is an integer. Returns whether it was.
#[inline]
fn replaces_integer(place: &mut Value, number: i32) -> bool
    ensures put { IsTrue result → place.new ≡ Int number }
    ensures alike { IsAlike place.old place.new }
    ensures kept { IsFalse result → place.new ≡ place.old }
{
    match place {
        Value::Int(held) => {
            *held = number;
            true
        }
        _ => false,
    }
}

// Replaces the elements from `low` up to but not including `high` by copies of these, so that the elements have this
// measure. Copies the others if another list shares them, or if all would fill less than a quarter of the memory.
pub(crate) fn with_spliced(
    alloc: Global,
    block: Rc<(Vec<Value>, Measure)>,
    low: usize,
    high: usize,
    middle: &[Value],
    measure: Measure,
) -> Result<Rc<(Vec<Value>, Measure)>, AllocError>
    requires order { low ≤ high }
    requires within { high ≤ vec_len block.value.0 }
    ensures elements { IfOk result (λ all. all.value.0.items ≡ spliced block.value.0.items low high middle.now) }
    ensures measure { IfOk result (λ all. all.value.1 ≡ measure) }
{
    let mut block = block;
    let left = (block.0.len() - high)
        .saturating_add(low)
        .saturating_add(middle.len());
    if let Some(own) = Rc::get_mut(&mut block) {
        if fills_quarter(&own.0, left) {
            splice(&mut own.0, low, high, middle)?;
            own.1 = measure;
            return Ok(block);
        }
    }
    let copies = copied_in_a_row(alloc, &block.0[..low], middle, &block.0[high..])?;
    Ok(Rc::new(alloc, (copies, measure))?)
}

// Is true if so many elements fill at least a quarter of the memory of these. Fewer would keep too much of it.
pub(crate) fn fills_quarter(elements: &Vec<Value>, many: usize) -> bool {
    many >= elements.capacity() / 4
}

// Replaces the elements from `low` up to but not including `high` by copies of these. Err is out of memory.
fn splice(
    elements: &mut Vec<Value>,
    low: usize,
    high: usize,
    middle: &[Value],
) -> Result<(), AllocError>
    requires order { low ≤ high }
    requires within { high ≤ vec_len elements.old }
    ensures { OnOk result (elements.new.items ≡ spliced elements.old.items low high middle.now) }
{
    let mut after = elements.split_off(high)?;
    elements.truncate(low);
    push_copies(elements, middle)?;
    elements.append(&mut after)?;
    Ok(())
}

fn put(elements: &mut Vec<Value>, index: usize, value: Value)
    requires { index < vec_len elements.old }
    ensures { elements.new.items ≡ slice_set elements.old.items index value }
{
    elements[index] = value;
}

pub(crate) fn copied(alloc: Global, elements: &[Value]) -> Result<Vec<Value>, AllocError>
    ensures { IfOk result (λ v. v.items ≡ elements.now) }
{
    let mut copies = Vec::with_capacity(alloc, elements.len())?;
    push_copies(&mut copies, elements)?;
    Ok(copies)
}

pub(crate) fn copied_in_a_row(
    alloc: Global,
    front: &[Value],
    middle: &[Value],
    back: &[Value],
) -> Result<Vec<Value>, AllocError>
    ensures { IfOk result (λ v. v.items ≡ front.now ++ middle.now ++ back.now) }
{
    let mut copies = Vec::with_capacity(alloc, total_length(front, middle, back))?;
    push_copies(&mut copies, front)?;
    push_copies(&mut copies, middle)?;
    push_copies(&mut copies, back)?;
    Ok(copies)
}

fn push_copies(copies: &mut Vec<Value>, elements: &[Value]) -> Result<(), AllocError>
    ensures { OnOk result (copies.new.items ≡ copies.old.items ++ elements.now) }
{
    copies.reserve(elements.len())?;
    for element in elements {
        copies.push_reserved(element.try_clone()?);
    }
    Ok(())
}
