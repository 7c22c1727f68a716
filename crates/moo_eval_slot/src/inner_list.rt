//! Replaces an integer of a list in the list in a slot.
ghost use Rattle.std.specs.Prelude.{◌≡◌, ◌<◌, ℤ, List, [], Some, None, length, get_or, set, slice_get, slice_set, IsTrue, IsFalse, IfOk, IfSome};
ghost use Rattle.moo_value.specs.Tree.{Tree, integer, list_of};
ghost use Rattle.moo_value.specs.Size.{IsWithinLimits};
ghost use Rattle.moo_value.specs.View.{tree};
ghost use Rattle.moo_value.specs.declared.value.Value.TheVariants.{List as ListOf};
ghost use Rattle.moo_eval_slot.specs.InnerPut.{IsInnerPut};

use moo_value::{ListLimit, MooList, Value};
use std::alloc::{AllocError, Global};
use std::mem;

/// Replaces the integer at `inner` of the list at `outer` of the list in a slot, and returns whether it did. It doesn't
/// if there is no such integer, or if something else shares one of the lists; then no value has changed. Err is out of
/// memory; the slot may then hold an empty list.
#[inline(always)]
pub(crate) fn put_inner_at(
    alloc: Global,
    values: &mut Vec<Option<Value>>,
    slot: usize,
    outer: usize,
    inner: usize,
    number: i32,
) -> Result<bool, AllocError>
    requires { slot < length values.old.items }
    ensures put { IfOk result (λ done. IsTrue done → (ts : List Tree) × (new : List Tree) × (get_or values.old.items slot None ≡ Some (ListOf ts)) × IsInnerPut ts outer inner number new × (values.new.items ≡ set values.old.items slot (Some (ListOf new)))) }
    ensures kept { IfOk result (λ done. IsFalse done → values.new.items ≡ values.old.items) }
    ensures as_many { length values.new.items ≡ length values.old.items }
{
    try_put_inner(alloc, &mut values[slot], outer, inner, number)
}

// Replaces the integer at `inner` of the list at `outer` of the list at a place, and returns whether it did. It doesn't
// if there is no such integer, or if something else shares one of the lists; then no value has changed. Err is out of
// memory; the place may then hold an empty list.
fn try_put_inner(
    alloc: Global,
    place: &mut Option<Value>,
    outer: usize,
    inner: usize,
    number: i32,
) -> Result<bool, AllocError>
    ensures put { IfOk result (λ done. IsTrue done → (ts : List Tree) × (new : List Tree) × (place.old ≡ Some (ListOf ts)) × IsInnerPut ts outer inner number new × (place.new ≡ Some (ListOf new))) }
    ensures kept { IfOk result (λ done. IsFalse done → place.new ≡ place.old) }
{
    match place {
        Some(Value::List(list)) => put_into_element(alloc, list, outer, inner, number),
        _ => Ok(false),
    }
}

// Replaces the integer at `inner` of the list at `outer` of a list, and returns whether it did, as `put_inner_at` does.
// An empty list takes the place of the inner list meanwhile, so that the outer list doesn't share it. On Err the outer
// list may be empty.
fn put_into_element(
    alloc: Global,
    list: &mut MooList,
    outer: usize,
    inner: usize,
    number: i32,
) -> Result<bool, AllocError>
    ensures put { IfOk result (λ done. IsTrue done → IsInnerPut list.old outer inner number list.new) }
    ensures kept { IfOk result (λ done. IsFalse done → list.new ≡ list.old) }
{
    let Some(element) = list_with_integer(list, outer, inner) else {
        return Ok(false);
    };
    let mut own = element.try_clone()?;
    let empty = empty_list(alloc)?;
    let whole = mem::replace(list, empty.try_clone()?);
    let whole = replaced(alloc, whole, outer, empty)?;
    let is_put = own.put_integer(inner, number);
    *list = replaced(alloc, whole, outer, own)?;
    Ok(is_put)
}

// Returns the list at `outer` of a list, if it has an integer at `inner`.
#[inline(always)]
fn list_with_integer(list: &MooList, outer: usize, inner: usize) -> Option<&MooList>
    ensures within { IfSome result (λ own. outer < length list.now) }
    ensures there { IfSome result (λ own. slice_get list.now outer ≡ Some (list_of own.now)) }
    ensures limits { IfSome result (λ own. IsWithinLimits (list_of list.now)) }
    ensures inner_within { IfSome result (λ own. inner < length own.now) }
    ensures integer { IfSome result (λ own. (i : ℤ) × (slice_get own.now inner ≡ Some (integer i))) }
{
    let element = list_at(list, outer)?;
    if is_integer_at(element, inner) {
        Some(element)
    } else {
        None
    }
}

// Returns the list at `index` of a list, if one is there.
#[inline(always)]
fn list_at(list: &MooList, index: usize) -> Option<&MooList>
    ensures within { IfSome result (λ own. index < length list.now) }
    ensures there { IfSome result (λ own. slice_get list.now index ≡ Some (list_of own.now)) }
    ensures limits { IfSome result (λ own. IsWithinLimits (list_of list.now)) }
{
    let elements = list.elements();
    if index >= elements.len() {
        return None;
    }
    match &elements[index] {
        Value::List(element) => Some(element),
        _ => None,
    }
}

#[inline(always)]
fn is_integer_at(list: &MooList, index: usize) -> bool
    ensures within { IsTrue result → index < length list.now }
    ensures integer { IsTrue result → (i : ℤ) × (slice_get list.now index ≡ Some (integer i)) }
{
    let elements = list.elements();
    if index >= elements.len() {
        return false;
    }
    matches!(&elements[index], Value::Int(_))
}

fn empty_list(alloc: Global) -> Result<MooList, AllocError>
    ensures { IfOk result (λ list. list ≡ []) }
{
    match MooList::try_from_vec(alloc, Vec::new(alloc)) {
        Ok(list) => Ok(list),
        Err(ListLimit::Memory) => Err(AllocError),
        Err(ListLimit::TooLarge) => unreachable!(),
    }
}

// Returns the list with another list in the place of the element at `index`. The new list has to be within the limits.
// Err is out of memory.
#[inline(always)]
fn replaced(
    alloc: Global,
    list: MooList,
    index: usize,
    element: MooList,
) -> Result<MooList, AllocError>
    requires within { index < length list }
    requires limits { IsWithinLimits (list_of (slice_set list index (list_of element))) }
    ensures { IfOk result (λ new. new ≡ slice_set list index (list_of element)) }
{
    match list.replaced(alloc, index, Value::List(element)) {
        Ok(list) => Ok(list),
        Err(ListLimit::Memory) => Err(AllocError),
        Err(ListLimit::TooLarge) => unreachable!(),
    }
}
