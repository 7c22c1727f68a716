//! The weight and the depth of the list of some values.
ghost use Rattle.std.specs.Prelude.{◌≡◌, ◌≤◌, ◌+◌, ◌++◌, length, max, take, drop, slice_range, IfSome, IfNone};
ghost use Rattle.moo_value.specs.Tree.{list_of};
ghost use Rattle.moo_value.specs.Size.{list_weight, list_depth, IsWithinLimits, IsStored, weight_limit, depth_limit};
ghost use Rattle.moo_value.specs.Inner.{IsMeasuredList};
ghost use Rattle.moo_value.specs.Splice.{spliced};
ghost use Rattle.moo_value.specs.View.{trees};

use crate::limits::{DEPTH_LIMIT, WEIGHT_LIMIT};
use crate::list::MooList;
use crate::value::Value;

/// The weight and the depth of a list.
#[derive(Clone, Copy)]
pub(crate) struct Measure {
    pub(crate) weight: u32,
    pub(crate) depth: u32,
}

// Measures the list of these values. Returns `None` if it is too heavy or too deep.
pub(crate) fn measured(elements: &[Value]) -> Option<Measure>
    ensures some { IfSome result (λ m. IsMeasuredList m.weight m.depth (trees elements.now)) }
    ensures none { IfNone result (¬ IsWithinLimits (list_of (trees elements.now))) }
{
    let mut weight: u32 = 1;
    let mut depth: u32 = 1;
    for element in elements {
        let own = element.measure();
        weight += own.weight;
        if weight > WEIGHT_LIMIT {
            return None;
        }
        depth = depth.max(own.depth + 1);
    }
    if depth > DEPTH_LIMIT {
        return None;
    }
    Some(Measure { weight, depth })
}

// Returns the depth of the list of these values, which is at most `most`. Reads no further than a value that makes the list
// so deep.
pub(crate) fn list_depth(elements: &[Value], most: u32) -> u32
    requires { list_depth (trees elements.now) ≤ most }
    ensures { result ≡ list_depth (trees elements.now) }
{
    let mut depth: u32 = 1;
    for element in elements {
        if depth == most {
            return depth;
        }
        depth = depth.max(element.depth() + 1);
    }
    depth
}

// Measures the list of the values from `low` up to but not including `high`. The list of all has this measure. Adds up
// the weights of the other values. Reads these for the depth, up to one that is as deep as all.
pub(crate) fn measured_part(elements: &[Value], whole: Measure, low: usize, high: usize) -> Measure
    requires whole { IsMeasuredList whole.weight whole.depth (trees elements.now) }
    requires order { low ≤ high }
    requires within { high ≤ length elements.now }
    ensures { IsMeasuredList result.weight result.depth (slice_range (trees elements.now) low high) }
{
    let front = list_weight(&elements[..low]);
    let back = list_weight(&elements[high..]);
    let weight = whole.weight + 2 - front - back;
    let depth = list_depth(&elements[low..high], whole.depth);
    Measure { weight, depth }
}

// Measures the list of these values in a row. Returns `None` if it is too heavy; it is never too deep.
pub(crate) fn measured_in_a_row(
    front: &[Value],
    middle: &[Value],
    back: &[Value],
) -> Option<Measure>
    requires front { IsStored (list_of (trees front.now)) }
    requires middle { IsStored (list_of (trees middle.now)) }
    requires back { IsStored (list_of (trees back.now)) }
    ensures some { IfSome result (λ m. IsMeasuredList m.weight m.depth (trees front.now ++ trees middle.now ++ trees back.now)) }
    ensures none { IfNone result (¬ IsWithinLimits (list_of (trees front.now ++ trees middle.now ++ trees back.now))) }
{
    let weight = list_weight(front) + list_weight(middle) + list_weight(back) - 2;
    if weight > WEIGHT_LIMIT {
        return None;
    }
    let depth = list_depth(front, DEPTH_LIMIT)
        .max(list_depth(middle, DEPTH_LIMIT))
        .max(list_depth(back, DEPTH_LIMIT));
    Some(Measure { weight, depth })
}

// Measures the list of these values, which has this measure, with the elements of another list in place of those from
// `low` up to but not including `high`. Returns `None` if it is too heavy; it is never too deep.
pub(crate) fn measured_splice(
    elements: &[Value],
    whole: Measure,
    low: usize,
    high: usize,
    middle: &MooList,
) -> Option<Measure>
    requires order { low ≤ high }
    requires within { high ≤ length elements.now }
    requires whole { IsMeasuredList whole.weight whole.depth (trees elements.now) }
    ensures some { IfSome result (λ m. IsMeasuredList m.weight m.depth (spliced (trees elements.now) low high middle.now)) }
    ensures none { IfNone result (¬ IsWithinLimits (list_of (spliced (trees elements.now) low high middle.now))) }
{
    let inner = middle.measure();
    let removed = list_weight(&elements[low..high]);
    let weight = whole.weight + inner.weight - removed;
    if weight > WEIGHT_LIMIT {
        return None;
    }
    let depth = depth_beside(elements, whole.depth, low, high).max(inner.depth);
    Some(Measure { weight, depth })
}

// Returns the depth of the list of these values, of which that of all is so deep, without those from `low` up to but not
// including `high`. Reads the others only if one of these is the deepest.
fn depth_beside(elements: &[Value], most: u32, low: usize, high: usize) -> u32
    requires order { low ≤ high }
    requires within { high ≤ length elements.now }
    requires whole { most ≡ list_depth (trees elements.now) }
    ensures { result ≡ max (list_depth (take low (trees elements.now))) (list_depth (drop high (trees elements.now))) }
{
    let gone = list_depth(&elements[low..high], most);
    if gone < most {
        return most;
    }
    let before = list_depth(&elements[..low], most);
    if before == most {
        return most;
    }
    before.max(list_depth(&elements[high..], most))
}

// Returns the weight of the list of these values.
fn list_weight(elements: &[Value]) -> u32
    requires { IsStored (list_of (trees elements.now)) }
    ensures weight { result ≡ list_weight (trees elements.now) }
    ensures limit { result ≤ weight_limit }
    ensures one { 1 ≤ result }
{
    let mut total: u32 = 1;
    for element in elements {
        total += element.weight();
    }
    total
}
