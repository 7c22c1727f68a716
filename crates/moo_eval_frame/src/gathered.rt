//! The values that the items of a list or of a call have, collected from left to right.
ghost use Rattle.std.specs.Prelude.{◌≡◌, ◌<◌, ◌+◌, ◌-◌, ◌^◌, ◌++◌, ◌∷◌, [], List, Ok, Err, min, length, IsTrue, IfOk, IfErr, IfSome, IfNone, OnOk};
ghost use Rattle.moo_value.specs.Tree.{Tree, list_of};
ghost use Rattle.moo_value.specs.Size.{list_weight, weight_limit, IsWithinLimits};
ghost use Rattle.moo_value.specs.View.{tree, trees};
ghost use Rattle.moo_builtin_operator.specs.Places.{spliced_of, made_list};
ghost use Rattle.moo_eval_frame.specs.Outcome.{answers};
ghost use Rattle.moo_eval_frame.specs.Seen.{failure_of, HadMemoryIn};
ghost use Rattle.moo_eval_frame.specs.Gathered.{in_a_row};

use crate::access::append;
use crate::outcome::Failure;
use moo_value::{ErrorCode, MooList, Value, WEIGHT_LIMIT};
use std::alloc::{AllocError, Global};
use std::marker::Model;
use std::mem;

/// Holds values in order. Lists that were spliced in are shared: their elements are copied only when the values are
/// read.
#[derive(Drop)]
pub struct Gathered {
    stretches: Vec<Stretch>,
    /// The values after the last stretch.
    last: Vec<Value>,
}

/// Holds values, and a list that was spliced in after them.
#[derive(Drop)]
pub struct Stretch {
    pub values: Vec<Value>,
    pub list: MooList,
}

impl Model for Gathered {
    ghost use Rattle.std.specs.Prelude.{◌++◌, List};
    ghost use Rattle.moo_value.specs.Tree.{Tree};
    ghost use Rattle.moo_value.specs.View.{trees};
    ghost use Rattle.moo_eval_frame.specs.Gathered.{in_a_row};

    ghost Value = { List Tree };

    ghost use Rattle.moo_value.specs.TreeCode.{tree_list_code};

    ghost coded = { tree_list_code };

    ghost view = { λ g. in_a_row g.stretches.items ++ trees g.last.items };
}

impl Gathered {
    /// Returns no values, with capacity for `count`. They take this memory, whose values are dropped. Err is out of
    /// memory.
    #[inline(always)]
    pub fn with_memory(
        alloc: Global,
        memory: Vec<Value>,
        count: usize,
    ) -> Result<Gathered, AllocError>
        ensures { IfOk result (λ gathered. gathered ≡ []) }
    {
        let mut last = memory;
        last.clear();
        last.reserve(count)?;
        Ok(Gathered {
            stretches: Vec::new(alloc),
            last,
        })
    }

    /// Returns these values.
    pub fn of(alloc: Global, values: Vec<Value>) -> Gathered
        ensures { result ≡ trees values.items }
    {
        Gathered {
            stretches: Vec::new(alloc),
            last: values,
        }
    }

    /// Appends a value.
    #[inline(always)]
    pub fn push(&mut self, value: Value) -> Result<(), AllocError>
        ensures { OnOk result (self.new ≡ self.old ++ tree value ∷ []) }
    {
        self.last.push(value)?;
        Ok(())
    }

    /// Appends the elements of a list: E_TYPE for a value that is no list.
    pub fn splice(&mut self, alloc: Global, value: Value) -> Result<(), Failure>
        ensures ok { OnOk result ((more : List Tree) × (answers (spliced_of (tree value)) ≡ Ok more) × (self.new ≡ self.old ++ more)) }
        ensures err { IfErr result (λ failure. HadMemoryIn failure → answers (spliced_of (tree value)) ≡ Err (failure_of failure)) }
    {
        let Value::List(list) = value else {
            return Err(Failure::Fails(ErrorCode::TypeMismatch));
        };
        Ok(self.push_list(alloc, list)?)
    }

    // Appends a list to the values so far.
    fn push_list(&mut self, alloc: Global, list: MooList) -> Result<(), AllocError>
        ensures { OnOk result (self.new ≡ self.old ++ list) }
    {
        let values = mem::replace(&mut self.last, Vec::new(alloc));
        self.stretches.push(Stretch { values, list })?;
        Ok(())
    }

    /// Returns how many values there are, at most 2^64 - 1.
    pub fn len(&self) -> usize
        ensures { result ≡ min (length self.now) (2 ^ 64 - 1) }
    {
        count(&self.stretches).saturating_add(self.last.len())
    }

    /// Returns the values in one vector. The lists that were spliced in, and the values before them, are copied. Err is
    /// out of memory.
    #[inline(always)]
    pub fn into_values(self, alloc: Global) -> Result<Vec<Value>, AllocError>
        ensures { IfOk result (λ values. trees values.items ≡ self) }
    {
        let Gathered { stretches, last } = self;
        joined(alloc, &stretches, last)
    }

    /// Returns the stretches of the values without copying, and the values after the last one.
    pub fn into_stretches(self) -> (Vec<Stretch>, Vec<Value>)
        ensures { in_a_row result.0.items ++ trees result.1.items ≡ self }
    {
        let Gathered { stretches, last } = self;
        (stretches, last)
    }

    /// Returns the values for the arguments of a verb, which have to make a list. E_QUOTA if the lists that were
    /// spliced in are too heavy together; then no element is copied.
    #[inline(always)]
    pub fn into_arguments(self, alloc: Global) -> Result<Vec<Value>, Failure>
        ensures ok { IfOk result (λ values. trees values.items ≡ self) }
        ensures err { IfErr result (λ failure. HadMemoryIn failure → answers (made_list self) ≡ Err (failure_of failure)) }
    {
        let Gathered { stretches, last } = self;
        if stretches.is_empty() {
            return Ok(last);
        }
        spliced_arguments(alloc, stretches, last)
    }

    /// Returns the list of the values: E_QUOTA past the limits of weight and depth. If the lists that were spliced in
    /// are too heavy together, no element is copied. If there is one such list, no value before it and at most one
    /// after it, the list itself is returned, with that value appended.
    pub fn into_list(self, alloc: Global) -> Result<MooList, Failure>
        ensures ok { IfOk result (λ list. list ≡ self) }
        ensures limits { OnOk result (made_list self ≡ Ok (list_of self)) }
        ensures err { IfErr result (λ failure. HadMemoryIn failure → answers (made_list self) ≡ Err (failure_of failure)) }
    {
        let Gathered {
            mut stretches,
            mut last,
        } = self;
        if are_too_heavy(&stretches) {
            return Err(Failure::Fails(ErrorCode::Quota));
        }
        if last.len() <= 1 {
            if let Some(list) = take_only_list(&mut stretches) {
                return match last.pop() {
                    None => Ok(list),
                    Some(value) => Ok(list.pushed(alloc, value)?),
                };
            }
        }
        let values = joined(alloc, &stretches, last)?;
        Ok(MooList::try_from_vec(alloc, values)?)
    }
}

// Returns the values for the arguments of a verb, if lists were spliced in.
#[inline(never)]
fn spliced_arguments(
    alloc: Global,
    stretches: Vec<Stretch>,
    last: Vec<Value>,
) -> Result<Vec<Value>, Failure>
    ensures ok { IfOk result (λ values. trees values.items ≡ in_a_row stretches.items ++ trees last.items) }
    ensures err { IfErr result (λ failure. HadMemoryIn failure → answers (made_list (in_a_row stretches.items ++ trees last.items)) ≡ Err (failure_of failure)) }
{
    if are_too_heavy(&stretches) {
        return Err(Failure::Fails(ErrorCode::Quota));
    }
    Ok(joined(alloc, &stretches, last)?)
}

// Takes out the only stretch, if it is a list alone.
fn take_only_list(stretches: &mut Vec<Stretch>) -> Option<MooList>
    ensures some { IfSome result (λ list. in_a_row stretches.old.items ≡ list) }
    ensures limits { IfSome result (λ list. IsWithinLimits (list_of list)) }
    ensures none { IfNone result (stretches.new.items ≡ stretches.old.items) }
{
    if stretches.len() != 1 || !stretches[0].values.is_empty() {
        return None;
    }
    let Stretch { list, .. } = stretches.pop()?;
    prove!(list.weight() <= WEIGHT_LIMIT);
    Some(list)
}

// Returns whether the lists in these stretches are too heavy for one list.
fn are_too_heavy(stretches: &[Stretch]) -> bool
    ensures { IsTrue result → weight_limit < list_weight (in_a_row stretches.now) }
{
    let mut weight: u32 = 1;
    for stretch in stretches {
        weight += stretch.list.weight() - 1;
        if weight > WEIGHT_LIMIT {
            return true;
        }
    }
    false
}

// Returns the values of stretches, and those after them.
#[inline(always)]
fn joined(alloc: Global, stretches: &[Stretch], last: Vec<Value>) -> Result<Vec<Value>, AllocError>
    ensures { IfOk result (λ values. trees values.items ≡ in_a_row stretches.now ++ trees last.items) }
{
    if stretches.is_empty() {
        return Ok(last);
    }
    copied(alloc, stretches, last)
}

// Returns copies of the values of stretches, and the values after them.
#[inline(never)]
fn copied(
    alloc: Global,
    stretches: &[Stretch],
    mut last: Vec<Value>,
) -> Result<Vec<Value>, AllocError>
    ensures { IfOk result (λ values. trees values.items ≡ in_a_row stretches.now ++ trees last.items) }
{
    let count = count(stretches).saturating_add(last.len());
    let mut values = Vec::with_capacity(alloc, count)?;
    for stretch in stretches {
        append(&mut values, &stretch.values)?;
        append(&mut values, stretch.list.elements())?;
    }
    values.append(&mut last)?;
    Ok(values)
}

// Returns how many values stretches have.
fn count(stretches: &[Stretch]) -> usize
    ensures { result ≡ min (length (in_a_row stretches.now)) (2 ^ 64 - 1) }
{
    let mut count: usize = 0;
    for stretch in stretches {
        count = count
            .saturating_add(stretch.values.len())
            .saturating_add(stretch.list.len());
    }
    count
}
