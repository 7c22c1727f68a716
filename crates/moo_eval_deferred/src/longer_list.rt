//! Lists that become longer.
ghost use Rattle.std.specs.Prelude.{◌≡◌, ◌++◌, ◌∷◌, [], List, Ok, Err, IfOk, IfSome, IfNone};
ghost use Rattle.moo_value.specs.declared.error_code.ErrorCode.TheVariants.{Quota};
ghost use Rattle.moo_value.specs.Tree.{Tree, list_of};
ghost use Rattle.moo_value.specs.Size.{IsWithinLimits};
ghost use Rattle.moo_value.specs.View.{tree, trees};
ghost use Rattle.moo_builtin_operator.specs.Places.{made_list};
ghost use Rattle.moo_syntax_function.specs.declared.function.Function.{Function};
ghost use Rattle.moo_eval_access.specs.Bounds.{IsWithin};
ghost use Rattle.moo_eval_deferred.specs.ListCall.{MakesList};

use moo_eval_slot::{has_room_for, prepended, pushed};
use moo_value::{DEPTH_LIMIT, ListLimit, MooList, Value, WEIGHT_LIMIT};
use std::alloc::{AllocError, Global};
use std::marker::Model;

/// Holds a list, and values that are still to be added to it. The longer list is within the limits.
#[derive(Drop)]
pub struct LongerList {
    list: MooList,
    added: Added,
}

// Holds what is added to a list: a value before its elements, one after them, or any number after them.
#[derive(Drop)]
enum Added {
    First(Value),
    Last(Value),
    All(Vec<Value>),
}

impl Model for LongerList {
    ghost use Rattle.std.specs.Prelude.{List};
    ghost use Rattle.moo_value.specs.Tree.{Tree, list_of};
    ghost use Rattle.moo_value.specs.TreeCode.{tree_list_code};
    ghost use Rattle.moo_value.specs.Size.{IsWithinLimits};
    ghost use Rattle.moo_eval_deferred.specs.LongerList.{with_added};

    ghost Value = { List Tree };

    ghost coded = { tree_list_code };

    ghost view = { λ l. with_added l.list l.added };

    ghost invariant = { λ l. IsWithinLimits (list_of (with_added l.list l.added)) };
}

impl LongerList {
    /// Defers that a value is added after the elements of a list. Returns `None` if the longer list is past the limits.
    pub fn appended(list: MooList, last: Value) -> Option<LongerList>
        ensures some { IfSome result (λ longer. made_list (list ++ tree last ∷ []) ≡ Ok (list_of longer)) }
        ensures none { IfNone result (made_list (list ++ tree last ∷ []) ≡ Err Quota) }
    {
        if !has_room_for(&list, &last) {
            return None;
        }
        let added = Added::Last(last);
        Some(LongerList { list, added })
    }

    /// Defers that a value is added before the elements of a list. Returns `None` if the longer list is past the limits.
    pub fn prepended(first: Value, list: MooList) -> Option<LongerList>
        ensures some { IfSome result (λ longer. made_list (tree first ∷ list) ≡ Ok (list_of longer)) }
        ensures none { IfNone result (made_list (tree first ∷ list) ≡ Err Quota) }
    {
        if !has_room_for(&list, &first) {
            return None;
        }
        let added = Added::First(first);
        Some(LongerList { list, added })
    }

    /// Defers that values are added after the elements of a list. Returns `None` if the longer list is past the limits.
    pub fn extended(list: MooList, more: Vec<Value>) -> Option<LongerList>
        ensures some { IfSome result (λ longer. made_list (list ++ trees more.items) ≡ Ok (list_of longer)) }
        ensures none { IfNone result (made_list (list ++ trees more.items) ≡ Err Quota) }
    {
        bounds_with_all(&list, &more)?;
        let added = Added::All(more);
        Some(LongerList { list, added })
    }

    /// Adds the values. A list that nothing else holds grows in place. A list with no more elements than there are
    /// values is made anew. Err is out of memory.
    pub fn into_list(self, alloc: Global) -> Result<MooList, AllocError>
        ensures { IfOk result (λ list. list ≡ self) }
    {
        let LongerList { list, added } = self;
        match added {
            Added::First(first) => prepended(alloc, list, first),
            Added::Last(last) => pushed(alloc, list, last),
            Added::All(more) => extended(alloc, list, more),
        }
    }

    // Returns bounds of the weight and the depth of the longer list.
    pub(crate) fn bounds(&self) -> Option<(u32, u32)>
        ensures { IfSome result (λ b. IsWithin b.0 b.1 (list_of self.now)) }
    {
        match &self.added {
            Added::First(value) => Some(bounds_with(&self.list, value)),
            Added::Last(value) => Some(bounds_with(&self.list, value)),
            Added::All(more) => bounds_with_all(&self.list, more),
        }
    }

    // Returns the depth of the list that becomes longer.
    pub(crate) fn depth(&self) -> u32 {
        self.list.depth()
    }
}

// Returns the weight and the depth of a list with one value more. They are bounds of any list that a function makes of the
// list and the value.
pub(crate) fn bounds_with(list: &MooList, value: &Value) -> (u32, u32)
    ensures first { IsWithin result.0 result.1 (list_of (tree value.now ∷ list.now)) }
    ensures last { IsWithin result.0 result.1 (list_of (list.now ++ tree value.now ∷ [])) }
    ensures made { (f : Function) (rest : List Tree) (w : Tree) → MakesList f (list_of list.now ∷ tree value.now ∷ rest) w → IsWithin result.0 result.1 w }
{
    let weight = list.weight() + value.weight();
    let depth = list.depth().max(value.depth() + 1);
    (weight, depth)
}

// Returns the weight and the depth of a list with these values after its elements, or `None` if they are past the
// limits.
fn bounds_with_all(list: &MooList, more: &[Value]) -> Option<(u32, u32)>
    ensures bounds { IfSome result (λ b. IsWithin b.0 b.1 (list_of (list.now ++ trees more.now))) }
    ensures limits { IfSome result (λ b. IsWithinLimits (list_of (list.now ++ trees more.now))) }
    ensures none { IfNone result (¬ IsWithinLimits (list_of (list.now ++ trees more.now))) }
{
    let mut weight = list.weight();
    let mut depth = list.depth();
    for value in more {
        weight += value.weight();
        if weight > WEIGHT_LIMIT {
            return None;
        }
        depth = depth.max(value.depth() + 1);
    }
    if depth > DEPTH_LIMIT {
        return None;
    }
    Some((weight, depth))
}

// Returns the list with these values after its elements, which has to be within the limits. Err is out of memory.
fn extended(alloc: Global, list: MooList, more: Vec<Value>) -> Result<MooList, AllocError>
    requires { IsWithinLimits (list_of (list ++ trees more.items)) }
    ensures { IfOk result (λ longer. longer ≡ list ++ trees more.items) }
{
    if list.len() <= more.len() {
        joined(alloc, list, more)
    } else {
        pushed_all(alloc, list, more)
    }
}

// Returns the list with these values after its elements, made anew. It has to be within the limits.
fn joined(alloc: Global, list: MooList, more: Vec<Value>) -> Result<MooList, AllocError>
    requires { IsWithinLimits (list_of (list ++ trees more.items)) }
    ensures { IfOk result (λ longer. longer ≡ list ++ trees more.items) }
{
    let mut more = more;
    let mut values = list.into_vec()?;
    values.append(&mut more)?;
    match MooList::try_from_vec(alloc, values) {
        Ok(longer) => Ok(longer),
        Err(ListLimit::Memory) => Err(AllocError),
        Err(ListLimit::TooLarge) => unreachable!(),
    }
}

// Returns the list with these values after its elements, each one pushed. It has to be within the limits.
fn pushed_all(alloc: Global, list: MooList, more: Vec<Value>) -> Result<MooList, AllocError>
    requires { IsWithinLimits (list_of (list ++ trees more.items)) }
    ensures { IfOk result (λ longer. longer ≡ list ++ trees more.items) }
{
    let mut longer = list;
    let mut rest = more.into_iter();
    while let Some(value) = rest.next() {
        longer = pushed(alloc, longer, value)?;
    }
    Ok(longer)
}
