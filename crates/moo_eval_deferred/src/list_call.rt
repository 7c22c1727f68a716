//! Calls of a built-in function that change a list, as `listappend(l, x)`.
ghost use Rattle.std.specs.Prelude.{◌≡◌, [], ◌∷◌, Some, IsTrue, IfOk, IfErr, IfSome};
ghost use Rattle.moo_value.specs.Tree.{Tree, integer, list_of};
ghost use Rattle.moo_value.specs.View.{tree, trees};
ghost use Rattle.moo_builtin_operator.specs.declared.fault.OperationFault.TheVariants.{Memory};
ghost use Rattle.moo_syntax_function.specs.declared.function.Function.{Function};
ghost use Rattle.moo_eval_slot.specs.Bindings.{bind, with_variable};
ghost use Rattle.moo_eval_frame.specs.Seen.{variables_of};
ghost use Rattle.moo_eval_access.specs.Bounds.{IsWithin};
ghost use Rattle.moo_eval_deferred.specs.ListCall.{MakesList, HasList, HasPlace, Takes, value_of_call};

use crate::longer_list::bounds_with;
use moo_builtin_operator::{OperationFault, before_place};
use moo_builtin_value::plain_answer;
use moo_eval_frame::Variables;
use moo_eval_slot::has_room_for;
use moo_syntax_ast::Name;
use moo_syntax_function::Function;
use moo_value::{MooList, Value, WEIGHT_LIMIT};
use std::alloc::{AllocError, Global};
use std::marker::Model;

/// Holds a call of a built-in function that isn't carried out yet. The function makes a list of its first argument,
/// with an element more, less or replaced. The call raises no error.
#[derive(Drop)]
pub struct ListCall {
    function: Function,
    args: Vec<Value>,
}

impl Model for ListCall {
    ghost use Rattle.moo_value.specs.Tree.{Tree};
    ghost use Rattle.moo_value.specs.TreeCode.{tree_code};
    ghost use Rattle.moo_value.specs.View.{trees};
    ghost use Rattle.moo_eval_deferred.specs.ListCall.{HasList, value_of_call};

    ghost Value = { Tree };

    ghost coded = { tree_code };

    ghost view = { λ c. value_of_call c.function (trees c.args.items) };

    ghost invariant = { λ c. HasList c.function (trees c.args.items) };
}

impl ListCall {
    /// Returns the call of a function with these arguments. Gives the arguments back if it isn't a call of this kind.
    pub fn try_new(function: Option<Function>, args: Vec<Value>) -> Result<ListCall, Vec<Value>>
        ensures ok { IfOk result (λ call. (f : Function) × (function ≡ Some f) × MakesList f (trees args.items) call) }
        ensures err { IfErr result (λ kept. kept ≡ args) }
    {
        match function {
            Some(function) if has_list(function, &args) => Ok(ListCall { function, args }),
            _ => Err(args),
        }
    }

    /// Makes the list. A first argument that nothing else holds is changed in place. Err is out of memory.
    pub fn into_value(self, alloc: Global) -> Result<Value, AllocError>
        ensures { IfOk result (λ value. tree value ≡ self) }
    {
        let ListCall { function, args } = self;
        let mut args = args;
        make_list(alloc, function, &mut args)
    }

    // Returns bounds of the weight and the depth of the list that the call makes.
    pub(crate) fn bounds(&self) -> Option<(u32, u32)>
        ensures { IfSome result (λ b. IsWithin b.0 b.1 self.now) }
    {
        bounds_of(&self.args)
    }

    // Returns the depth of the list that the call changes.
    pub(crate) fn depth(&self) -> u32 {
        match self.args.as_slice() {
            [Value::List(list), ..] => list.depth(),
            _ => 0,
        }
    }
}

// Returns bounds of the weight and the depth of any list that a function makes of these arguments.
fn bounds_of(args: &[Value]) -> Option<(u32, u32)>
    ensures { IfSome result (λ b. (f : Function) (w : Tree) → MakesList f (trees args.now) w → IsWithin b.0 b.1 w) }
{
    match args {
        [Value::List(list), value] => Some(bounds_with(list, value)),
        [Value::List(list), value, _] => Some(bounds_with(list, value)),
        _ => None,
    }
}

/// Sets a variable to the list that a call makes, and returns the memory of the call's arguments. The variable is set to
/// 0 first, so a list that nothing else holds is changed in place. Err is out of memory; the variable may then be 0.
pub fn set_called(
    alloc: Global,
    variables: &mut Variables,
    name: &Name,
    call: ListCall,
) -> Result<Vec<Value>, AllocError>
    ensures { IfOk result (λ _. variables_of variables.new ≡ with_variable (variables_of variables.old) (bind name.now call)) }
{
    variables.set(name, Value::Int(0))?;
    let ListCall { function, args } = call;
    let mut args = args;
    let list = make_list(alloc, function, &mut args)?;
    variables.set(name, list)?;
    Ok(args)
}

// Returns the list that a function makes of these arguments, of which `has_list` holds. A first argument that nothing
// else shares is changed in place. Err is out of memory.
fn make_list(alloc: Global, function: Function, args: &mut [Value]) -> Result<Value, AllocError>
    requires { HasList function (trees args.old) }
    ensures { IfOk result (λ v. tree v ≡ value_of_call function (trees args.old)) }
{
    let Some(answer) = plain_answer(alloc, function, args, 0) else {
        unreachable!()
    };
    match answer {
        Ok(list) => Ok(list),
        Err(fault) => Err(out_of_memory(fault)),
    }
}

// Converts the fault of an operation, which is lack of memory.
fn out_of_memory(fault: OperationFault) -> AllocError
    requires { fault ≡ Memory }
{
    match fault {
        OperationFault::Memory => AllocError,
        OperationFault::Raise(_) => unreachable!(),
    }
}

// Is true only if a function makes a list of its first argument, with an element more, less or replaced, and raises no
// error. False for other functions.
fn has_list(function: Function, args: &[Value]) -> bool
    ensures { IsTrue result → HasList function (trees args.now) }
{
    match args {
        [Value::List(list), value] => has_list_of(function, list, value),
        [Value::List(list), value, Value::Int(place)] => {
            has_list_at(function, list, value, *place)
        }
        _ => false,
    }
}

fn has_list_of(function: Function, list: &MooList, value: &Value) -> bool
    ensures { IsTrue result → HasList function (list_of list.now ∷ tree value.now ∷ []) }
{
    prove!(list.weight() <= WEIGHT_LIMIT);
    match function {
        Function::ListAppend => has_room_for(list, value),
        Function::ListInsert => has_room_for(list, value),
        Function::SetAdd => has_room_for(list, value),
        Function::ListDelete => has_place(list, value),
        Function::SetRemove => true,
        _ => false,
    }
}

// Is true if the function is one with a place, and the list takes the value there.
fn has_list_at(function: Function, list: &MooList, value: &Value, place: i32) -> bool
    ensures { IsTrue result → HasList function (list_of list.now ∷ tree value.now ∷ integer place ∷ []) }
{
    match function {
        Function::ListAppend => has_room_for(list, value),
        Function::ListInsert => has_room_for(list, value),
        Function::ListSet => takes(list, place, value),
        _ => false,
    }
}

// Is true if the list with the value at the place, in place of an element, is within the limits.
fn takes(list: &MooList, place: i32, value: &Value) -> bool
    ensures { IsTrue result → Takes list.now place (tree value.now) }
{
    match before_place(place, list.len()) {
        Some(before) => list.fits_replacing(before, value),
        None => false,
    }
}

// Is true if a value is the place of an element of the list.
fn has_place(list: &MooList, value: &Value) -> bool
    ensures { IsTrue result → HasPlace list.now (tree value.now) }
{
    match value {
        Value::Int(place) => before_place(*place, list.len()).is_some(),
        _ => false,
    }
}
