//! Tests the arguments of a call before the function itself looks at them.
ghost use Rattle.std.specs.Prelude.{◌≡◌, ◌<◌, length, true, None, IsTrue};
ghost use Rattle.moo_value.specs.View.{tree, trees};
ghost use Rattle.moo_syntax_function.specs.Table.{row};
ghost use Rattle.moo_syntax_function.specs.Check.{refusal, all_valid, names_valid, kind_at, fits, seen};
ghost use Rattle.moo_builtin_world.specs.Objects.{is_valid};

use moo_syntax_function::{Function, Kind, Row};
use moo_value::{ErrorCode, Value};
use moo_world::World;

/// Returns why a call with these arguments is refused: E_ARGS for their number, else E_TYPE for one of a wrong type,
/// else E_INVARG for an object that has to be valid and isn't.
pub fn refusal(function: Function, args: &[Value], world: &World) -> Option<ErrorCode>
    ensures { result ≡ refusal (is_valid world.now) (row function) (trees args.now) }
{
    if are_accepted(function.row(), args, world) {
        return None;
    }
    any_refusal(function, args, world)
}

// Returns whether there are as many arguments as are needed, and each is accepted. Not so if there are more, or if one is
// a list that has to have certain elements.
#[inline(always)]
fn are_accepted(row: Row, args: &[Value], world: &World) -> bool
    ensures { IsTrue result → refusal (is_valid world.now) (seen row) (trees args.now) ≡ None }
{
    if args.len() != row.needed.len() {
        return false;
    }
    for place in 0..args.len() {
        if !is_accepted(needed_kind(row, place), &args[place], world) {
            return false;
        }
    }
    true
}

// Returns the kind of an argument that is needed.
#[inline(always)]
fn needed_kind(row: Row, place: usize) -> Kind
    requires { place < length row.needed.now }
    ensures { result ≡ kind_at (seen row) place }
{
    row.needed[place]
}

// Returns whether an argument has this kind, and is valid if it has to be.
#[inline(always)]
fn is_accepted(kind: Kind, value: &Value, world: &World) -> bool
    ensures { IsTrue result → (fits kind (tree value.now) ≡ true) × (names_valid (is_valid world.now) kind (tree value.now) ≡ true) }
{
    match (kind, value) {
        (Kind::Any, _) => true,
        (Kind::Text | Kind::TextOrList | Kind::Verb, Value::Str(_)) => true,
        (Kind::List | Kind::TextOrList, Value::List(_)) => true,
        (Kind::Integer | Kind::Verb, Value::Int(_)) => true,
        (Kind::AnyObject, Value::Obj(_)) => true,
        (Kind::ValidObject, Value::Obj(o)) => world.valid(*o),
        _ => false,
    }
}

// Returns why any arguments are refused.
#[inline(never)]
fn any_refusal(function: Function, args: &[Value], world: &World) -> Option<ErrorCode>
    ensures { result ≡ refusal (is_valid world.now) (row function) (trees args.now) }
{
    if let Some(error) = function.mismatch(args) {
        return Some(error);
    }
    if !all_valid(function, args, world) {
        return Some(ErrorCode::InvalidArgument);
    }
    None
}

fn all_valid(function: Function, args: &[Value], world: &World) -> bool
    ensures { result ≡ all_valid (is_valid world.now) (row function) (trees args.now) }
{
    for place in 0..args.len() {
        if !names_valid(world, function, place, &args[place]) {
            return false;
        }
    }
    true
}

// Returns whether the argument at a place is valid, if it is an object that has to be. No other argument needs a look at
// the row.
fn names_valid(world: &World, function: Function, place: usize, value: &Value) -> bool
    ensures { result ≡ names_valid (is_valid world.now) (kind_at (row function) place) (tree value.now) }
{
    match value {
        Value::Obj(o) => match function.kind_at(place) {
            Kind::ValidObject => world.valid(*o),
            _ => true,
        },
        _ => true,
    }
}
