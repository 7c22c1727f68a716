//! The checks before a function reads its arguments: their number and their types.
ghost use Rattle.std.specs.Prelude.{◌≡◌};
ghost use Rattle.moo_value.specs.View.{tree, trees};
ghost use Rattle.moo_syntax_function.specs.Table.{row};
ghost use Rattle.moo_syntax_function.specs.Check.{is_count, kind_at, fits, all_fit, mismatch, seen, is_property_info, is_verb_info, is_verb_arguments, are_lines};
ghost use Rattle.moo_value.specs.Tree.{list_of};

use crate::function::Function;
use crate::table::{Kind, Row};
use moo_value::{ErrorCode, Value};

impl Function {
    /// Checks the arguments of a call. Returns `E_ARGS` if their number is wrong, else `E_TYPE` if one has a wrong
    /// type, else `None`.
    pub fn mismatch(self, args: &[Value]) -> Option<ErrorCode>
        ensures { result ≡ mismatch (row self) (trees args.now) }
    {
        let row = self.row();
        if !is_count(row, args.len()) {
            return Some(ErrorCode::Arguments);
        }
        if !all_fit(row, args) {
            return Some(ErrorCode::TypeMismatch);
        }
        None
    }

    /// Returns the kind of the argument at a place, counted from 0.
    pub fn kind_at(self, place: usize) -> Kind
        ensures { result ≡ kind_at (row self) place }
    {
        kind_at(self.row(), place)
    }
}

fn is_count(row: Row, count: usize) -> bool
    ensures { result ≡ is_count (seen row) count }
{
    if count < row.needed.len() {
        return false;
    }
    row.more.is_some() || count - row.needed.len() <= row.optional.len()
}

fn kind_at(row: Row, place: usize) -> Kind
    ensures { result ≡ kind_at (seen row) place }
{
    if place < row.needed.len() {
        return row.needed[place];
    }
    let place = place - row.needed.len();
    if place < row.optional.len() {
        return row.optional[place];
    }
    row.more.unwrap_or(Kind::Any)
}

fn all_fit(row: Row, args: &[Value]) -> bool
    ensures { result ≡ all_fit (seen row) (trees args.now) }
{
    for place in 0..args.len() {
        if !fits(kind_at(row, place), &args[place]) {
            return false;
        }
    }
    true
}

fn fits(kind: Kind, value: &Value) -> bool
    ensures { result ≡ fits kind (tree value.now) }
{
    match (kind, value) {
        (Kind::Any, _) => true,
        (Kind::Integer | Kind::Verb, Value::Int(_)) => true,
        (Kind::Error, Value::Err(_)) => true,
        (Kind::Text | Kind::TextOrList | Kind::Verb, Value::Str(_)) => true,
        (Kind::ValidObject | Kind::AnyObject, Value::Obj(_)) => true,
        (_, Value::List(list)) => fits_list(kind, list.elements()),
        _ => false,
    }
}

fn fits_list(kind: Kind, elements: &[Value]) -> bool
    ensures { result ≡ fits kind (list_of (trees elements.now)) }
{
    match kind {
        Kind::Any | Kind::List | Kind::TextOrList => true,
        Kind::PropertyInfo => is_property_info(elements),
        Kind::PropertyChange => is_property_info(elements) || is_verb_info(elements),
        Kind::VerbInfo => is_verb_info(elements),
        Kind::VerbArguments => is_verb_arguments(elements),
        Kind::Lines => are_lines(elements),
        _ => false,
    }
}

fn is_property_info(elements: &[Value]) -> bool
    ensures { result ≡ is_property_info (trees elements.now) }
{
    match elements {
        [Value::Obj(_), Value::Str(_)] => true,
        _ => false,
    }
}

fn is_verb_info(elements: &[Value]) -> bool
    ensures { result ≡ is_verb_info (trees elements.now) }
{
    match elements {
        [Value::Obj(_), Value::Str(_), Value::Str(_)] => true,
        _ => false,
    }
}

fn is_verb_arguments(elements: &[Value]) -> bool
    ensures { result ≡ is_verb_arguments (trees elements.now) }
{
    match elements {
        [Value::Str(_), Value::Str(_), Value::Str(_)] => true,
        _ => false,
    }
}

fn are_lines(elements: &[Value]) -> bool
    ensures { result ≡ are_lines (trees elements.now) }
{
    for element in elements {
        let Value::Str(_) = element else {
            return false;
        };
    }
    true
}
