//! Reads properties by their names, the built-in ones too.

ghost use Rattle.std.specs.Prelude.{◌≡◌, ◌<◌, IsSome, Some, IfOk, None};
ghost use Rattle.std.specs.List.{All};
ghost use Rattle.moo_value.specs.Compare.{folded};
ghost use Rattle.moo_value.specs.View.{tree};
ghost use Rattle.moo_world_object.specs.BuiltIn.{built_in_of};
ghost use Rattle.moo_world_table.specs.World.{object_of, most, nothing};
ghost use Rattle.moo_world_table.specs.Properties.{read};
ghost use Rattle.moo_world.specs.NamedProperties.{truth, number_of_place, objects_list, built_in_value, named_raises, named_value, get_raises, value_got, own_value};
ghost use Rattle.moo_world.specs.Calls.{Answers, RaisesFirst, number_of};
ghost use Rattle.std.specs.Option.{unwrap_or, ForSome};
ghost use Rattle.moo_value.specs.Tree.{object};

use crate::World;
use crate::fault::WorldFault;
use moo_value::{ErrorCode, MooList, Value};
use moo_world_object::{BuiltInProperty, Object, built_in};
use moo_world_tree::Below;
use std::alloc::{AllocError, Global};

impl World {
    /// Returns the value of a property by its name; built-in properties come first.
    pub fn get(&self, alloc: Global, o: i32, name: &[u8]) -> Result<Value, WorldFault>
        ensures value { Answers result (get_raises self.now (number_of self.now.objects o) (folded name.now))
            (λ v. value_got self.now (number_of self.now.objects o) (folded name.now) ≡ Some (tree v)) }
        ensures memory { RaisesFirst result (get_raises self.now (number_of self.now.objects o) (folded name.now)) }
    {
        match self.number(o) {
            Some(x) => self.get_named(alloc, x, name),
            None => Err(WorldFault::Raise(ErrorCode::InvalidIndirection)),
        }
    }

    fn get_named(&self, alloc: Global, x: usize, name: &[u8]) -> Result<Value, WorldFault>
        requires { IsSome (object_of self.now.objects x) }
        ensures value { Answers result (named_raises self.now x (folded name.now) (built_in_of (folded name.now)))
            (λ v. named_value self.now x (folded name.now) (built_in_of (folded name.now)) ≡ Some (tree v)) }
        ensures memory { RaisesFirst result (named_raises self.now x (folded name.now) (built_in_of (folded name.now))) }
    {
        match built_in(name) {
            Some(property) => Ok(self.get_built_in(alloc, x, property)?),
            None => self.get_defined(x, name),
        }
    }

    fn get_defined(&self, x: usize, name: &[u8]) -> Result<Value, WorldFault>
        requires { IsSome (object_of self.now.objects x) }
        ensures value { Answers result (named_raises self.now x (folded name.now) None) (λ v. read self.now x (folded name.now) ≡ Some (tree v)) }
        ensures memory { RaisesFirst result (named_raises self.now x (folded name.now) None) }
    {
        self.is_well_formed();
        match self.value_from(x, name) {
            Some(value) => Ok(value.try_clone()?),
            None => Err(WorldFault::Raise(ErrorCode::PropertyNotFound)),
        }
    }

    pub(crate) fn get_built_in(
        &self,
        alloc: Global,
        x: usize,
        property: BuiltInProperty,
    ) -> Result<Value, AllocError>
        requires { IsSome (object_of self.now.objects x) }
        ensures { IfOk result (λ v. tree v ≡ built_in_value self.now x property) }
    {
        match property {
            BuiltInProperty::Location => Ok(place_value(self.containment.above(x))),
            BuiltInProperty::Contents => contents_value(alloc, self.containment.below(x)),
            _ => own_value(&self.objects[x], property),
        }
    }
}

fn place_value(place: Option<usize>) -> Value
    requires { ForSome place (λ up. up < most) }
    ensures { tree result ≡ object (number_of_place place) }
{
    Value::Obj(place_number(place))
}

// Returns the number of a place, -1 for none.
pub(crate) fn place_number(place: Option<usize>) -> i32
    requires { ForSome place (λ up. up < most) }
    ensures { result ≡ number_of_place place }
{
    match place {
        Some(up) => up as i32,
        None => -1,
    }
}

// Returns the objects in a place, as a list of their numbers.
fn contents_value(alloc: Global, below: Below<'_>) -> Result<Value, AllocError>
    requires { All (λ y. y < most) below }
    ensures { IfOk result (λ v. tree v ≡ objects_list below.entry) }
{
    let mut values = Vec::new(alloc);
    for y in below {
        values.push(Value::Obj(y as i32))?;
    }
    // What is in an object is always within the limits of a list.
    match MooList::try_from_vec(alloc, values) {
        Ok(list) => Ok(Value::List(list)),
        Err(_) => Err(AllocError),
    }
}

// Returns the value of a built-in property that is a field of the object itself.
fn own_value(slot: &Option<Object>, property: BuiltInProperty) -> Result<Value, AllocError>
    requires { IsSome slot.now }
    ensures { IfOk result (λ v. tree v ≡ own_value (unwrap_or slot.now nothing) property) }
{
    let Some(object) = slot else {
        return Ok(Value::Int(0));
    };
    let flags = object.flags();
    match property {
        BuiltInProperty::Name => Ok(Value::Str(object.name().try_clone()?)),
        BuiltInProperty::Owner => Ok(Value::Obj(object.owner())),
        BuiltInProperty::Programmer => Ok(truth(flags.programmer)),
        BuiltInProperty::Wizard => Ok(truth(flags.wizard)),
        BuiltInProperty::Read => Ok(truth(flags.read)),
        BuiltInProperty::Write => Ok(truth(flags.write)),
        BuiltInProperty::Fertile => Ok(truth(flags.fertile)),
        BuiltInProperty::Location | BuiltInProperty::Contents => Ok(Value::Int(0)),
    }
}

fn truth(flag: bool) -> Value
    ensures { tree result ≡ truth flag }
{
    Value::Int(if flag { 1 } else { 0 })
}
