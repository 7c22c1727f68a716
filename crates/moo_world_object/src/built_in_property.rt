//! The properties that every object has.
ghost use Rattle.std.specs.Prelude.{◌≡◌, if◌then◌else◌, length, Some, None, IfSome, IfNone, ◌≢◌};
ghost use Rattle.moo_value.specs.Compare.{folded};
ghost use Rattle.moo_world_object.specs.Names.{same_name};

use crate::name::same_hashed_name;

/// A property that every object has. `Read`, `Write` and `Fertile` are named `r`, `w` and `f`.
#[derive(Clone, Copy, Debug, PartialEq, Eq)]
pub enum BuiltInProperty {
    Name,
    Owner,
    Location,
    Contents,
    Programmer,
    Wizard,
    Read,
    Write,
    Fertile,
}

ghost use Rattle.moo_world_object.specs.declared.built_in_property.BuiltInProperty.{BuiltInProperty};
ghost use Rattle.moo_world_object.specs.BuiltIn.{built_in_name, built_in_of};

impl BuiltInProperty {
    /// Returns the property's name, in lower case.
    pub fn name(self) -> &'static [u8]
        ensures name { result.now ≡ built_in_name self }
        ensures small { folded (built_in_name self) ≡ built_in_name self }
    {
        match self {
            BuiltInProperty::Name => b"name",
            BuiltInProperty::Owner => b"owner",
            BuiltInProperty::Location => b"location",
            BuiltInProperty::Contents => b"contents",
            BuiltInProperty::Programmer => b"programmer",
            BuiltInProperty::Wizard => b"wizard",
            BuiltInProperty::Read => b"r",
            BuiltInProperty::Write => b"w",
            BuiltInProperty::Fertile => b"f",
        }
    }
}

/// Returns the built-in property that has this name, in any case, or `None` if none has it.
pub fn built_in(name: &[u8]) -> Option<BuiltInProperty>
    ensures value { result ≡ built_in_of (folded name.now) }
    ensures found { IfSome result (λ property. folded name.now ≡ built_in_name property) }
    ensures none { IfNone result ((property : BuiltInProperty) → folded name.now ≢ built_in_name property) }
{
    match name.len() {
        1 => named_by_letter(name),
        4 => named(name, BuiltInProperty::Name),
        5 => named(name, BuiltInProperty::Owner),
        6 => named(name, BuiltInProperty::Wizard),
        8 => match named(name, BuiltInProperty::Location) {
            Some(property) => Some(property),
            None => named(name, BuiltInProperty::Contents),
        },
        10 => named(name, BuiltInProperty::Programmer),
        _ => None,
    }
}

// Returns the built-in property of a name of one letter.
fn named_by_letter(name: &[u8]) -> Option<BuiltInProperty>
    requires { length name.now ≡ 1 }
    ensures { result ≡ built_in_of (folded name.now) }
{
    if let Some(property) = named(name, BuiltInProperty::Read) {
        return Some(property);
    }
    if let Some(property) = named(name, BuiltInProperty::Write) {
        return Some(property);
    }
    named(name, BuiltInProperty::Fertile)
}

// Returns a property if the name is its name.
fn named(name: &[u8], property: BuiltInProperty) -> Option<BuiltInProperty>
    ensures { result ≡ if same_name (folded name.now) (built_in_name property) then Some property else None }
{
    if is_name_of(name, property) {
        Some(property)
    } else {
        None
    }
}

fn is_name_of(name: &[u8], property: BuiltInProperty) -> bool
    ensures { result ≡ same_name (folded name.now) (built_in_name property) }
{
    same_hashed_name(name, property.name())
}
