//! Properties read by names that are literals in a program.

ghost use Rattle.std.specs.Prelude.{◌≡◌, ◌≢◌, ℕ, ℤ, IsSome, IfSome, IfNone, Some};
ghost use Rattle.std.specs.Option.{option_map, option_copied};
ghost use Rattle.moo_value.specs.Compare.{folded};
ghost use Rattle.moo_value.specs.View.{tree};
ghost use Rattle.moo_syntax_ast.specs.NameNumber.{name_number};
ghost use Rattle.moo_world_object.specs.BuiltIn.{built_in_name, built_in_of};
ghost use Rattle.moo_world_object.specs.declared.built_in_property.BuiltInProperty.{BuiltInProperty as Property};
ghost use Rattle.moo_world_object.specs.Cells.{cell_named};
ghost use Rattle.moo_world_table.specs.World.{object_of, thing_of};
ghost use Rattle.moo_world_table.specs.Properties.{read};
ghost use Rattle.moo_world.specs.ByRight.{readable_at, readable_value, IsReadable};
ghost use Rattle.moo_world.specs.Calls.{number_of};
ghost use Rattle.moo_world.specs.NamedProperties.{built_in_value};

use crate::World;
use moo_syntax_ast::{Text, is_code};
use moo_value::Value;
use moo_world_object::{BuiltInProperty, PropCell, place_known};
use moo_world_table::properties::cells_in;
use moo_world_table::written::{nearest_written, place_written};
use std::alloc::Global;

impl World {
    /// Returns the value of a property that is not built in and whose name is a literal, if the programmer may read
    /// it.
    #[inline(always)]
    pub fn readable_written(&self, programmer: i32, o: i32, name: &Text) -> Option<&Value>
        ensures value { option_map tree (option_copied result) ≡ readable_value self.now programmer (number_of self.now.objects o) (folded name.now) }
        ensures right { IfSome result (λ v. IsReadable self.now programmer o name.now (tree v.now)) }
    {
        match self.number(o) {
            Some(x) => self.readable_written_from(programmer, x, name),
            None => None,
        }
    }

    #[inline(always)]
    fn readable_written_from(&self, programmer: i32, x: usize, name: &Text) -> Option<&Value>
        requires { IsSome (object_of self.now.objects x) }
        ensures { option_map tree (option_copied result) ≡ readable_at self.now programmer x (folded name.now) }
    {
        let found = self.cell_written(x, name);
        match self.readable_cell(programmer, x, name.string().as_bytes(), found) {
            Some(cell) => self.value_written(x, cell, name),
            None => None,
        }
    }

    /// Returns the value of a property as `readable_written` does, if the hint at its name leads to its cell. `None` if not,
    /// if it is built in, or if the programmer may not read it. Inlined for names whose number is a code, which need no
    /// comparison of bytes.
    #[inline(always)]
    pub fn readable_known(&self, programmer: i32, o: i32, name: &Text) -> Option<&Value>
        ensures { IfSome result (λ v. IsReadable self.now programmer o name.now (tree v.now)) }
    {
        if is_code(name.number()) {
            self.readable_noted(programmer, o, name)
        } else {
            self.readable_hashed(programmer, o, name)
        }
    }

    #[inline(never)]
    fn readable_hashed(&self, programmer: i32, o: i32, name: &Text) -> Option<&Value>
        ensures { IfSome result (λ v. IsReadable self.now programmer o name.now (tree v.now)) }
    {
        self.readable_noted(programmer, o, name)
    }

    #[inline(always)]
    fn readable_noted(&self, programmer: i32, o: i32, name: &Text) -> Option<&Value>
        ensures { IfSome result (λ v. IsReadable self.now programmer o name.now (tree v.now)) }
    {
        let x = self.number(o)?;
        self.readable_noted_from(programmer, x, name)
    }

    #[inline(always)]
    fn readable_noted_from(&self, programmer: i32, x: usize, name: &Text) -> Option<&Value>
        requires { IsSome (object_of self.now.objects x) }
        ensures { IfSome result (λ v. readable_at self.now programmer x (folded name.now) ≡ Some (tree v.now)) }
    {
        let cell = self.cell_known(x, name)?;
        let cell = self.readable_cell(programmer, x, name.string().as_bytes(), Some(cell))?;
        self.value_written(x, cell, name)
    }

    // Returns a valid object's cell of a name that is a literal, if the hint at the name leads to it.
    #[inline(always)]
    fn cell_known(&self, x: usize, name: &Text) -> Option<&PropCell>
        requires { IsSome (object_of self.now.objects x) }
        ensures { IfSome result (λ cell. cell_named (thing_of self.now.objects x).cells (folded name.now) ≡ Some cell.now) }
    {
        self.is_well_formed();
        let cells = cells_in(&self.objects[x]);
        let place = place_known(cells, name)?;
        Some(&cells[place])
    }

    // Returns a valid object's cell of a name that is a literal.
    #[inline(always)]
    fn cell_written(&self, x: usize, name: &Text) -> Option<&PropCell>
        requires { IsSome (object_of self.now.objects x) }
        ensures { option_copied result ≡ cell_named (thing_of self.now.objects x).cells (folded name.now) }
    {
        self.is_well_formed();
        let cells = cells_in(&self.objects[x]);
        match place_written(cells, name) {
            Some(place) => Some(&cells[place]),
            None => None,
        }
    }

    // Returns the value for a valid object's cell of a name that is a literal.
    #[inline(always)]
    fn value_written<'a>(&'a self, x: usize, cell: &'a PropCell, name: &Text) -> Option<&'a Value>
        requires valid { IsSome (object_of self.now.objects x) }
        requires named { cell_named (thing_of self.now.objects x).cells (folded name.now) ≡ Some cell.now }
        ensures { option_map tree (option_copied result) ≡ read self.now x (folded name.now) }
    {
        self.is_well_formed();
        match cell.value() {
            Some(value) => Some(value),
            None => nearest_written(&self.objects, &self.inheritance, x, cell.definer(), name),
        }
    }

    /// Returns the value of a built-in property whose name is a literal; everyone may read it. `None` for another name,
    /// for an object that isn't valid, or if memory is missing.
    #[inline(always)]
    pub fn built_in_value(&self, alloc: Global, o: i32, name: &Text) -> Option<Value>
        ensures { IfSome result (λ v. (programmer : ℤ) → IsReadable self.now programmer o name.now (tree v)) }
    {
        let property = built_in_written(name)?;
        self.value_built_in(alloc, o, property)
    }

    // Returns the value of a built-in property, as `built_in_value` does.
    #[inline(never)]
    fn value_built_in(&self, alloc: Global, o: i32, property: BuiltInProperty) -> Option<Value>
        ensures { IfSome result (λ v. (x : ℕ) × (number_of self.now.objects o ≡ Some x) × (tree v ≡ built_in_value self.now x property)) }
    {
        let x = self.number(o)?;
        match self.get_built_in(alloc, x, property) {
            Ok(value) => Some(value),
            Err(_) => None,
        }
    }
}

// Returns the built-in property of a name that is a literal. It compares the numbers of names.
#[inline(always)]
fn built_in_written(name: &Text) -> Option<BuiltInProperty>
    ensures { IfSome result (λ property. built_in_of (folded name.now) ≡ Some property) }
{
    let number = name.number();
    let property = property_numbered(number)?;
    if is_code(number) {
        Some(property)
    } else {
        None
    }
}

// Returns the built-in property whose name has this number.
#[inline(always)]
fn property_numbered(number: u64) -> Option<BuiltInProperty>
    ensures some { IfSome result (λ property. name_number (built_in_name property) ≡ number) }
    ensures none { IfNone result ((property : Property) → name_number (built_in_name property) ≢ number) }
{
    match number {
        18 => Some(BuiltInProperty::Read),
        23 => Some(BuiltInProperty::Write),
        6 => Some(BuiltInProperty::Fertile),
        293_184 => Some(BuiltInProperty::Name),
        37_827_913 => Some(BuiltInProperty::Owner),
        354_565_901 => Some(BuiltInProperty::Wizard),
        1_647_737_081_066 => Some(BuiltInProperty::Location),
        2_235_235_633_189 => Some(BuiltInProperty::Contents),
        2_997_155_445_344_512 => Some(BuiltInProperty::Programmer),
        _ => None,
    }
}
