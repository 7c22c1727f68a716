//! The cells of properties.
ghost use Rattle.std.specs.Prelude.{◌≡◌, ◌≤◌, IfOk, IfSome, IfNone, None, Some, is_some};
ghost use Rattle.std.specs.Option.{option_copied, option_map};
ghost use Rattle.moo_value.specs.Compare.{folded};
ghost use Rattle.moo_value.specs.View.{tree};
ghost use Rattle.moo_syntax_ast.specs.NameNumber.{name_number};
ghost use Rattle.moo_world_object.specs.BuiltIn.{built_in_of};
ghost use Rattle.moo_world_object.specs.Cells.{is_key, is_named, key_of, cleared, own_cell, emptied, with_info, renamed};

use crate::bits::{bit, take_bit};
use crate::built_in_property::built_in;
use crate::name::{folded_name, same_hashed_name, same_name};
use moo_syntax_ast::{Text, is_code, name_number};
use moo_value::{MooStr, Value};
use std::alloc::{AllocError, Global};
use std::marker::Model;

/// The permissions of a property for others than its owner and wizards: to read it, to write it, and to own the cells
/// of new descendants.
#[derive(Clone, Copy, Debug, PartialEq, Eq)]
pub struct PropPerms {
    pub read: bool,
    pub write: bool,
    pub change_owner: bool,
}

impl PropPerms {
    ghost use Rattle.moo_world_object.specs.Numbers.{prop_perms_number};

    /// Returns the permissions as bits: 1 read, 2 write, 4 change of owner.
    pub fn number(self) -> u8
        ensures { result ≡ prop_perms_number self }
    {
        bit(self.read, 1) + bit(self.write, 2) + bit(self.change_owner, 4)
    }

    /// Returns the permissions that have this number, or `None` if it is above 7.
    pub fn from_number(number: u8) -> Option<PropPerms>
        ensures found { IfSome result (λ perms. prop_perms_number perms ≡ number) }
        ensures none { IfNone result (8 ≤ number) }
    {
        let mut bits = number;
        let perms = PropPerms {
            read: take_bit(&mut bits),
            write: take_bit(&mut bits),
            change_owner: take_bit(&mut bits),
        };
        if bits == 0 { Some(perms) } else { None }
    }
}

/// An object's cell of a property definition: clear, or with a value.
#[derive(Drop)]
pub struct PropCell {
    definer: usize,
    name: MooStr,
    // The number of the name.
    number: u64,
    owner: i32,
    perms: PropPerms,
    // Whether a built-in property has the same name and hides this one.
    is_hidden: bool,
    value: Option<Value>,
}

impl Model for PropCell {
    ghost use Rattle.moo_world_object.specs.Cells.{Cell};
    ghost use Rattle.std.specs.Prelude.{◌≡◌, is_some};
    ghost use Rattle.std.specs.Option.{option_map};
    ghost use Rattle.moo_value.specs.Compare.{folded};
    ghost use Rattle.moo_value.specs.View.{tree};
    ghost use Rattle.moo_world_object.specs.BuiltIn.{built_in_of};
    ghost use Rattle.std.specs.Coded.{codes};
    ghost use Rattle.moo_value.specs.TreeCode.{tree_code};

    ghost Value = { Cell };

    ghost coded = { Prim.hlevel (codes, tree_code) };

    ghost view = { λ c. record {
      definer = c.definer;
      name = folded c.name;
      owner = c.owner;
      perms = c.perms;
      value = option_map tree c.value;
    } };

    ghost use Rattle.moo_syntax_ast.specs.NameNumber.{name_number};

    ghost invariant = { λ c. (c.is_hidden ≡ is_some (built_in_of (folded c.name))) × (c.number ≡ name_number (folded c.name)) };
}

impl PropCell {
    /// Makes the cell of a definition: clear if there is no value.
    pub fn new(
        definer: usize,
        name: MooStr,
        value: Option<Value>,
        owner: i32,
        perms: PropPerms,
    ) -> PropCell
        ensures { result ≡ record { definer = definer; name = folded name; owner = owner; perms = perms; value = option_map tree value } }
    {
        let is_hidden = built_in(name.as_bytes()).is_some();
        let number = name_number(name.as_bytes());
        PropCell {
            definer,
            name,
            number,
            owner,
            perms,
            is_hidden,
            value,
        }
    }

    /// Makes the cell of an object's own definition.
    pub fn defined(
        definer: usize,
        name: MooStr,
        value: Value,
        owner: i32,
        perms: PropPerms,
    ) -> PropCell
        ensures { result ≡ own_cell definer (folded name) (tree value) owner perms }
    {
        let is_hidden = built_in(name.as_bytes()).is_some();
        let number = name_number(name.as_bytes());
        PropCell {
            definer,
            name,
            number,
            owner,
            perms,
            is_hidden,
            value: Some(value),
        }
    }

    /// Returns the number of the object that has the definition.
    pub fn definer(&self) -> usize
        ensures { result ≡ self.now.definer }
    {
        self.definer
    }

    /// Is true if this is the cell of that object's definition of this name, in any case.
    pub fn is_for(&self, definer: usize, name: &[u8]) -> bool
        ensures { result ≡ is_key (definer, folded name.now) self.now }
    {
        self.definer == definer && same_name(self.name.as_bytes(), name)
    }

    /// Is true if a built-in property has the same name and hides this one.
    pub fn is_hidden(&self) -> bool
        ensures { result ≡ is_some (built_in_of self.now.name) }
    {
        self.is_hidden
    }

    /// Is true if the cell has this name, in any case.
    pub fn is_named(&self, name: &[u8]) -> bool
        ensures { result ≡ is_named (folded name.now) self.now }
    {
        same_name(self.name.as_bytes(), name)
    }

    /// Is true if the cell has the literal's name, in any case.
    #[inline(always)]
    pub fn is_named_as(&self, name: &Text) -> bool
        ensures { result ≡ is_named (folded name.now) self.now }
    {
        self.is_numbered(name.number(), name.string().as_bytes())
    }

    /// Is true if the cell has the name with this number, in any case. It compares bytes only if the numbers of both are
    /// one hash.
    #[inline(always)]
    pub(crate) fn is_numbered(&self, number: u64, name: &[u8]) -> bool
        requires { number ≡ name_number (folded name.now) }
        ensures { result ≡ is_named (folded name.now) self.now }
    {
        if self.number != number {
            return false;
        }
        if is_code(self.number) {
            return true;
        }
        same_hashed_name(self.name.as_bytes(), name)
    }

    /// Is true if this and the other are cells of the same definition.
    pub fn has_key_of(&self, other: &PropCell) -> bool
        ensures { result ≡ is_key (key_of other.now) self.now }
    {
        self.is_for(other.definer, other.name.as_bytes())
    }

    /// Returns the name of the definition in lower case.
    pub fn folded_name(&self, alloc: Global) -> Result<MooStr, AllocError>
        ensures { IfOk result (λ name. name ≡ self.now.name) }
    {
        folded_name(alloc, &self.name)
    }

    /// Returns the number of the owner, which may be any number.
    pub fn owner(&self) -> i32
        ensures { result ≡ self.now.owner }
    {
        self.owner
    }

    /// Returns the permissions for others than the owner and wizards.
    pub fn perms(&self) -> PropPerms
        ensures { result ≡ self.now.perms }
    {
        self.perms
    }

    /// Returns the value, or `None` if the cell is clear.
    pub fn value(&self) -> Option<&Value>
        ensures { option_map tree (option_copied result) ≡ self.now.value }
    {
        self.value.as_ref()
    }

    /// Returns the clear cell that a new descendant with this owner gets from its parent's cell.
    pub fn cleared(&self, owner: i32) -> Result<PropCell, AllocError>
        ensures { IfOk result (λ c. c ≡ cleared owner self.now) }
    {
        Ok(PropCell {
            definer: self.definer,
            name: self.name.try_clone()?,
            number: self.number,
            owner: if self.perms.change_owner {
                owner
            } else {
                self.owner
            },
            perms: self.perms,
            is_hidden: self.is_hidden,
            value: None,
        })
    }

    /// Returns a clone, which shares a string or a list in the cell.
    pub fn try_clone(&self) -> Result<PropCell, AllocError>
        ensures { IfOk result (λ c. c ≡ self.now) }
    {
        let value = match &self.value {
            Some(value) => Some(value.try_clone()?),
            None => None,
        };
        Ok(PropCell {
            definer: self.definer,
            name: self.name.try_clone()?,
            number: self.number,
            owner: self.owner,
            perms: self.perms,
            is_hidden: self.is_hidden,
            value,
        })
    }

    /// Sets the value.
    #[inline(always)]
    pub fn set_value(&mut self, value: Value)
        ensures { self.new ≡ record self.old { value = Some (tree value) } }
    {
        self.value = Some(value);
    }

    /// Makes the cell clear.
    pub fn clear(&mut self)
        ensures { self.new ≡ emptied self.old }
    {
        self.value = None;
    }

    /// Sets the owner and the permissions.
    pub fn set_info(&mut self, owner: i32, perms: PropPerms)
        ensures { self.new ≡ with_info owner perms self.old }
    {
        self.owner = owner;
        self.perms = perms;
    }

    /// Sets the name.
    pub fn set_name(&mut self, name: MooStr)
        ensures { self.new ≡ renamed (folded name) self.old }
    {
        self.is_hidden = built_in(name.as_bytes()).is_some();
        self.number = name_number(name.as_bytes());
        self.name = name;
    }
}
