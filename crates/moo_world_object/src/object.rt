//! An object without its relations to others.
ghost use Rattle.std.specs.Prelude.{◌≡◌, ◌<◌, IfOk, OnOk, OnErr, [], ◌∷◌, ◌++◌, length, filter, map, not, position, slice_set};
ghost use Rattle.std.specs.List.{list_any};
ghost use Rattle.moo_value.specs.Compare.{folded};
ghost use Rattle.moo_world_object.specs.Names.{same_name};
ghost use Rattle.moo_world_object.specs.Flags.{no_flags};
ghost use Rattle.moo_world_object.specs.Cells.{cleared};
ghost use Rattle.moo_world_object.specs.Rows.{put_before};

mod cells;
mod verbs;

use crate::cell::PropCell;
use crate::flags::Flags;
use crate::name::{defines_name, forget_name, position_of_name, put_name};
use crate::row::Row;
use crate::verb::Verb;
use crate::verb_list::VerbList;
use moo_value::MooStr;
use std::alloc::{AllocError, Global};
use std::marker::Model;

/// An object without its relations to others: its parent, its location, its children and its contents.
#[derive(Drop)]
pub struct Object {
    name: MooStr,
    owner: i32,
    flags: Flags,
    verbs: VerbList,
    defined: Vec<MooStr>,
    cells: Row,
}

impl Model for Object {
    ghost use Rattle.moo_world_object.specs.Objects.{Object as Contents};
    ghost use Rattle.std.specs.Coded.{codes};
    ghost use Rattle.moo_value.specs.TreeCode.{tree_code};
    ghost use Rattle.moo_syntax_ast.specs.Code.{block_code};

    ghost Value = { Contents };

    ghost coded = { Prim.hlevel (codes, tree_code, block_code (Prim.hlevel codes)) };

    ghost view = { λ o. record {
      name = o.name;
      owner = o.owner;
      flags = o.flags;
      verbs = o.verbs;
      defined = o.defined.items;
      cells = o.cells;
    } };
}

impl Object {
    /// Makes an object without verbs, definitions and cells.
    pub fn new(alloc: Global, name: MooStr, owner: i32, flags: Flags) -> Object
        ensures { result ≡ record { name = name; owner = owner; flags = flags; verbs = []; defined = []; cells = [] } }
    {
        Object {
            name,
            owner,
            flags,
            verbs: VerbList::new(alloc),
            defined: Vec::new(alloc),
            cells: Row::new(alloc),
        }
    }

    /// Makes the object of these parts. The cells are those of its own definitions, then its parent's, and so on.
    pub fn from_parts(
        name: MooStr,
        owner: i32,
        flags: Flags,
        verbs: Vec<Verb>,
        defined: Vec<MooStr>,
        cells: Row,
    ) -> Object
        ensures { result ≡ record { name = name; owner = owner; flags = flags; verbs = verbs.items; defined = defined.items; cells = cells } }
    {
        Object {
            name,
            owner,
            flags,
            verbs: VerbList::from_verbs(verbs),
            defined,
            cells,
        }
    }

    /// Makes a new child of a parent that has these cells. It has an empty name and no flags, and its cells are clear.
    pub fn child(alloc: Global, owner: i32, above: &[PropCell]) -> Result<Object, AllocError>
        ensures { IfOk result (λ o. o ≡ record { name = []; owner = owner; flags = no_flags; verbs = []; defined = []; cells = map (cleared owner) above.now }) }
    {
        let mut cells = Vec::with_capacity(alloc, above.len())?;
        for cell in above {
            cells.push(cell.cleared(owner)?)?;
        }
        Ok(Object {
            name: empty_name(alloc)?,
            owner,
            flags: Flags::none(),
            verbs: VerbList::new(alloc),
            defined: Vec::new(alloc),
            cells: Row::from_cells(cells),
        })
    }

    /// Returns the name, as spelled.
    pub fn name(&self) -> &MooStr
        ensures { result.now ≡ self.now.name }
    {
        &self.name
    }

    /// Returns the number of the owner, which may be any number.
    pub fn owner(&self) -> i32
        ensures { result ≡ self.now.owner }
    {
        self.owner
    }

    /// Returns the flags.
    pub fn flags(&self) -> Flags
        ensures { result ≡ self.now.flags }
    {
        self.flags
    }

    /// Returns the names of the object's own definitions, in order, as spelled.
    pub fn defined(&self) -> &[MooStr]
        ensures { result.now ≡ self.now.defined }
    {
        &self.defined
    }

    /// Sets the name.
    pub fn set_name(&mut self, name: MooStr)
        ensures { self.new ≡ record self.old { name = name } }
    {
        self.name = name;
    }

    /// Sets the owner.
    pub fn set_owner(&mut self, owner: i32)
        ensures { self.new ≡ record self.old { owner = owner } }
    {
        self.owner = owner;
    }

    /// Sets the flags.
    pub fn set_flags(&mut self, flags: Flags)
        ensures { self.new ≡ record self.old { flags = flags } }
    {
        self.flags = flags;
    }

    /// Appends a definition, and inserts its cell before the last `following` cells. Out of memory nothing changes.
    pub fn define(
        &mut self,
        name: MooStr,
        cell: PropCell,
        following: usize,
    ) -> Result<(), AllocError>
        ensures ok { OnOk result (self.new ≡ record self.old { defined = self.old.defined ++ name ∷ []; cells = put_before following cell self.old.cells }) }
        ensures err { OnErr result (self.new ≡ self.old) }
    {
        self.defined.push(name)?;
        if let Err(fault) = self.cells.insert(cell, following) {
            let _name = self.defined.pop();
            return Err(fault);
        }
        Ok(())
    }

    /// Is true if the object itself defines a property of this name, in any case.
    pub fn defines(&self, name: &[u8]) -> bool
        ensures { result ≡ list_any (λ n. same_name (folded name.now) (folded n)) self.now.defined }
    {
        defines_name(&self.defined, name)
    }

    /// Returns the place of the object's own definition of this name, in any case.
    pub fn definition_position(&self, name: &[u8]) -> Option<usize>
        ensures { result ≡ position (λ n. same_name (folded name.now) (folded n)) self.now.defined }
    {
        position_of_name(&self.defined, name)
    }

    /// Renames the definition at a place. Its cells keep their name.
    pub fn rename_definition(&mut self, index: usize, name: MooStr)
        requires { index < length self.old.defined }
        ensures { self.new ≡ record self.old { defined = slice_set self.old.defined index name } }
    {
        put_name(&mut self.defined, index, name);
    }

    /// Removes a name from those that the object defines.
    pub fn forget(&mut self, name: &[u8])
        ensures { self.new ≡ record self.old { defined = filter (λ n. not (same_name (folded name.now) (folded n))) self.old.defined } }
    {
        forget_name(&mut self.defined, name);
    }
}

/// Returns the name of a new object.
fn empty_name(alloc: Global) -> Result<MooStr, AllocError>
    ensures { IfOk result (λ name. name ≡ []) }
{
    MooStr::try_from_bytes(alloc, b"").map_err(|_| AllocError)
}
