//! Changes the owners, permissions and names of properties.

ghost use Rattle.std.specs.Prelude.{◌≡◌, IsSome, Some, None, OnOk, OnErr};
ghost use Rattle.std.specs.Option.{option_copied};
ghost use Rattle.moo_value.specs.Compare.{folded};
ghost use Rattle.moo_world_table.specs.World.{object_of};
ghost use Rattle.moo_world_table.specs.Changes.{with_object};
ghost use Rattle.moo_world_table.specs.Properties.{definition_named};
ghost use Rattle.moo_world_table.specs.Edits.{with_cell_info};
ghost use Rattle.moo_world_table.specs.Renames.{after_rename};
ghost use Rattle.moo_world_table.specs.Steps.{IsRenamable};
ghost use Rattle.moo_world.specs.InfoCalls.{taken_raises, rename_raises, info_change_raises, set_info_raises, after_info, world_set_info};
ghost use Rattle.moo_world.specs.Calls.{Answers, Changes, Tests, number_of, TakesNoMemory};

use crate::World;
use crate::fault::WorldFault;
use moo_value::{ErrorCode, MooStr};
use moo_world_object::{PropPerms, built_in, same_name};
use moo_world_table::defining::some_named;
use moo_world_table::editing::set_info_in;
use moo_world_table::properties::definer_in;
use moo_world_table::renaming::{names_along, rename_along, respell_in};
use std::alloc::{AllocError, Global};

impl World {
    /// Returns Ok if changing the info of a property that is not built in, and its name if a new one is given, raises
    /// nothing. Else returns the fault that it raises.
    pub fn try_set_property_info(
        &self,
        alloc: Global,
        o: i32,
        name: &[u8],
        new_name: Option<&MooStr>,
    ) -> Result<(), WorldFault>
        ensures raises { Tests result (set_info_raises self.now (number_of self.now.objects o) (folded name.now) (option_copied new_name.entry)) }
        ensures memory { option_copied new_name.entry ≡ None → TakesNoMemory result }
    {
        match self.number(o) {
            Some(_) if built_in(name).is_some() => {
                Err(WorldFault::Raise(ErrorCode::PropertyNotFound))
            }
            Some(x) => {
                let _definer = self.test_info(alloc, x, name, new_name)?;
                Ok(())
            }
            None => Err(WorldFault::Raise(ErrorCode::InvalidArgument)),
        }
    }

    /// Changes the owner and the permissions of the object's cell of a property that is not built in. A new name
    /// renames its definition, and so the property on the descendants too.
    pub fn set_property_info(
        &mut self,
        alloc: Global,
        o: i32,
        name: &[u8],
        owner: i32,
        perms: PropPerms,
        new_name: Option<MooStr>,
    ) -> Result<(), WorldFault>
        ensures world { let x = number_of self.old.objects o in
            Changes result self.old self.new (set_info_raises self.old x (folded name.now) new_name) (world_set_info self.old x (folded name.now) owner perms new_name) }
        ensures memory { new_name ≡ None → TakesNoMemory result }
    {
        match self.number(o) {
            Some(_) if built_in(name).is_some() => {
                Err(WorldFault::Raise(ErrorCode::PropertyNotFound))
            }
            Some(x) => self.change_info(alloc, x, name, owner, perms, new_name),
            None => Err(WorldFault::Raise(ErrorCode::InvalidArgument)),
        }
    }

    // Returns the object that defines a valid object's property, if the property may have this other name.
    fn test_info(
        &self,
        alloc: Global,
        x: usize,
        name: &[u8],
        new_name: Option<&MooStr>,
    ) -> Result<usize, WorldFault>
        requires { IsSome (object_of self.now.objects x) }
        ensures definer { Answers result (info_change_raises self.now x (option_copied new_name.entry) (definition_named self.now x (folded name.now)))
            (λ definer. definition_named self.now x (folded name.now) ≡ Some (definer, folded name.now)) }
        ensures memory { option_copied new_name.entry ≡ None → TakesNoMemory result }
    {
        let Some(definer) = definer_in(&self.objects[x], name) else {
            return Err(WorldFault::Raise(ErrorCode::PropertyNotFound));
        };
        if let Some(new_name) = new_name {
            self.test_rename(alloc, x, definer, name, new_name.as_bytes())?;
        }
        Ok(definer)
    }

    // Returns Ok if a definition may have another name, else the fault.
    fn test_rename(
        &self,
        alloc: Global,
        x: usize,
        definer: usize,
        name: &[u8],
        new_name: &[u8],
    ) -> Result<(), WorldFault>
        requires { IsSome (object_of self.now.objects x) }
        ensures { Tests result (rename_raises self.now x (definer, folded name.now) (folded new_name.now)) }
    {
        if definer != x {
            return Err(WorldFault::Raise(ErrorCode::InvalidArgument));
        }
        if same_name(new_name, name) {
            return Ok(());
        }
        if built_in(new_name).is_some() {
            return Err(WorldFault::Raise(ErrorCode::InvalidArgument));
        }
        self.test_free(alloc, x, new_name)
    }

    // Returns Ok if a name is free on an object, its ancestors and its descendants, else the fault.
    fn test_free(&self, alloc: Global, x: usize, name: &[u8]) -> Result<(), WorldFault>
        requires { IsSome (object_of self.now.objects x) }
        ensures { Tests result (taken_raises self.now x (folded name.now)) }
    {
        let walk = self.inheritance.walk_down(alloc, x)?;
        if some_named(&self.objects, &walk, name) {
            return Err(WorldFault::Raise(ErrorCode::InvalidArgument));
        }
        Ok(())
    }

    // Changes the info of a property of a valid object.
    fn change_info(
        &mut self,
        alloc: Global,
        x: usize,
        name: &[u8],
        owner: i32,
        perms: PropPerms,
        new_name: Option<MooStr>,
    ) -> Result<(), WorldFault>
        requires { IsSome (object_of self.old.objects x) }
        ensures world { let k = definition_named self.old x (folded name.now) in
            Changes result self.old self.new (info_change_raises self.old x new_name k) (after_info self.old x owner perms new_name k) }
        ensures memory { new_name ≡ None → TakesNoMemory result }
    {
        let definer = self.test_info(alloc, x, name, new_name.as_ref())?;
        match new_name {
            Some(new_name) => {
                let spelling = new_name.as_bytes();
                self.rename(alloc, x, name, &new_name)?;
                self.give_info(x, x, spelling, owner, perms);
            }
            None => self.give_info(x, definer, name, owner, perms),
        }
        Ok(())
    }

    // Renames a definition on an object.
    fn rename(
        &mut self,
        alloc: Global,
        x: usize,
        name: &[u8],
        new_name: &MooStr,
    ) -> Result<(), AllocError>
        requires object { IsSome (object_of self.old.objects x) }
        requires allowed { IsRenamable self.old x (folded name.now) new_name.now }
        ensures ok { OnOk result (self.new ≡ after_rename self.old x (folded name.now) new_name.now) }
        ensures valid { OnOk result (IsSome (object_of self.new.objects x)) }
        ensures err { OnErr result (self.new ≡ self.old) }
    {
        let walk = self.inheritance.walk_down(alloc, x)?;
        let names = names_along(alloc, &walk, new_name)?;
        let spelling = new_name.try_clone()?;
        respell_in(&mut self.objects[x], name, spelling);
        rename_along(&mut self.objects, &walk, x, name, names);
        Ok(())
    }

    fn give_info(&mut self, x: usize, definer: usize, name: &[u8], owner: i32, perms: PropPerms)
        requires { IsSome (object_of self.old.objects x) }
        ensures { self.new ≡ with_object self.old x (with_cell_info (definer, folded name.now) owner perms) }
    {
        set_info_in(&mut self.objects[x], definer, name, owner, perms);
    }
}
