//! The verbs of objects.

ghost use Rattle.std.specs.Prelude.{◌≡◌, ◌<◌, length, IsSome, IfOk, OnOk, Option, Some, None, slice_get, FitsSigned};
ghost use Rattle.std.specs.Int.{w32};
ghost use Rattle.std.specs.Option.{option_copied, option_map, option_and_then};
ghost use Rattle.moo_value.specs.Size.{IsString};
ghost use Rattle.moo_world_object.specs.Verbs.{with_verb_info, with_args};
ghost use Rattle.moo_world_table.specs.World.{object_of, thing_of};
ghost use Rattle.moo_world_table.specs.Changes.{with_object, with_verb, without_verb, with_changed_verb};
ghost use Rattle.moo_world.specs.Calls.{Changes, Tests, number_of, TakesNoMemory, RaisesFirst};
ghost use Rattle.moo_world.specs.VerbCalls.{verb_raises, verb_info_raises, add_verb_raises, world_with_object};

use crate::World;
use crate::fault::WorldFault;
use moo_value::{ErrorCode, MooStr};
use moo_world_object::{Verb, VerbArgs, VerbPerms, has_word};
use moo_world_table::MOST;
use moo_world_table::verbs::{
    add_verb_in, remove_verb_in, set_verb_args_in, set_verb_info_in, verb_in, verbs_of,
};

impl World {
    /// Returns a verb of a valid object, by its place.
    pub fn verb(&self, o: i32, index: usize) -> Option<&Verb>
        ensures { option_copied result ≡ option_and_then (λ x. slice_get (thing_of self.now.objects x).verbs index) (number_of self.now.objects o) }
    {
        let x = self.number(o)?;
        self.verb_of(x, index)
    }

    fn verb_of(&self, x: usize, index: usize) -> Option<&Verb>
        requires { IsSome (object_of self.now.objects x) }
        ensures { option_copied result ≡ slice_get (thing_of self.now.objects x).verbs index }
    {
        verb_in(&self.objects[x], index)
    }

    /// Returns Ok if adding a verb with these names raises nothing, else the fault that it raises.
    pub fn try_add_verb(&self, o: i32, names: &MooStr) -> Result<(), WorldFault>
        ensures raises { Tests result (add_verb_raises self.now (number_of self.now.objects o) names.now) }
        ensures memory { TakesNoMemory result }
    {
        match self.number(o) {
            Some(x) => self.test_new_verb(x, names),
            None => Err(WorldFault::Raise(ErrorCode::InvalidArgument)),
        }
    }

    /// Adds a verb without a program after the others, and returns its place, which counts from 0.
    pub fn add_verb(
        &mut self,
        o: i32,
        names: MooStr,
        owner: i32,
        perms: VerbPerms,
        args: VerbArgs,
    ) -> Result<usize, WorldFault>
        ensures world { let x = number_of self.old.objects o in
            Changes result self.old self.new (add_verb_raises self.old x names)
            (world_with_object self.old x (with_verb (record { names = names; owner = owner; perms = perms; args = args; program = None }))) }
        ensures place { IfOk result (λ i. option_map (λ x. length (thing_of self.old.objects x).verbs) (number_of self.old.objects o) ≡ Some i) }
        ensures memory { RaisesFirst result (add_verb_raises self.old (number_of self.old.objects o) names) }
    {
        match self.number(o) {
            Some(x) => self.put_verb(
                x,
                Verb {
                    names,
                    owner,
                    perms,
                    args,
                    program: None,
                },
            ),
            None => Err(WorldFault::Raise(ErrorCode::InvalidArgument)),
        }
    }

    // Adds a verb to a valid object, and returns its place.
    fn put_verb(&mut self, x: usize, verb: Verb) -> Result<usize, WorldFault>
        requires object { IsSome (object_of self.old.objects x) }
        requires bare { verb.program ≡ None }
        requires owner { FitsSigned w32 verb.owner }
        ensures world { Changes result self.old self.new (add_verb_raises self.old (Some x) verb.names) (with_object self.old x (with_verb verb)) }
        ensures place { IfOk result (λ i. i ≡ length (thing_of self.old.objects x).verbs) }
        ensures memory { RaisesFirst result (add_verb_raises self.old (Some x) verb.names) }
    {
        self.test_new_verb(x, &verb.names)?;
        let index = verbs_of(&self.objects[x]).len();
        add_verb_in(&mut self.objects[x], verb)?;
        Ok(index)
    }

    fn test_new_verb(&self, x: usize, names: &MooStr) -> Result<(), WorldFault>
        requires { IsSome (object_of self.now.objects x) }
        ensures raises { Tests result (add_verb_raises self.now (Some x) names.now) }
        ensures string { IsString names.now }
        ensures memory { TakesNoMemory result }
    {
        if !has_word(names.as_bytes()) {
            return Err(WorldFault::Raise(ErrorCode::InvalidArgument));
        }
        if verbs_of(&self.objects[x]).len() >= MOST {
            return Err(WorldFault::Raise(ErrorCode::Quota));
        }
        Ok(())
    }

    /// Returns Ok if an object has a verb at this place, else the fault. Deleting the verb and changing its
    /// specifiers raise the same faults.
    pub fn try_verb(&self, o: i32, index: usize) -> Result<(), WorldFault>
        ensures raises { Tests result (verb_raises self.now (number_of self.now.objects o) index) }
        ensures memory { TakesNoMemory result }
    {
        match self.number(o) {
            Some(x) => self.test_verb(x, index),
            None => Err(WorldFault::Raise(ErrorCode::InvalidArgument)),
        }
    }

    pub(crate) fn test_verb(&self, x: usize, index: usize) -> Result<(), WorldFault>
        requires { IsSome (object_of self.now.objects x) }
        ensures raises { Tests result (verb_raises self.now (Some x) index) }
        ensures memory { TakesNoMemory result }
    {
        if index >= verbs_of(&self.objects[x]).len() {
            return Err(WorldFault::Raise(ErrorCode::VerbNotFound));
        }
        Ok(())
    }

    /// Deletes a verb. Later verbs move up.
    pub fn delete_verb(&mut self, o: i32, index: usize) -> Result<(), WorldFault>
        ensures world { let x = number_of self.old.objects o in
            Changes result self.old self.new (verb_raises self.old x index) (world_with_object self.old x (without_verb index)) }
        ensures memory { TakesNoMemory result }
    {
        match self.number(o) {
            Some(x) => self.remove_verb(x, index),
            None => Err(WorldFault::Raise(ErrorCode::InvalidArgument)),
        }
    }

    fn remove_verb(&mut self, x: usize, index: usize) -> Result<(), WorldFault>
        requires { IsSome (object_of self.old.objects x) }
        ensures world { Changes result self.old self.new (verb_raises self.old (Some x) index) (with_object self.old x (without_verb index)) }
        ensures memory { TakesNoMemory result }
    {
        self.test_verb(x, index)?;
        let programs = self.programs_with(x, index, false);
        remove_verb_in(&mut self.objects[x], index);
        self.programs = programs;
        Ok(())
    }

    /// Returns Ok if giving a verb other names raises nothing, else the fault that it raises.
    pub fn try_set_verb_info(&self, o: i32, index: usize, names: &MooStr) -> Result<(), WorldFault>
        ensures raises { Tests result (verb_info_raises self.now (number_of self.now.objects o) index names.now) }
        ensures memory { TakesNoMemory result }
    {
        match self.number(o) {
            Some(x) => self.test_verb_info(x, index, names),
            None => Err(WorldFault::Raise(ErrorCode::InvalidArgument)),
        }
    }

    fn test_verb_info(&self, x: usize, index: usize, names: &MooStr) -> Result<(), WorldFault>
        requires { IsSome (object_of self.now.objects x) }
        ensures raises { Tests result (verb_info_raises self.now (Some x) index names.now) }
        ensures string { OnOk result (IsString names.now) }
        ensures memory { TakesNoMemory result }
    {
        self.test_verb(x, index)?;
        if !has_word(names.as_bytes()) {
            return Err(WorldFault::Raise(ErrorCode::InvalidArgument));
        }
        Ok(())
    }

    /// Changes a verb's names, owner and permissions.
    pub fn set_verb_info(
        &mut self,
        o: i32,
        index: usize,
        names: MooStr,
        owner: i32,
        perms: VerbPerms,
    ) -> Result<(), WorldFault>
        ensures world { let x = number_of self.old.objects o in
            Changes result self.old self.new (verb_info_raises self.old x index names) (world_with_object self.old x (with_changed_verb index (with_verb_info names owner perms))) }
        ensures memory { TakesNoMemory result }
    {
        match self.number(o) {
            Some(x) => self.change_verb_info(x, index, names, owner, perms),
            None => Err(WorldFault::Raise(ErrorCode::InvalidArgument)),
        }
    }

    fn change_verb_info(
        &mut self,
        x: usize,
        index: usize,
        names: MooStr,
        owner: i32,
        perms: VerbPerms,
    ) -> Result<(), WorldFault>
        requires { IsSome (object_of self.old.objects x) }
        ensures world { Changes result self.old self.new (verb_info_raises self.old (Some x) index names) (with_object self.old x (with_changed_verb index (with_verb_info names owner perms))) }
        ensures memory { TakesNoMemory result }
    {
        self.test_verb_info(x, index, &names)?;
        set_verb_info_in(&mut self.objects[x], index, names, owner, perms);
        Ok(())
    }

    /// Changes a verb's specifiers.
    pub fn set_verb_args(&mut self, o: i32, index: usize, args: VerbArgs) -> Result<(), WorldFault>
        ensures world { let x = number_of self.old.objects o in
            Changes result self.old self.new (verb_raises self.old x index) (world_with_object self.old x (with_changed_verb index (with_args args))) }
        ensures memory { TakesNoMemory result }
    {
        match self.number(o) {
            Some(x) => self.change_verb_args(x, index, args),
            None => Err(WorldFault::Raise(ErrorCode::InvalidArgument)),
        }
    }

    fn change_verb_args(&mut self, x: usize, index: usize, args: VerbArgs) -> Result<(), WorldFault>
        requires { IsSome (object_of self.old.objects x) }
        ensures world { Changes result self.old self.new (verb_raises self.old (Some x) index) (with_object self.old x (with_changed_verb index (with_args args))) }
        ensures memory { TakesNoMemory result }
    {
        self.test_verb(x, index)?;
        set_verb_args_in(&mut self.objects[x], index, args);
        Ok(())
    }
}
