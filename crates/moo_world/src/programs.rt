//! The programs of verbs.

ghost use Rattle.std.specs.Prelude.{◌≡◌, IsSome, Some, Option, is_some};
ghost use Rattle.moo_world_object.specs.Verbs.{with_program};
ghost use Rattle.moo_world_table.specs.World.{object_of};
ghost use Rattle.moo_world_table.specs.Changes.{with_object, with_changed_verb};
ghost use Rattle.moo_world_table.specs.Verbs.{programs_with};
ghost use Rattle.moo_world.specs.Calls.{Answers, Changes, Tests, number_of, TakesNoMemory};
ghost use Rattle.moo_world.specs.VerbCalls.{program_raises, world_with_object};

use crate::World;
use crate::fault::WorldFault;
use moo_syntax_program::Program;
use moo_value::ErrorCode;
use moo_world_table::MOST;
use moo_world_table::verbs::{has_program, set_program_in};

impl World {
    /// Returns Ok if giving a verb another program, or removing its program, raises nothing, else the fault that it
    /// raises.
    pub fn try_set_program(&self, o: i32, index: usize, has_program: bool) -> Result<(), WorldFault>
        ensures raises { Tests result (program_raises self.now (number_of self.now.objects o) index has_program) }
        ensures memory { TakesNoMemory result }
    {
        match self.number(o) {
            Some(x) => {
                let _programs = self.test_program(x, index, has_program)?;
                Ok(())
            }
            None => Err(WorldFault::Raise(ErrorCode::InvalidArgument)),
        }
    }

    /// Gives a verb another program, or none.
    pub fn set_program(
        &mut self,
        o: i32,
        index: usize,
        program: Option<Program>,
    ) -> Result<(), WorldFault>
        ensures world { let x = number_of self.old.objects o in
            Changes result self.old self.new (program_raises self.old x index (is_some program)) (world_with_object self.old x (with_changed_verb index (with_program program))) }
        ensures memory { TakesNoMemory result }
    {
        match self.number(o) {
            Some(x) => self.change_program(x, index, program),
            None => Err(WorldFault::Raise(ErrorCode::InvalidArgument)),
        }
    }

    // Returns how many programs there would be if a verb had one, or none.
    pub(crate) fn programs_with(&self, x: usize, index: usize, has_program_then: bool) -> usize
        requires { IsSome (object_of self.now.objects x) }
        ensures { result ≡ programs_with self.now x index has_program_then }
    {
        self.programs - usize::from(has_program(&self.objects[x], index))
            + usize::from(has_program_then)
    }

    // Returns how many programs there would be if a verb had one, or none. Err is the fault that the change raises.
    fn test_program(&self, x: usize, index: usize, has_program: bool) -> Result<usize, WorldFault>
        requires { IsSome (object_of self.now.objects x) }
        ensures programs { Answers result (program_raises self.now (Some x) index has_program) (λ n. n ≡ programs_with self.now x index has_program) }
        ensures memory { TakesNoMemory result }
    {
        self.test_verb(x, index)?;
        let programs = self.programs_with(x, index, has_program);
        if programs > MOST {
            return Err(WorldFault::Raise(ErrorCode::Quota));
        }
        Ok(programs)
    }

    // Gives a verb of a valid object another program, or none.
    fn change_program(
        &mut self,
        x: usize,
        index: usize,
        program: Option<Program>,
    ) -> Result<(), WorldFault>
        requires { IsSome (object_of self.old.objects x) }
        ensures world { Changes result self.old self.new (program_raises self.old (Some x) index (is_some program)) (with_object self.old x (with_changed_verb index (with_program program))) }
        ensures memory { TakesNoMemory result }
    {
        let programs = self.test_program(x, index, program.is_some())?;
        set_program_in(&mut self.objects[x], index, program);
        self.programs = programs;
        Ok(())
    }
}
