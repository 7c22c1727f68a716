//! The players.

ghost use Rattle.std.specs.Prelude.{◌≡◌, IsSome, Some, false};
ghost use Rattle.moo_world_table.specs.World.{object_of};
ghost use Rattle.moo_world.specs.Calls.{Changes, Tests, number_of, TakesNoMemory, RaisesFirst};
ghost use Rattle.moo_world_table.specs.Players.{after_set_player};
ghost use Rattle.moo_world.specs.PlayerCalls.{set_player_raises, world_set_player};

use crate::World;
use crate::fault::WorldFault;
use moo_value::ErrorCode;
use moo_world_table::players::{list_player, mark_in, too_many};

impl World {
    /// Returns the numbers of the players, in order.
    pub fn players(&self) -> &[i32]
        ensures { result.now ≡ self.now.players }
    {
        &self.players
    }

    /// Returns Ok if setting or clearing an object's player flag raises nothing, else the fault that it raises.
    pub fn try_set_player(&self, o: i32, on: bool) -> Result<(), WorldFault>
        ensures raises { Tests result (set_player_raises self.now (number_of self.now.objects o) on) }
        ensures memory { TakesNoMemory result }
    {
        match self.number(o) {
            Some(x) => self.test_player(x, on),
            None => Err(WorldFault::Raise(ErrorCode::InvalidArgument)),
        }
    }

    /// Makes an object a player, or no player. A new player comes last in the list; one who is no longer a player is
    /// removed from it. The object's flag is set or cleared.
    pub fn set_player(&mut self, o: i32, on: bool) -> Result<(), WorldFault>
        ensures world { let x = number_of self.old.objects o in
            Changes result self.old self.new (set_player_raises self.old x on) (world_set_player self.old x on) }
        ensures memory { on ≡ false → TakesNoMemory result }
        ensures first { RaisesFirst result (set_player_raises self.old (number_of self.old.objects o) on) }
    {
        match self.number(o) {
            Some(x) => self.mark_player(x, on),
            None => Err(WorldFault::Raise(ErrorCode::InvalidArgument)),
        }
    }

    fn test_player(&self, x: usize, on: bool) -> Result<(), WorldFault>
        requires { IsSome (object_of self.now.objects x) }
        ensures raises { Tests result (set_player_raises self.now (Some x) on) }
        ensures memory { TakesNoMemory result }
    {
        self.is_well_formed();
        if too_many(&self.players, x as i32, on) {
            return Err(WorldFault::Raise(ErrorCode::Quota));
        }
        Ok(())
    }

    // Makes a valid object a player, or no player.
    fn mark_player(&mut self, x: usize, on: bool) -> Result<(), WorldFault>
        requires { IsSome (object_of self.old.objects x) }
        ensures world { Changes result self.old self.new (set_player_raises self.old (Some x) on) (after_set_player self.old x on) }
        ensures memory { on ≡ false → TakesNoMemory result }
        ensures first { RaisesFirst result (set_player_raises self.old (Some x) on) }
    {
        self.test_player(x, on)?;
        list_player(&mut self.players, x as i32, on)?;
        mark_in(&mut self.objects[x], on);
        Ok(())
    }
}
