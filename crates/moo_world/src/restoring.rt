//! A world from given parts.

ghost use Rattle.std.specs.Prelude.{◌≡◌};
ghost use Rattle.moo_world_table.specs.World.{World as Contents, IsWellFormed};

use crate::World;
use moo_world_object::Object;
use moo_world_table::verbs::all_programs;
use moo_world_tree::Forest;

impl World {
    /// Returns the world of these objects, trees and players, as a database gives them.
    pub fn from_parts(
        objects: Vec<Option<Object>>,
        inheritance: Forest,
        containment: Forest,
        players: Vec<i32>,
    ) -> Self
        requires { let w : Contents = record { objects = objects.items; inheritance = inheritance; containment = containment; players = players.items } in IsWellFormed w }
        ensures { result ≡ record { objects = objects.items; inheritance = inheritance; containment = containment; players = players.items } }
    {
        let programs = all_programs(&objects);
        World {
            objects,
            inheritance,
            containment,
            players,
            programs,
        }
    }
}
