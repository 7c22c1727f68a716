//! Object numbers: which are valid, and the highest one.

ghost use Rattle.std.specs.Prelude.{◌≡◌, [], Option, length, IsSome, is_some};
ghost use Rattle.std.specs.Option.{ForSome};
ghost use Rattle.moo_world_table.specs.World.{object_of, IsWellFormed};
ghost use Rattle.moo_world.specs.Calls.{number_of, place_of, highest};

use crate::World;
use moo_world_tree::Forest;
use std::alloc::Global;

impl World {
    /// Returns a world without objects and players.
    pub fn empty(alloc: Global) -> Self
        ensures { result ≡ record { objects = []; inheritance = []; containment = []; players = [] } }
    {
        World {
            objects: Vec::new(alloc),
            inheritance: Forest::new(alloc),
            containment: Forest::new(alloc),
            players: Vec::new(alloc),
            programs: 0,
        }
    }

    /// Provides to the proof the invariant that every world keeps.
    pub fn is_well_formed(&self)
        ensures { IsWellFormed self.now }
    {
        let _objects = &self.objects;
    }

    /// Returns whether a number is that of an object.
    pub fn valid(&self, o: i32) -> bool
        ensures { result ≡ is_some (number_of self.now.objects o) }
    {
        self.number(o).is_some()
    }

    /// Returns the highest number that was given out, -1 for none.
    pub fn max_object(&self) -> i32
        ensures { result ≡ highest (length self.now.objects) }
    {
        self.is_well_formed();
        self.objects.len() as i32 - 1
    }

    /// Returns the number of a valid object, as an index.
    pub(crate) fn number(&self, o: i32) -> Option<usize>
        ensures value { result ≡ number_of self.now.objects o }
        ensures valid { ForSome result (λ x. IsSome (object_of self.now.objects x)) }
    {
        if o < 0 {
            return None;
        }
        let number = o as usize;
        match self.objects.get(number) {
            Some(Some(_)) => Some(number),
            _ => None,
        }
    }

    /// Returns a place: a valid object, or none for #-1.
    pub(crate) fn place(&self, o: i32) -> Option<Option<usize>>
        ensures value { result ≡ place_of self.now.objects o }
        ensures valid { ForSome result (λ to. ForSome to (λ up. IsSome (object_of self.now.objects up))) }
    {
        if o == -1 {
            return Some(None);
        }
        Some(Some(self.number(o)?))
    }
}
