//! Borrowed views of a world: its objects, and the trees that join them. Nothing here allocates.

ghost use Rattle.std.specs.Prelude.{◌≡◌, ◌<◌, IsSome, IfSome};
ghost use Rattle.std.specs.Option.{option_copied, option_map};
ghost use Rattle.std.specs.List.{All};
ghost use Rattle.moo_world_tree.specs.Forest.{above_of, below_of};
ghost use Rattle.moo_world_table.specs.World.{object_of, most};
ghost use Rattle.moo_world.specs.NamedProperties.{number_of_place};
ghost use Rattle.moo_world.specs.Numbered.{object_numbered};
ghost use Rattle.moo_world.specs.Calls.{number_of};

use crate::World;
use crate::named::place_number;
use moo_world_object::Object;
use moo_world_tree::{Below, Forest};

impl World {
    /// Returns the objects by their numbers, `None` for a number that is not valid.
    pub fn objects(&self) -> &[Option<Object>]
        ensures { result.now ≡ self.now.objects }
    {
        &self.objects
    }

    /// Returns the tree of parents.
    pub fn inheritance(&self) -> &Forest
        ensures { result.now ≡ self.now.inheritance }
    {
        &self.inheritance
    }

    /// Returns the tree of places.
    pub fn containment(&self) -> &Forest
        ensures { result.now ≡ self.now.containment }
    {
        &self.containment
    }

    /// Returns a valid object by its number: its name, owner, flags, verbs and cells, and the names of the properties
    /// that it defines itself, as spelled.
    pub fn object(&self, o: i32) -> Option<&Object>
        ensures { option_copied result ≡ object_numbered self.now o }
    {
        let x = self.number(o)?;
        self.objects[x].as_ref()
    }

    /// Returns the number of a valid object's parent, -1 for none.
    pub fn parent(&self, o: i32) -> Option<i32>
        ensures { result ≡ option_map (λ x. number_of_place (above_of self.now.inheritance x)) (number_of self.now.objects o) }
    {
        let x = self.number(o)?;
        Some(self.parent_of(x))
    }

    fn parent_of(&self, x: usize) -> i32
        requires { IsSome (object_of self.now.objects x) }
        ensures { result ≡ number_of_place (above_of self.now.inheritance x) }
    {
        place_number(self.inheritance.above(x))
    }

    /// Returns the number of the object that a valid object is in, -1 for none.
    pub fn location(&self, o: i32) -> Option<i32>
        ensures { result ≡ option_map (λ x. number_of_place (above_of self.now.containment x)) (number_of self.now.objects o) }
    {
        let x = self.number(o)?;
        Some(self.location_of(x))
    }

    fn location_of(&self, x: usize) -> i32
        requires { IsSome (object_of self.now.objects x) }
        ensures { result ≡ number_of_place (above_of self.now.containment x) }
    {
        place_number(self.containment.above(x))
    }

    /// Returns the numbers of a valid object's children, the newest last; each is below `MOST`.
    pub fn children(&self, o: i32) -> Option<Below<'_>>
        ensures list { result ≡ option_map (λ x. below_of self.now.inheritance x) (number_of self.now.objects o) }
        ensures low { IfSome result (λ r. All (λ y. y < most) r) }
    {
        let x = self.number(o)?;
        Some(self.children_of(x))
    }

    fn children_of(&self, x: usize) -> Below<'_>
        requires { IsSome (object_of self.now.objects x) }
        ensures list { result ≡ below_of self.now.inheritance x }
        ensures low { All (λ y. y < most) result }
    {
        self.inheritance.below(x)
    }

    /// Returns the numbers of the objects in a valid object, the newest last; each is below `MOST`.
    pub fn contents(&self, o: i32) -> Option<Below<'_>>
        ensures list { result ≡ option_map (λ x. below_of self.now.containment x) (number_of self.now.objects o) }
        ensures low { IfSome result (λ r. All (λ y. y < most) r) }
    {
        let x = self.number(o)?;
        Some(self.contents_of(x))
    }

    fn contents_of(&self, x: usize) -> Below<'_>
        requires { IsSome (object_of self.now.objects x) }
        ensures list { result ≡ below_of self.now.containment x }
        ensures low { All (λ y. y < most) result }
    {
        self.containment.below(x)
    }
}
