//! Look-ups along the ancestors of an object: verbs whose names match, and values through clear cells.

ghost use Rattle.std.specs.Prelude.{◌≡◌, ◌<◌, Some, IsSome, IfSome};
ghost use Rattle.std.specs.Option.{option_map, option_and_then};
ghost use Rattle.moo_world_table.specs.Verbs.{verb_found, verb_at_place};
ghost use Rattle.moo_world.specs.VerbCalls.{verb_place, verb_there};
ghost use Rattle.moo_world_object.specs.declared.verb.Need.TheVariants as need;
ghost use Rattle.moo_world.specs.Calls.{number_of};
ghost use Rattle.moo_world_table.specs.World.{object_of, most};

use crate::World;
use moo_syntax_ast::NameKey;
use moo_world_object::{Need, Verb};
use moo_world_table::looking::{nearest_called, nearest_verb};

/// The place of a verb: its object, and its index among the verbs of that object.
#[derive(Clone, Copy, Debug, PartialEq, Eq)]
pub struct VerbAt {
    pub definer: i32,
    pub index: usize,
}

impl World {
    /// Returns the first verb that a name matches, on the nearest of the object and its ancestors that has one. For a
    /// call only executable verbs count.
    pub fn find_verb(&self, o: i32, name: &[u8], need: Need) -> Option<VerbAt>
        ensures { result ≡ option_map verb_place (option_and_then (verb_found self.now need name.now) (number_of self.now.objects o)) }
    {
        self.find_named_verb(o, &NameKey::new(name), need)
    }

    /// Returns the first verb that a name matches, on the nearest of the object and its ancestors that has one. For a
    /// call only executable verbs count.
    pub fn find_named_verb(&self, o: i32, name: &NameKey<'_>, need: Need) -> Option<VerbAt>
        ensures { result ≡ option_map verb_place (option_and_then (verb_found self.now need name.now) (number_of self.now.objects o)) }
    {
        let x = self.number(o)?;
        let (definer, index) = self.verb_from(x, name, need)?;
        Some(VerbAt {
            definer: definer as i32,
            index,
        })
    }

    /// Returns the first executable verb that a name matches, on the nearest of the object and its ancestors that has
    /// one, and the number of the object that has it.
    #[tactic(auto, using(crate::proofs::Called::called_there))]
    #[inline(always)]
    pub fn called_verb(&self, o: i32, name: &NameKey<'_>) -> Option<(i32, &Verb)>
        ensures { option_map (λ found. (found.0, found.1.now)) result ≡ option_and_then (verb_there self.now) (option_map verb_place (option_and_then (verb_found self.now need.Call name.now) (number_of self.now.objects o))) }
    {
        let x = self.number(o)?;
        let (definer, verb) = self.called_from(x, name)?;
        Some((definer as i32, verb))
    }

    #[inline(always)]
    fn called_from(&self, x: usize, name: &NameKey<'_>) -> Option<(usize, &Verb)>
        requires { IsSome (object_of self.now.objects x) }
        ensures value { option_map (λ found. (found.0, found.1.now)) result ≡ option_and_then (verb_at_place self.now.objects) (verb_found self.now need.Call name.now x) }
        ensures low { IfSome result (λ found. found.0 < most) }
    {
        nearest_called(&self.objects, &self.inheritance, x, name)
    }

    fn verb_from(&self, x: usize, name: &NameKey<'_>, need: Need) -> Option<(usize, usize)>
        requires { IsSome (object_of self.now.objects x) }
        ensures value { result ≡ verb_found self.now need name.now x }
        ensures low { IfSome result (λ found. found.0 < most) }
    {
        nearest_verb(&self.objects, &self.inheritance, x, name, need)
    }
}
