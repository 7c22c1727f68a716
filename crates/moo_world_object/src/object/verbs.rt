//! The verbs of an object.
ghost use Rattle.std.specs.Prelude.{◌≡◌, ◌<◌, OnOk, OnErr, [], ◌∷◌, ◌++◌, length, position, slice_get};
ghost use Rattle.std.specs.Option.{option_copied};
ghost use Rattle.std.specs.List.{remove};
ghost use Rattle.moo_world_object.specs.Verbs.{fits_verb, changed_at, with_verb_info, with_args, with_program};

use crate::object::Object;
use crate::verb::{Need, Verb, VerbPerms};
use crate::verb_args::VerbArgs;
use moo_syntax_ast::NameKey;
use moo_syntax_program::Program;
use moo_value::MooStr;
use std::alloc::AllocError;

impl Object {
    /// Returns the verbs, in order.
    pub fn verbs(&self) -> &[Verb]
        ensures { result.now ≡ self.now.verbs }
    {
        self.verbs.as_slice()
    }

    /// Returns the verb at a place, counted from 0, or `None` if there is none.
    pub fn verb(&self, index: usize) -> Option<&Verb>
        ensures { option_copied result ≡ slice_get self.now.verbs index }
    {
        self.verbs.as_slice().get(index)
    }

    /// Returns the place of the first verb that a name matches. For a call only executable verbs count.
    pub fn verb_position(&self, need: Need, name: &[u8]) -> Option<usize>
        ensures { result ≡ position (fits_verb need name.now) self.now.verbs }
    {
        self.verbs.position(need, name)
    }

    /// Returns the place of the first verb that a name matches. For a call only executable verbs count.
    #[inline(always)]
    pub fn verb_position_named(&self, need: Need, name: &NameKey<'_>) -> Option<usize>
        ensures { result ≡ position (fits_verb need name.now) self.now.verbs }
    {
        self.verbs.position_named(need, name)
    }

    /// Appends a verb. Out of memory nothing changes.
    pub fn add_verb(&mut self, verb: Verb) -> Result<(), AllocError>
        ensures ok { OnOk result (self.new ≡ record self.old { verbs = self.old.verbs ++ verb ∷ [] }) }
        ensures err { OnErr result (self.new ≡ self.old) }
    {
        self.verbs.push(verb)
    }

    /// Removes the verb at a place.
    pub fn delete_verb(&mut self, index: usize)
        requires { index < length self.old.verbs }
        ensures { self.new ≡ record self.old { verbs = remove self.old.verbs index } }
    {
        self.verbs.remove(index);
    }

    /// Sets the names, the owner and the permissions of the verb at a place.
    pub fn set_verb_info(&mut self, index: usize, names: MooStr, owner: i32, perms: VerbPerms)
        requires { index < length self.old.verbs }
        ensures { self.new ≡ record self.old { verbs = changed_at index (with_verb_info names owner perms) self.old.verbs } }
    {
        self.verbs.set_info(index, names, owner, perms);
    }

    /// Sets the argument specifiers of the verb at a place.
    pub fn set_verb_args(&mut self, index: usize, args: VerbArgs)
        requires { index < length self.old.verbs }
        ensures { self.new ≡ record self.old { verbs = changed_at index (with_args args) self.old.verbs } }
    {
        self.verbs.set_args(index, args);
    }

    /// Sets the program of the verb at a place, or removes it.
    pub fn set_program(&mut self, index: usize, program: Option<Program>)
        requires { index < length self.old.verbs }
        ensures { self.new ≡ record self.old { verbs = changed_at index (with_program program) self.old.verbs } }
    {
        self.verbs.set_program(index, program);
    }
}
