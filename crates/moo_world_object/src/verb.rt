//! The verbs of an object.
ghost use Rattle.std.specs.Prelude.{◌≡◌, ◌<◌, ◌&&◌, ◌≤◌, IfOk, IfSome, IfNone, length};

use crate::bits::{bit, take_bit};
use crate::pattern::fits_names;
use crate::verb_args::VerbArgs;
use moo_syntax_program::Program;
use moo_value::MooStr;
use std::alloc::AllocError;

/// The permissions of a verb for others than its owner and wizards, and whether its errors are raised.
#[derive(Clone, Copy, Debug, PartialEq, Eq)]
pub struct VerbPerms {
    pub read: bool,
    pub write: bool,
    pub execute: bool,
    pub debug: bool,
}

impl VerbPerms {
    ghost use Rattle.moo_world_object.specs.Numbers.{verb_perms_number};

    /// Returns the permissions as bits: 1 read, 2 write, 4 execute, 8 debug.
    pub fn number(self) -> u8
        ensures { result ≡ verb_perms_number self }
    {
        bit(self.read, 1) + bit(self.write, 2) + bit(self.execute, 4) + bit(self.debug, 8)
    }

    /// Returns the permissions that have this number, or `None` if it is above 15.
    pub fn from_number(number: u8) -> Option<VerbPerms>
        ensures found { IfSome result (λ perms. verb_perms_number perms ≡ number) }
        ensures none { IfNone result (16 ≤ number) }
    {
        let mut bits = number;
        let perms = VerbPerms {
            read: take_bit(&mut bits),
            write: take_bit(&mut bits),
            execute: take_bit(&mut bits),
            debug: take_bit(&mut bits),
        };
        if bits == 0 { Some(perms) } else { None }
    }
}

/// A verb. Its names are words with blanks between them.
#[derive(Drop)]
pub struct Verb {
    /// Patterns with blanks between them.
    pub names: MooStr,
    pub owner: i32,
    pub perms: VerbPerms,
    pub args: VerbArgs,
    /// `None` is not the same as an empty program.
    pub program: Option<Program>,
}

/// The purpose of a search for a verb: a call, for which only executable verbs count, or any other.
#[derive(Clone, Copy, Debug, PartialEq, Eq)]
pub enum Need {
    Call,
    Any,
}

ghost use Rattle.moo_world_object.specs.Verbs.{is_needed, fits_verb, with_verb_info, with_args, with_program, changed_at};

impl Verb {
    /// Is true if a name matches the verb's names, in any case. For a call the verb also has to be executable.
    pub fn fits(&self, need: Need, name: &[u8]) -> bool
        ensures { result ≡ fits_verb need name.now self.now }
    {
        self.is_needed(need) && fits_names(self.names.as_bytes(), name)
    }

    #[inline(always)]
    pub(crate) fn is_needed(&self, need: Need) -> bool
        ensures { result ≡ is_needed need self.now }
    {
        match need {
            Need::Call => self.perms.execute,
            Need::Any => true,
        }
    }

    /// Returns a clone, which shares the names and the program.
    pub fn try_clone(&self) -> Result<Verb, AllocError>
        ensures { IfOk result (λ v. v ≡ self.now) }
    {
        let program = match &self.program {
            Some(program) => Some(program.try_clone()?),
            None => None,
        };
        Ok(Verb {
            names: self.names.try_clone()?,
            owner: self.owner,
            perms: self.perms,
            args: self.args,
            program,
        })
    }

    pub(crate) fn set_info(&mut self, names: MooStr, owner: i32, perms: VerbPerms)
        ensures { self.new ≡ with_verb_info names owner perms self.old }
    {
        self.names = names;
        self.owner = owner;
        self.perms = perms;
    }

    pub(crate) fn set_args(&mut self, args: VerbArgs)
        ensures { self.new ≡ with_args args self.old }
    {
        self.args = args;
    }

    pub(crate) fn set_program(&mut self, program: Option<Program>)
        ensures { self.new ≡ with_program program self.old }
    {
        self.program = program;
    }
}

pub(crate) fn change_info(
    verbs: &mut Vec<Verb>,
    index: usize,
    names: MooStr,
    owner: i32,
    perms: VerbPerms,
)
    requires { index < length verbs.old.items }
    ensures { verbs.new.items ≡ changed_at index (with_verb_info names owner perms) verbs.old.items }
{
    verbs[index].set_info(names, owner, perms);
}

pub(crate) fn change_args(verbs: &mut Vec<Verb>, index: usize, args: VerbArgs)
    requires { index < length verbs.old.items }
    ensures { verbs.new.items ≡ changed_at index (with_args args) verbs.old.items }
{
    verbs[index].set_args(args);
}

pub(crate) fn change_program(verbs: &mut Vec<Verb>, index: usize, program: Option<Program>)
    requires { index < length verbs.old.items }
    ensures { verbs.new.items ≡ changed_at index (with_program program) verbs.old.items }
{
    verbs[index].set_program(program);
}
