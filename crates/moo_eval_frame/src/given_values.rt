//! The values of the variables that every frame has.
ghost use Rattle.std.specs.Prelude.{◌≡◌, [], Some, None, get_or, set, IfOk, OnOk};
ghost use Rattle.moo_syntax_ast.specs.Given.{given_slot, given_names};
ghost use Rattle.moo_eval_frame.specs.Shared.{types_of, types};
ghost use Rattle.moo_eval_frame.specs.GivenValues.{given_values, values_with, command_of, command_in};
ghost use Rattle.moo_eval_frame.specs.State.{running_of};
ghost use Rattle.moo_eval_frame.specs.Variables.{first_bindings};
ghost use Rattle.moo_eval_slot.specs.Bindings.{value_of_name};
ghost use Rattle.moo_eval_frame.specs.Seen.{seen_values};
ghost use Rattle.moo_eval_slot.specs.Held.{slot_value};

use crate::frame::{Frame, Running};
use crate::shared_values::{SharedValues, set_shared};
use moo_syntax_ast::Given;
use moo_value::{MooList, Value};
use std::alloc::{AllocError, Global};
use std::rc::Rc;

/// Holds the values of the names that every frame has: its own, and those that it shares with the frame that called
/// it.
#[derive(Drop)]
pub struct GivenValues {
    alloc: Global,
    player: Value,
    this: Value,
    caller: Value,
    verb: Value,
    args: Value,
    shared: Rc<SharedValues>,
}

impl GivenValues {
    /// Returns the values that the first frame of a task begins with.
    pub fn first(alloc: Global, frame: &Frame) -> Result<GivenValues, AllocError>
        ensures { IfOk result (λ given. slot_value given_names (given_values given) (value_of_name []) ≡ value_of_name (first_bindings frame.now)) }
    {
        GivenValues::of_frame(alloc, frame)
    }

    // Returns the values of the names that a frame has as it begins.
    fn of_frame(alloc: Global, frame: &Frame) -> Result<GivenValues, AllocError>
        ensures values { IfOk result (λ given. seen_values (given_values given) ≡ values_with (running_of frame.now) frame.now.caller frame.now.args given.shared.value) }
        ensures types { IfOk result (λ given. types_of given.shared.value ≡ types) }
        ensures command { IfOk result (λ given. command_of given.shared.value ≡ command_in frame.now) }
    {
        Ok(GivenValues {
            alloc,
            player: Value::Obj(frame.player),
            this: Value::Obj(frame.this),
            caller: Value::Obj(frame.caller),
            verb: Value::Str(frame.verb.try_clone()?),
            args: Value::List(frame.args.try_clone()?),
            shared: Rc::new(alloc, SharedValues::first(frame)?)?,
        })
    }

    /// Returns the values that the frame of a called verb begins with, from those of its caller, whose `this` is
    /// `caller`.
    #[inline(always)]
    pub(crate) fn handed(
        &self,
        running: &Running,
        caller: i32,
        args: MooList,
    ) -> Result<GivenValues, AllocError>
        ensures values { IfOk result (λ given. seen_values (given_values given) ≡ values_with running.now caller args given.shared.value) }
        ensures types { IfOk result (λ given. types_of given.shared.value ≡ types) }
        ensures command { IfOk result (λ given. command_of given.shared.value ≡ command_of self.now.shared.value) }
    {
        let shared = self.handed_shared()?;
        let verb = running.verb.try_clone()?;
        Ok(GivenValues {
            alloc: self.alloc,
            player: Value::Obj(running.player),
            this: Value::Obj(running.this),
            caller: Value::Obj(caller),
            verb: Value::Str(verb),
            args: Value::List(args),
            shared,
        })
    }

    // Returns the block of shared values for a called verb. It is the caller's if the names of types have the values
    // that a frame begins with, and a new one otherwise.
    #[inline(always)]
    fn handed_shared(&self) -> Result<Rc<SharedValues>, AllocError>
        ensures types { IfOk result (λ shared. types_of shared.value ≡ types) }
        ensures command { IfOk result (λ shared. command_of shared.value ≡ command_of self.now.shared.value) }
    {
        if self.shared.has_types() {
            self.shared.clone()
        } else {
            self.fresh_shared()
        }
    }

    // Returns a block with the caller's values of the command, and the names of types as a frame begins with them.
    // Not inlined, so that other calls need no stack space for it.
    #[cold]
    #[inline(never)]
    fn fresh_shared(&self) -> Result<Rc<SharedValues>, AllocError>
        ensures types { IfOk result (λ shared. types_of shared.value ≡ types) }
        ensures command { IfOk result (λ shared. command_of shared.value ≡ command_of self.now.shared.value) }
    {
        Ok(Rc::new(self.alloc, self.shared.with_types()?)?)
    }

    /// Returns the allocator.
    pub(crate) fn alloc(&self) -> Global {
        self.alloc
    }

    /// Returns the value of a name.
    #[inline(always)]
    pub(crate) fn get(&self, given: Given) -> &Value
        ensures { Some result.now ≡ get_or (given_values self.now) (given_slot given) None }
    {
        match given {
            Given::Player => &self.player,
            Given::This => &self.this,
            Given::Caller => &self.caller,
            Given::Verb => &self.verb,
            Given::Args => &self.args,
            Given::Num => &self.shared.num,
            Given::Int => &self.shared.int,
            Given::Obj => &self.shared.obj,
            Given::Str => &self.shared.str,
            Given::Err => &self.shared.err,
            Given::List => &self.shared.list,
            Given::Float => &self.shared.float,
            Given::Dobj => &self.shared.dobj,
            Given::Iobj => &self.shared.iobj,
            Given::Argstr => &self.shared.argstr,
            Given::Dobjstr => &self.shared.dobjstr,
            Given::Prepstr => &self.shared.prepstr,
            Given::Iobjstr => &self.shared.iobjstr,
        }
    }

    /// Returns the value of `player`.
    #[inline(always)]
    pub(crate) fn player(&self) -> &Value
        ensures { result.now ≡ self.now.player }
    {
        &self.player
    }

    /// Returns the value of `args`.
    #[inline(always)]
    pub(crate) fn into_args(self) -> Value {
        self.args
    }

    /// Sets the value of a name. Err is out of memory; then no value has changed.
    pub(crate) fn set(&mut self, given: Given, value: Value) -> Result<(), AllocError>
        ensures { OnOk result (given_values self.new ≡ set (given_values self.old) (given_slot given) (Some value)) }
    {
        match given {
            Given::Player => self.player = value,
            Given::This => self.this = value,
            Given::Caller => self.caller = value,
            Given::Verb => self.verb = value,
            Given::Args => self.args = value,
            _ => set_shared(self.alloc, &mut self.shared, given, value)?,
        }
        Ok(())
    }
}
