//! The values of variables that a called verb has from its caller: the names of types, and the parts of the command.
ghost use Rattle.std.specs.Prelude.{◌≡◌, IsTrue, IfOk, OnOk};
ghost use Rattle.moo_eval_frame.specs.Shared.{types_of, types};
ghost use Rattle.moo_eval_frame.specs.GivenValues.{with_shared, names_type, command_of, command_in};

use crate::frame::Frame;
use moo_syntax_ast::Given;
use moo_value::Value;
use std::alloc::{AllocError, Global};
use std::marker::Model;
use std::rc::Rc;

/// Holds the values of the names of types, and the parts of the command.
#[derive(Drop)]
pub(crate) struct SharedValues {
    /// Is true only if the names of types have the values that a frame begins with.
    has_first_types: bool,
    pub(crate) num: Value,
    pub(crate) int: Value,
    pub(crate) obj: Value,
    pub(crate) str: Value,
    pub(crate) err: Value,
    pub(crate) list: Value,
    pub(crate) float: Value,
    pub(crate) dobj: Value,
    pub(crate) iobj: Value,
    pub(crate) argstr: Value,
    pub(crate) dobjstr: Value,
    pub(crate) prepstr: Value,
    pub(crate) iobjstr: Value,
}

impl Model for SharedValues {
    ghost use Rattle.std.specs.Prelude.{◌≡◌, IsTrue};
    ghost use Rattle.moo_eval_frame.specs.Shared.{Shared, shared_code, types_of, types};

    ghost Value = { Shared };

    ghost coded = { shared_code };

    ghost view = { λ s. record { num = s.num; int = s.int; obj = s.obj; str = s.str; err = s.err; list = s.list; float = s.float; dobj = s.dobj; iobj = s.iobj; argstr = s.argstr; dobjstr = s.dobjstr; prepstr = s.prepstr; iobjstr = s.iobjstr } };

    ghost invariant = { λ s. IsTrue s.has_first_types → types_of (record { num = s.num; int = s.int; obj = s.obj; str = s.str; err = s.err; list = s.list; float = s.float; dobj = s.dobj; iobj = s.iobj; argstr = s.argstr; dobjstr = s.dobjstr; prepstr = s.prepstr; iobjstr = s.iobjstr }) ≡ types };
}

impl SharedValues {
    /// Returns the values that the first frame of a task begins with.
    pub(crate) fn first(frame: &Frame) -> Result<SharedValues, AllocError>
        ensures types { IfOk result (λ shared. types_of shared ≡ types) }
        ensures command { IfOk result (λ shared. command_of shared ≡ command_in frame.now) }
    {
        Ok(SharedValues {
            has_first_types: true,
            num: Value::Int(0),
            int: Value::Int(0),
            obj: Value::Int(1),
            str: Value::Int(2),
            err: Value::Int(3),
            list: Value::Int(4),
            float: Value::Int(9),
            dobj: Value::Obj(frame.dobj),
            iobj: Value::Obj(frame.iobj),
            argstr: Value::Str(frame.argstr.try_clone()?),
            dobjstr: Value::Str(frame.dobjstr.try_clone()?),
            prepstr: Value::Str(frame.prepstr.try_clone()?),
            iobjstr: Value::Str(frame.iobjstr.try_clone()?),
        })
    }

    /// Returns the same parts of the command, and the names of types with the values that a frame begins with.
    pub(crate) fn with_types(&self) -> Result<SharedValues, AllocError>
        ensures types { IfOk result (λ shared. types_of shared ≡ types) }
        ensures command { IfOk result (λ shared. command_of shared ≡ command_of self.now) }
    {
        Ok(SharedValues {
            has_first_types: true,
            num: Value::Int(0),
            int: Value::Int(0),
            obj: Value::Int(1),
            str: Value::Int(2),
            err: Value::Int(3),
            list: Value::Int(4),
            float: Value::Int(9),
            dobj: self.dobj.try_clone()?,
            iobj: self.iobj.try_clone()?,
            argstr: self.argstr.try_clone()?,
            dobjstr: self.dobjstr.try_clone()?,
            prepstr: self.prepstr.try_clone()?,
            iobjstr: self.iobjstr.try_clone()?,
        })
    }

    // Returns a copy of the values.
    fn try_clone(&self) -> Result<SharedValues, AllocError>
        ensures { IfOk result (λ copy. copy ≡ self.now) }
    {
        Ok(SharedValues {
            has_first_types: self.has_first_types,
            num: self.num.try_clone()?,
            int: self.int.try_clone()?,
            obj: self.obj.try_clone()?,
            str: self.str.try_clone()?,
            err: self.err.try_clone()?,
            list: self.list.try_clone()?,
            float: self.float.try_clone()?,
            dobj: self.dobj.try_clone()?,
            iobj: self.iobj.try_clone()?,
            argstr: self.argstr.try_clone()?,
            dobjstr: self.dobjstr.try_clone()?,
            prepstr: self.prepstr.try_clone()?,
            iobjstr: self.iobjstr.try_clone()?,
        })
    }

    /// Returns whether the names of types have the values that a frame begins with.
    #[inline(always)]
    pub(crate) fn has_types(&self) -> bool
        ensures { IsTrue result → types_of self.now ≡ types }
    {
        self.has_first_types
    }

    // Sets a shared value. Changes nothing for a name whose value isn't shared.
    fn set(&mut self, given: Given, value: Value)
        ensures { self.new ≡ with_shared self.old given value }
    {
        if names_type(given) {
            self.has_first_types = false;
        }
        match given {
            Given::Num => self.num = value,
            Given::Int => self.int = value,
            Given::Obj => self.obj = value,
            Given::Str => self.str = value,
            Given::Err => self.err = value,
            Given::List => self.list = value,
            Given::Float => self.float = value,
            Given::Dobj => self.dobj = value,
            Given::Iobj => self.iobj = value,
            Given::Argstr => self.argstr = value,
            Given::Dobjstr => self.dobjstr = value,
            Given::Prepstr => self.prepstr = value,
            Given::Iobjstr => self.iobjstr = value,
            Given::Player | Given::This | Given::Caller | Given::Verb | Given::Args => {}
        }
    }
}

/// Sets a shared value. If something else shares the block, a copy replaces it first. Err is out of memory; then no
/// value has changed.
pub(crate) fn set_shared(
    alloc: Global,
    shared: &mut Rc<SharedValues>,
    given: Given,
    value: Value,
) -> Result<(), AllocError>
    ensures { OnOk result (shared.new.value ≡ with_shared shared.old.value given value) }
{
    if let Some(own) = Rc::get_mut(shared) {
        own.set(given, value);
        return Ok(());
    }
    let mut own = shared.try_clone()?;
    own.set(given, value);
    *shared = Rc::new(alloc, own)?;
    Ok(())
}

// Returns whether a name is that of a type.
fn names_type(given: Given) -> bool
    ensures { result ≡ names_type given }
{
    matches!(
        given,
        Given::Num | Given::Int | Given::Obj | Given::Str | Given::Err | Given::List | Given::Float
    )
}
