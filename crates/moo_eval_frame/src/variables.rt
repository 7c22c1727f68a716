//! The variables of a frame.
ghost use Rattle.std.specs.Prelude.{◌≡◌, ◌<◌, ℕ, ℤ, ◌+ℤ◌, List, [], ◌∷◌, ◌++◌, Some, length, set, option_map, IsTrue, IsFalse, IfOk, IfSome, OnOk};
ghost use Rattle.std.specs.Int.{int_wrap, w32};
ghost use Rattle.moo_value.specs.Tree.{Tree, integer, list_of, string};
ghost use Rattle.moo_value.specs.Size.{IsWithinLimits};
ghost use Rattle.moo_value.specs.View.{tree};
ghost use Rattle.moo_value.specs.Compare.{folded};
ghost use Rattle.moo_syntax_ast.specs.Given.{given_name, given_names};
ghost use Rattle.moo_eval_frame.specs.Variables.{called_variables};
ghost use Rattle.moo_eval_slot.specs.Bindings.{bind, with_variable, value_of_name};
ghost use Rattle.moo_eval_frame.specs.GivenValues.{given_values};
ghost use Rattle.moo_eval_slot.specs.InnerPut.{IsInnerPut};
ghost use Rattle.moo_eval_frame.specs.Seen.{others_of, value_among, own_variables, variables_of};
ghost use Rattle.moo_eval_slot.specs.Held.{slot_value};
ghost use Rattle.moo_syntax_ast.specs.declared.given.Given.TheVariants.{Player};

use crate::frame::Running;
use crate::given_values::GivenValues;
use crate::memory::FrameMemory;
use crate::spelling::is_named;
use moo_eval_slot::Slots;
use moo_syntax_ast::{Given, Name};
use moo_syntax_program::Program;
use moo_value::{MooList, MooStr, Value};
use std::alloc::{AllocError, Global};

/// Holds the variables of a frame. Names that every frame has are kept apart, each other name of the program has a
/// slot, and further variables are in a list. Names that every frame has need no search. Nor do names whose slot is
/// noted, if they are spelled as in the program.
#[derive(Drop)]
pub struct Variables {
    given: GivenValues,
    own: Slots,
    /// The newest last; it hides older ones of its name. `None` before the first one.
    others: Option<Box<Vec<Variable>>>,
}

/// A variable that no statement of the program reads or sets.
#[derive(Drop)]
struct Variable {
    name: MooStr,
    value: Value,
}

impl Variables {
    /// Returns the variables that a frame of this program begins with: these values of the names that every frame has,
    /// and no others. The slots take the memory of a frame that has ended.
    #[inline(always)]
    pub fn begun(
        program: Program,
        given: GivenValues,
        memory: FrameMemory,
    ) -> Result<Variables, AllocError>
        ensures { IfOk result (λ v. variables_of v ≡ slot_value given_names (given_values given) (value_of_name [])) }
    {
        let own = Slots::unset(program, memory.into_slots())?;
        Ok(Variables {
            given,
            own,
            others: None,
        })
    }

    /// Drops the values, and returns the memory of the slots and of the arguments. The elements of `args` are returned too, if
    /// nothing else shares them.
    #[inline(always)]
    pub fn into_memory(self, alloc: Global) -> (FrameMemory, Vec<Value>) {
        FrameMemory::of(alloc, self.own.into_values(), self.given.into_args())
    }

    /// Returns the values of the names that every frame has, for a verb that this frame calls. The variables of the
    /// command have the values that they have in this frame. `caller` is the `this` of this frame.
    #[inline(always)]
    pub fn handed(
        &self,
        running: &Running,
        caller: i32,
        args: MooList,
    ) -> Result<GivenValues, AllocError>
        ensures { IfOk result (λ given. slot_value given_names (given_values given) (value_of_name []) ≡ called_variables running.now caller args (variables_of self.now)) }
    {
        self.given.handed(running, caller, args)
    }

    /// Sets a variable. Err is out of memory; then nothing has changed. Inlined, so that a variable whose slot is known
    /// needs no call.
    #[inline(always)]
    pub fn set(&mut self, name: &Name, value: Value) -> Result<(), AllocError>
        ensures { OnOk result (variables_of self.new ≡ with_variable (variables_of self.old) (bind name.now (tree value))) }
    {
        match self.own.known_slot(name) {
            Some(slot) => {
                self.own.set(slot, value);
                Ok(())
            }
            None => self.set_unknown(name, value),
        }
    }

    /// Sets a variable, and returns true. Returns false if the variable's slot isn't known; then nothing has changed.
    #[inline(always)]
    pub fn try_set(&mut self, name: &Name, value: Value) -> bool
        ensures put { IsTrue result → variables_of self.new ≡ with_variable (variables_of self.old) (bind name.now (tree value)) }
        ensures kept { IsFalse result → variables_of self.new ≡ variables_of self.old }
    {
        match self.own.known_slot(name) {
            Some(slot) => {
                self.own.set(slot, value);
                true
            }
            None => false,
        }
    }

    /// Sets a variable to an integer, in place if it holds one, and returns true. Returns false if the variable's slot
    /// isn't known; then nothing has changed.
    #[inline(always)]
    pub fn try_put_integer(&mut self, name: &Name, number: i32) -> bool
        ensures put { IsTrue result → variables_of self.new ≡ with_variable (variables_of self.old) (bind name.now (integer number)) }
        ensures kept { IsFalse result → variables_of self.new ≡ variables_of self.old }
    {
        match self.own.known_slot(name) {
            Some(slot) => {
                self.own.set_integer(slot, number);
                true
            }
            None => false,
        }
    }

    /// Adds a number to the integer in a variable, modulo 2^32, and returns whether it did. It doesn't if the variable
    /// holds no integer, or if its slot isn't known; then nothing has changed.
    #[inline(always)]
    pub fn try_add_integer(&mut self, name: &Name, number: i32) -> bool
        ensures added { IsTrue result → (i : ℤ) × (variables_of self.old (folded name.now) ≡ Some (integer i)) × (variables_of self.new ≡ with_variable (variables_of self.old) (bind name.now (integer (int_wrap w32 (i +ℤ number))))) }
        ensures kept { IsFalse result → variables_of self.new ≡ variables_of self.old }
    {
        match self.own.known_slot(name) {
            Some(slot) => self.own.try_add_integer(slot, number),
            None => false,
        }
    }

    /// Replaces the integer at `index` of the list in a variable by another, in place, and returns whether it did. It
    /// doesn't if there is no such integer, if something else shares the list, or if the variable's slot isn't known.
    /// Then nothing has changed.
    #[inline(always)]
    pub fn try_put_element(&mut self, name: &Name, index: usize, number: i32) -> bool
        ensures put { IsTrue result → (ts : List Tree) × (variables_of self.old (folded name.now) ≡ Some (list_of ts)) × (index < length ts) × IsWithinLimits (list_of (set ts index (integer number))) × (variables_of self.new ≡ with_variable (variables_of self.old) (bind name.now (list_of (set ts index (integer number))))) }
        ensures kept { IsFalse result → variables_of self.new ≡ variables_of self.old }
    {
        match self.own.known_slot(name) {
            Some(slot) => self.own.try_put_element(slot, index, number),
            None => false,
        }
    }

    /// Replaces the integer at `inner` of the list at `outer` of the list in a variable, and returns whether it did. It
    /// doesn't if there is no such integer, if something else shares one of the lists, or if the variable's slot isn't
    /// known. Then no value has changed. Err is out of memory; the variable may then hold an empty list.
    #[inline(always)]
    pub fn try_put_inner(
        &mut self,
        alloc: Global,
        name: &Name,
        outer: usize,
        inner: usize,
        number: i32,
    ) -> Result<bool, AllocError>
        ensures put { IfOk result (λ done. IsTrue done → (ts : List Tree) × (new : List Tree) × (variables_of self.old (folded name.now) ≡ Some (list_of ts)) × IsInnerPut ts outer inner number new × (variables_of self.new ≡ with_variable (variables_of self.old) (bind name.now (list_of new)))) }
        ensures kept { IfOk result (λ done. IsFalse done → variables_of self.new ≡ variables_of self.old) }
    {
        match self.own.known_slot(name) {
            Some(slot) => self.own.try_put_inner(alloc, slot, outer, inner, number),
            None => Ok(false),
        }
    }

    /// Appends a string to the one in a variable, and returns whether it did. It doesn't if the variable holds no
    /// string, if the longer one is past the limit, or if the variable's slot isn't known. Then nothing has changed.
    /// Err is out of memory; the variable then isn't set.
    #[inline(always)]
    pub fn try_extend(
        &mut self,
        alloc: Global,
        name: &Name,
        last: &MooStr,
    ) -> Result<bool, AllocError>
        ensures extended { IfOk result (λ done. IsTrue done → (text : List ℕ) × (variables_of self.old (folded name.now) ≡ Some (string text)) × IsWithinLimits (string (text ++ last.now)) × (variables_of self.new ≡ with_variable (variables_of self.old) (bind name.now (string (text ++ last.now))))) }
        ensures kept { IfOk result (λ done. IsFalse done → variables_of self.new ≡ variables_of self.old) }
    {
        match self.own.known_slot(name) {
            Some(slot) => self.own.try_extend(alloc, slot, last),
            None => Ok(false),
        }
    }

    /// Appends a value to the list in a variable, and returns whether it did. It doesn't if the variable holds no list,
    /// if the longer one is past the limits, or if the variable's slot isn't known. Then nothing has changed. Err is
    /// out of memory; the variable then isn't set.
    #[inline(always)]
    pub fn try_push(&mut self, alloc: Global, name: &Name, value: Value) -> Result<bool, AllocError>
        ensures pushed { IfOk result (λ done. IsTrue done → (elements : List Tree) × (variables_of self.old (folded name.now) ≡ Some (list_of elements)) × IsWithinLimits (list_of (elements ++ tree value ∷ [])) × (variables_of self.new ≡ with_variable (variables_of self.old) (bind name.now (list_of (elements ++ tree value ∷ []))))) }
        ensures kept { IfOk result (λ done. IsFalse done → variables_of self.new ≡ variables_of self.old) }
    {
        match self.own.known_slot(name) {
            Some(slot) => self.own.try_push(alloc, slot, value),
            None => Ok(false),
        }
    }

    // Sets a variable whose slot isn't known: one that every frame has, or one that a search finds. It is a separate
    // function, so that the common case stays short.
    #[inline(never)]
    fn set_unknown(&mut self, name: &Name, value: Value) -> Result<(), AllocError>
        ensures { OnOk result (variables_of self.new ≡ with_variable (variables_of self.old) (bind name.now (tree value))) }
    {
        match name.given() {
            Some(given) => self.given.set(given, value),
            None => self.set_searched(name, value),
        }
    }

    // Sets a variable whose slot a search finds, or that has none.
    #[inline(always)]
    fn set_searched(&mut self, name: &Name, value: Value) -> Result<(), AllocError>
        ensures own { OnOk result (own_variables self.new ≡ with_variable (own_variables self.old) (bind name.now (tree value))) }
        ensures given { self.new.given ≡ self.old.given }
    {
        match self.own.slot_of(name) {
            Some(slot) => self.own.set(slot, value),
            None => {
                let name = name.text().try_clone()?;
                let alloc = self.given.alloc();
                push_other(alloc, &mut self.others, Variable { name, value })?;
            }
        }
        Ok(())
    }

    /// Returns the value of the variable `player`.
    #[inline(always)]
    pub fn player(&self) -> &Value
        ensures { Some (tree result.now) ≡ variables_of self.now (folded (given_name Player)) }
    {
        self.given.player()
    }

    /// Returns the value of the variable `args`, if that is the name.
    #[inline(always)]
    pub fn args_named(&self, name: &Name) -> Option<&Value>
        ensures { IfSome result (λ v. variables_of self.now (folded name.now) ≡ Some (tree v.now)) }
    {
        match name.given() {
            Some(Given::Args) => Some(self.given.get(Given::Args)),
            _ => None,
        }
    }

    /// Returns the value of a variable, or `None` if it isn't set. Inlined, so that a variable whose slot is known
    /// needs no call.
    #[inline(always)]
    pub fn get(&self, name: &Name) -> Option<&Value>
        ensures { option_map (λ v. tree v.now) result ≡ variables_of self.now (folded name.now) }
    {
        match self.own.known_slot(name) {
            Some(slot) => self.own.get(slot),
            None => self.get_unknown(name),
        }
    }

    /// Returns the value of a variable, as `get` does. It compares the name with `this` first, which most calls and
    /// properties name.
    #[inline(always)]
    pub fn get_base(&self, name: &Name) -> Option<&Value>
        ensures { option_map (λ v. tree v.now) result ≡ variables_of self.now (folded name.now) }
    {
        match name.given() {
            Some(Given::This) => Some(self.given.get(Given::This)),
            _ => self.get(name),
        }
    }

    /// Returns the value of a variable, if it is set and its slot is known.
    #[inline(always)]
    pub fn get_known(&self, name: &Name) -> Option<&Value>
        ensures { IfSome result (λ v. variables_of self.now (folded name.now) ≡ Some (tree v.now)) }
    {
        self.own.get(self.own.known_slot(name)?)
    }

    // Returns the value of a variable whose slot isn't known: one that every frame has, or one that a search finds.
    #[inline(never)]
    fn get_unknown(&self, name: &Name) -> Option<&Value>
        ensures { option_map (λ v. tree v.now) result ≡ variables_of self.now (folded name.now) }
    {
        match name.given() {
            Some(given) => Some(self.given.get(given)),
            None => self.searched(name),
        }
    }

    #[cold]
    #[inline(never)]
    fn searched(&self, name: &Name) -> Option<&Value>
        ensures { option_map (λ v. tree v.now) result ≡ own_variables self.now (folded name.now) }
    {
        match self.own.slot_of(name) {
            Some(slot) => self.own.get(slot),
            None => self.other(name.as_bytes()),
        }
    }

    // Returns the value of a name that the program doesn't have.
    fn other(&self, name: &[u8]) -> Option<&Value>
        ensures { option_map (λ v. tree v.now) result ≡ value_among (others_of self.now.others) (folded name.now) }
    {
        match &self.others {
            Some(others) => newest(others, name),
            None => None,
        }
    }
}

// Appends a variable to these, the newest last. Err is out of memory.
fn push_other(
    alloc: Global,
    others: &mut Option<Box<Vec<Variable>>>,
    variable: Variable,
) -> Result<(), AllocError>
    ensures { OnOk result (others_of others.new ≡ others_of others.old ++ variable ∷ []) }
{
    if let Some(others) = others {
        others.push(variable)?;
        return Ok(());
    }
    let mut first = Vec::new(alloc);
    first.push(variable)?;
    *others = Some(Box::new(alloc, first)?);
    Ok(())
}

// Returns the value of the newest of these variables that has this name.
fn newest<'a>(others: &'a [Variable], name: &[u8]) -> Option<&'a Value>
    ensures { option_map (λ v. tree v.now) result ≡ value_among others.now (folded name.now) }
{
    let mut rest = others;
    while let Some((newest, older)) = rest.split_last() {
        if is_named(&newest.name, name) {
            return Some(&newest.value);
        }
        rest = older;
    }
    None
}
