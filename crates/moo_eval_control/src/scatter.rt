//! Scatters: how the values of a list are assigned to names.
ghost use Rattle.std.specs.Prelude.{◌≡◌, ◌+◌, ◌||◌, ◌++◌, ◌∷◌, [], ◌≤◌, cond, Ok, Err, map, drop, length, IfOk, IfErr, OnOk, IfSome, IfNone, IsTrue, IsFalse, List};
ghost use Rattle.moo_value.specs.Tree.{Tree, list_of};
ghost use Rattle.moo_value.specs.View.{tree, trees};
ghost use Rattle.moo_value.specs.declared.error_code.ErrorCode.{ErrorCode as ErrorCodeModel};
ghost use Rattle.moo_syntax_ast.specs.Tree.{Items, element, splice, optional};
ghost use Rattle.moo_syntax_node.specs.Source.{source, source_items, with_source};
ghost use Rattle.moo_syntax_node.specs.Blocks.{named_items};
ghost use Rattle.moo_eval_frame.specs.Outcome.{fails};
ghost use Rattle.moo_eval_frame.specs.Variables.{with_all};
ghost use Rattle.moo_eval_slot.specs.Bindings.{bind, with_variable};
ghost use Rattle.moo_eval_control.specs.Scatter.{required, optionals, takes_rest, fits, dealt, binds, shares, lacking, given, missing};
ghost use Rattle.moo_eval_frame.specs.Seen.{variables_of, failure_of, HadMemoryIn};
ghost use Rattle.moo_eval_control.specs.SeenScatter.{left_out_of, left_out_by, share_of};

use moo_eval_frame::{Activation, Failure, Variables};
use moo_syntax_ast::Name;
use moo_syntax_node::{Node, NodeItem};
use moo_value::{ErrorCode, MooList, Value};
use std::alloc::{AllocError, Global};

/// Holds a name that gets no value from a list, and the expression of its default.
#[derive(Drop)]
pub struct LeftOut<'a> {
    pub name: &'a Name,
    pub value: &'a Node,
}

// Holds the items of a scatter. Of their names so many have to get a value, and so many may be left out. Another one may
// take the rest.
#[derive(Drop)]
struct Counts<'a> {
    items: &'a [NodeItem],
    required: usize,
    optionals: usize,
    takes_rest: bool,
}

/// Sets the names of a scatter that get an element, and returns those with a default that get none. E_TYPE for a value
/// that is no list, E_ARGS for a wrong number of elements; then no name is set. If memory runs out, some names may be
/// set.
pub fn deal<'a>(
    alloc: Global,
    active: &mut Activation,
    items: &'a [NodeItem],
    value: &Value,
) -> Result<Vec<LeftOut<'a>>, Failure>
    ensures ok { IfOk result (λ left. (list : List Tree) × (dealt (source_items items.now) (tree value.now) ≡ Ok list) × (variables_of active.new.variables ≡ with_all (variables_of active.old.variables) (given (source_items items.now) list)) × (map left_out_of left.items ≡ missing (source_items items.now) list) × (active.new.programmer ≡ active.old.programmer)) }
    ensures err { IfErr result (λ failure. HadMemoryIn failure → (code : ErrorCodeModel) × (dealt (source_items items.now) (tree value.now) ≡ Err code) × (failure_of failure ≡ fails code) × (active.new ≡ active.old)) }
{
    let counts = counted(items);
    let list = dealt(&counts, value)?;
    set_shares(alloc, active, &counts, list)?;
    Ok(missing(alloc, &counts, list)?)
}

// Returns the list whose elements are assigned: E_TYPE for a value that is no list, E_ARGS for a wrong number of
// elements.
#[inline(always)]
fn dealt<'a>(counts: &Counts<'_>, value: &'a Value) -> Result<&'a MooList, ErrorCode>
    requires required { counts.now.required ≡ required (source_items counts.now.items.now) }
    requires optionals { counts.now.optionals ≡ optionals (source_items counts.now.items.now) }
    requires rest { counts.now.takes_rest ≡ takes_rest (source_items counts.now.items.now) }
    ensures ok { IfOk result (λ list. dealt (source_items counts.now.items.now) (tree value.now) ≡ Ok list.now) }
    ensures err { IfErr result (λ code. dealt (source_items counts.now.items.now) (tree value.now) ≡ Err code) }
{
    let Value::List(list) = value else {
        return Err(ErrorCode::TypeMismatch);
    };
    if fits(counts, list.len()) {
        Ok(list)
    } else {
        Err(ErrorCode::Arguments)
    }
}

/// Sets these names to the elements of a list, in order, and returns whether it did. It doesn't for a wrong number of
/// elements; then no name is set. Err is out of memory; some names may then be set.
#[inline(always)]
pub fn try_set_names(
    active: &mut Activation,
    names: &[Name],
    list: &MooList,
) -> Result<bool, AllocError>
    ensures set { IfOk result (λ done. IsTrue done → (dealt (named_items names.now) (list_of list.now) ≡ Ok list.now) × (variables_of active.new.variables ≡ with_all (variables_of active.old.variables) (given (named_items names.now) list.now)) × (active.new.programmer ≡ active.old.programmer)) }
    ensures kept { IfOk result (λ done. IsFalse done → active.new ≡ active.old) }
{
    let elements = list.elements();
    if elements.len() != names.len() {
        return Ok(false);
    }
    set_each(active, names, elements)?;
    Ok(true)
}

/// Sets these names to the elements of a list, in order. E_TYPE for a value that is no list, E_ARGS for a wrong number
/// of elements; then no name is set. If memory runs out, some names may be set.
#[inline(always)]
pub fn set_names(active: &mut Activation, names: &[Name], value: &Value) -> Result<(), Failure>
    ensures ok { OnOk result ((list : List Tree) × (dealt (named_items names.now) (tree value.now) ≡ Ok list) × (variables_of active.new.variables ≡ with_all (variables_of active.old.variables) (given (named_items names.now) list))) }
    ensures err { IfErr result (λ failure. HadMemoryIn failure → (code : ErrorCodeModel) × (dealt (named_items names.now) (tree value.now) ≡ Err code) × (failure_of failure ≡ fails code) × (active.new ≡ active.old)) }
    ensures programmer { OnOk result (active.new.programmer ≡ active.old.programmer) }
{
    let Value::List(list) = value else {
        return Err(Failure::Fails(ErrorCode::TypeMismatch));
    };
    let elements = list.elements();
    if elements.len() != names.len() {
        return Err(Failure::Fails(ErrorCode::Arguments));
    }
    set_each(active, names, elements)?;
    Ok(())
}

// Sets each of these names to the element at its place.
#[inline(always)]
fn set_each(active: &mut Activation, names: &[Name], elements: &[Value]) -> Result<(), AllocError>
    requires { length names.now ≡ length elements.now }
    ensures variables { OnOk result (variables_of active.new.variables ≡ with_all (variables_of active.old.variables) (given (named_items names.now) (trees elements.now))) }
    ensures programmer { OnOk result (active.new.programmer ≡ active.old.programmer) }
{
    for i in 0..names.len() {
        set_copy(&mut active.variables, &names[i], &elements[i])?;
    }
    Ok(())
}

// Sets a name to a copy of a value. An integer is tested for first, since it needs no table of jumps.
#[inline(always)]
fn set_copy(variables: &mut Variables, name: &Name, value: &Value) -> Result<(), AllocError>
    ensures { OnOk result (variables_of variables.new ≡ with_variable (variables_of variables.old) (bind name.now (tree value.now))) }
{
    if let Value::Int(number) = value {
        return variables.set(name, Value::Int(*number));
    }
    variables.set(name, value.try_clone()?)
}

fn fits(counts: &Counts<'_>, count: usize) -> bool
    requires required { counts.now.required ≡ required (source_items counts.now.items.now) }
    requires optionals { counts.now.optionals ≡ optionals (source_items counts.now.items.now) }
    requires rest { counts.now.takes_rest ≡ takes_rest (source_items counts.now.items.now) }
    ensures { result ≡ fits (source_items counts.now.items.now) count }
{
    if count < counts.required {
        return false;
    }
    counts.takes_rest || count - counts.required <= counts.optionals
}

fn is_required(item: &NodeItem) -> bool
    ensures { (xs : Items) → required (with_source item.now xs) ≡ cond result 1 0 + required xs }
{
    matches!(item, NodeItem::Element(_))
}

fn is_optional(item: &NodeItem) -> bool
    ensures { (xs : Items) → optionals (with_source item.now xs) ≡ cond result 1 0 + optionals xs }
{
    matches!(item, NodeItem::Optional(_) | NodeItem::Defaulted(_, _))
}

fn is_rest(item: &NodeItem) -> bool
    ensures { (xs : Items) → takes_rest (with_source item.now xs) ≡ (result || takes_rest xs) }
{
    matches!(item, NodeItem::Splice(_))
}

// Counts the items of a scatter by their kinds.
fn counted(items: &[NodeItem]) -> Counts<'_>
    ensures items { result.items ≡ items.entry }
    ensures required { result.required ≡ required (source_items items.now) }
    ensures optionals { result.optionals ≡ optionals (source_items items.now) }
    ensures rest { result.takes_rest ≡ takes_rest (source_items items.now) }
{
    let mut required = 0;
    let mut optionals = 0;
    let mut takes_rest = false;
    for item in items {
        required += usize::from(is_required(item));
        optionals += usize::from(is_optional(item));
        takes_rest = takes_rest || is_rest(item);
    }
    Counts {
        items,
        required,
        optionals,
        takes_rest,
    }
}

// Holds what is left to be assigned: the values from `next` on. Of them `spare` are left for names that may be left
// out, and the name that takes what the others leave gets `rest`.
#[derive(Drop)]
struct Dealing<'a> {
    list: &'a MooList,
    next: usize,
    spare: usize,
    rest: usize,
}

// Sets the names of a scatter that get a value of the list, from the left. The name after `@` gets a list. Err is out
// of memory; some names may then be set.
fn set_shares(
    alloc: Global,
    active: &mut Activation,
    counts: &Counts<'_>,
    list: &MooList,
) -> Result<(), AllocError>
    requires required { counts.now.required ≡ required (source_items counts.now.items.now) }
    requires optionals { counts.now.optionals ≡ optionals (source_items counts.now.items.now) }
    ensures variables { OnOk result (variables_of active.new.variables ≡ with_all (variables_of active.old.variables) (given (source_items counts.now.items.now) list.now)) }
    ensures programmer { OnOk result (active.new.programmer ≡ active.old.programmer) }
{
    let spare = list.len().saturating_sub(counts.required);
    let mut dealing = Dealing {
        list,
        next: 0,
        spare,
        rest: spare.saturating_sub(counts.optionals),
    };
    for item in counts.items {
        let share = dealing.share(alloc, item)?;
        set_share(active, share)?;
    }
    Ok(())
}

fn set_share(active: &mut Activation, share: Option<(&Name, Value)>) -> Result<(), AllocError>
    ensures variables { OnOk result (variables_of active.new.variables ≡ with_all (variables_of active.old.variables) (share_of share.entry)) }
    ensures programmer { OnOk result (active.new.programmer ≡ active.old.programmer) }
{
    if let Some((name, value)) = share {
        active.variables.set(name, value)?;
    }
    Ok(())
}

impl<'a> Dealing<'a> {
    // Returns what an item gets, if it gets anything.
    fn share<'b>(
        &mut self,
        alloc: Global,
        item: &'b NodeItem,
    ) -> Result<Option<(&'b Name, Value)>, AllocError>
        ensures share { IfOk result (λ share. (xs : Items) → shares (with_source item.now xs) self.old.spare self.old.rest (drop self.old.next self.old.list.now) ≡ share_of share ++ shares xs self.new.spare self.new.rest (drop self.new.next self.new.list.now)) }
    {
        match item {
            NodeItem::Element(target) => self.one(target),
            NodeItem::Splice(target) => self.others(alloc, target),
            NodeItem::Optional(name) | NodeItem::Defaulted(name, _) => self.spared(name),
        }
    }

    // Returns the next value, for a name that has to get one.
    fn one<'b>(&mut self, target: &'b Node) -> Result<Option<(&'b Name, Value)>, AllocError>
        ensures share { IfOk result (λ share. (xs : Items) → shares (element (source target.now) xs) self.old.spare self.old.rest (drop self.old.next self.old.list.now) ≡ share_of share ++ shares xs self.new.spare self.new.rest (drop self.new.next self.new.list.now)) }
    {
        match self.next_value()? {
            Some(value) => Ok(named(target, value)),
            None => Ok(None),
        }
    }

    // Returns the next value, for a name that may be left out.
    fn spared<'b>(&mut self, name: &'b Name) -> Result<Option<(&'b Name, Value)>, AllocError>
        ensures share { IfOk result (λ share. (xs : Items) → shares (optional name.now xs) self.old.spare self.old.rest (drop self.old.next self.old.list.now) ≡ share_of share ++ shares xs self.new.spare self.new.rest (drop self.new.next self.new.list.now)) }
    {
        if self.spare == 0 {
            return Ok(None);
        }
        self.spare -= 1;
        match self.next_value()? {
            Some(value) => Ok(Some((name, value))),
            None => Ok(None),
        }
    }

    // Returns the values that the other names leave.
    fn others<'b>(
        &mut self,
        alloc: Global,
        target: &'b Node,
    ) -> Result<Option<(&'b Name, Value)>, AllocError>
        ensures share { IfOk result (λ share. (xs : Items) → shares (splice (source target.now) xs) self.old.spare self.old.rest (drop self.old.next self.old.list.now) ≡ share_of share ++ shares xs self.new.spare self.new.rest (drop self.new.next self.new.list.now)) }
    {
        let from = self.next.min(self.list.len());
        let to = from.saturating_add(self.rest).min(self.list.len());
        self.next = to;
        let value = Value::List(self.list.part(alloc, from, to)?);
        Ok(named(target, value))
    }

    fn next_value(&mut self) -> Result<Option<Value>, AllocError>
        ensures some { IfOk result (λ next. IfSome next (λ value. drop self.old.next self.old.list.now ≡ tree value ∷ drop self.new.next self.new.list.now)) }
        ensures none { IfOk result (λ next. IfNone next (drop self.old.next self.old.list.now ≡ [])) }
        ensures kept { IfOk result (λ next. IfNone next (self.new ≡ self.old)) }
        ensures list { OnOk result (self.new.list ≡ self.old.list) }
        ensures spare { OnOk result (self.new.spare ≡ self.old.spare) }
        ensures rest { OnOk result (self.new.rest ≡ self.old.rest) }
    {
        let Some(value) = self.list.elements().get(self.next) else {
            return Ok(None);
        };
        let value = value.try_clone()?;
        self.next += 1;
        Ok(Some(value))
    }
}

// Returns a value for a variable. A scatter of a program has no other targets.
fn named(target: &Node, value: Value) -> Option<(&Name, Value)>
    ensures { share_of result ≡ binds (source target.now) (tree value) }
{
    match target {
        Node::Variable(name) => Some((name, value)),
        _ => None,
    }
}

// Returns the names that get no value of the list but have a default, from the left. Err is out of memory.
fn missing<'a>(
    alloc: Global,
    counts: &Counts<'a>,
    list: &MooList,
) -> Result<Vec<LeftOut<'a>>, AllocError>
    requires { counts.now.required ≡ required (source_items counts.now.items.now) }
    ensures { IfOk result (λ names. map left_out_of names.items ≡ missing (source_items counts.now.items.now) list.now) }
{
    let mut spare = list.len().saturating_sub(counts.required);
    let mut names = Vec::new(alloc);
    for item in counts.items {
        push_left_out(&mut names, left_out(&mut spare, item))?;
    }
    Ok(names)
}

// Returns the name of an item, if no value is left for it and it has a default.
fn left_out<'a>(spare: &mut usize, item: &'a NodeItem) -> Option<LeftOut<'a>>
    ensures { (xs : Items) → lacking (with_source item.now xs) spare.old ≡ left_out_by result ++ lacking xs spare.new }
{
    let default = match item {
        NodeItem::Element(_) | NodeItem::Splice(_) => return None,
        NodeItem::Optional(_) => None,
        NodeItem::Defaulted(name, value) => Some(LeftOut { name, value }),
    };
    if *spare > 0 {
        *spare -= 1;
        return None;
    }
    default
}

fn push_left_out<'a>(
    names: &mut Vec<LeftOut<'a>>,
    name: Option<LeftOut<'a>>,
) -> Result<(), AllocError>
    ensures { OnOk result (map left_out_of names.new.items ≡ map left_out_of names.old.items ++ left_out_by name.entry) }
{
    if let Some(name) = name {
        names.push(name)?;
    }
    Ok(())
}
