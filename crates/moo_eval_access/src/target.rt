//! Targets of assignments: 'Assignment' of docs/reference/language.md. In the LambdaMOO Programmer's Manual: 'Replacing
//! an Element of a List or String' and 'Replacing a Subsequence of a List or String'.
ghost use Rattle.std.specs.Prelude.{◌≡◌, ◌+◌, ◌∷◌, [], Ok, Err, map, max, is_ok, IsTrue, IfOk, IfErr, IfSome, IfNone, OnOk};
ghost use Rattle.moo_value.specs.Tree.{Tree};
ghost use Rattle.moo_value.specs.Size.{weight, depth};
ghost use Rattle.moo_value.specs.View.{tree};
ghost use Rattle.moo_syntax_node.specs.Source.{source};
ghost use Rattle.moo_syntax_ast.specs.Tree.{property, no_items};
ghost use Rattle.moo_builtin_operator.specs.Answer.{Gives};
ghost use Rattle.moo_eval_frame.specs.Outcome.{answers};
ghost use Rattle.moo_eval_access.specs.Target.{root_of, root_parts, root_from, spots, part_at, with_part, root_value, held, rebuilt};
ghost use Rattle.moo_eval_frame.specs.Seen.{variables_of, seen_answer, seen_by, failure_of, IsKnownFailure, HadMemoryIn};
ghost use Rattle.moo_eval_access.specs.SeenTarget.{root_seen, places_of, step_of, steps_of, spot_of};
ghost use Rattle.moo_eval_slot.specs.Bindings.{bind, with_variable};
ghost use Rattle.moo_eval_access.specs.LetGo.{IsLetGo};
ghost use Rattle.moo_eval_access.specs.Bounds.{IsWithin};

use crate::bounds::are_taken;
use crate::holding::{let_go_each, let_go_inside};
use crate::object::read_property;
use moo_builtin_operator as operation;
use moo_builtin_operator::OperationFault;
use moo_eval_frame::{Activation, Failure, Variables, read_variable};
use moo_syntax_ast::Name;
use moo_syntax_node::{Constant, Node, NodeItem};
use moo_value::{ErrorCode, Value};
use moo_world::World;
use std::alloc::{AllocError, Global};

/// Holds the syntax of a target: the root, and the indexes and ranges that follow it.
#[derive(Drop)]
pub struct Target<'a> {
    pub root: &'a Node,
    pub spots: Vec<Spot<'a>>,
}

/// Holds an index or a range in a target.
#[derive(Drop)]
pub enum Spot<'a> {
    Element(&'a Node),
    Part(&'a Node, &'a Node),
}

/// Names what an assignment sets.
#[derive(Drop)]
pub enum Root<'a> {
    Variable(&'a Name),
    /// A property, by the values of its base and of its name.
    Property(Value, Value),
    Scatter(&'a [NodeItem]),
    /// A list of literals. No program has one before `=`.
    Literals(&'a Constant),
}

/// Holds the place of an element in a container, or the first and the last place of a part.
#[derive(Drop)]
pub enum Places {
    Element(Value),
    /// The part from the first place to the second.
    Part(Value, Value),
}

/// Holds a container, and the places in it.
#[derive(Drop)]
pub struct Step {
    pub container: Value,
    pub places: Places,
}

/// Holds what an assignment sets, and the steps into the containers, from the outermost to the innermost.
#[derive(Drop)]
pub struct Path<'a> {
    pub root: Root<'a>,
    pub steps: Vec<Step>,
}

/// Splits a target into its root and its indexes and ranges.
pub fn taken_apart<'a>(alloc: Global, target: &'a Node) -> Result<Target<'a>, AllocError>
    ensures root { IfOk result (λ t. source t.root.now ≡ root_of (source target.now)) }
    ensures spots { IfOk result (λ t. map spot_of t.spots.items ≡ spots (source target.now)) }
{
    match target {
        Node::Index(base, place) => {
            let mut parts = taken_apart(alloc, base)?;
            parts.spots.push(Spot::Element(place))?;
            Ok(parts)
        }
        Node::Range(base, low, high) => {
            let mut parts = taken_apart(alloc, base)?;
            parts.spots.push(Spot::Part(low, high))?;
            Ok(parts)
        }
        root => Ok(Target {
            root,
            spots: Vec::new(alloc),
        }),
    }
}

/// Returns the base and the name, if an expression is a property.
pub fn as_property(root: &Node) -> Option<(&Node, &Node)>
    ensures some { IfSome result (λ p. source root.now ≡ property (source p.0.now) (source p.1.now)) }
    ensures none { IfNone result (root_parts (source root.now) ≡ no_items) }
{
    match root {
        Node::Property(base, name) => Some((base, name)),
        _ => None,
    }
}

/// Returns what a root without indexes names. An expression that is no target is E_TYPE; no program has it before
/// `=`.
pub fn root_alone(root: &Node) -> Result<Root<'_>, Failure>
    ensures { answers (root_from (source root.now) []) ≡ seen_by root_seen result }
{
    match root {
        Node::Variable(name) => Ok(Root::Variable(name)),
        Node::List(items) => Ok(Root::Scatter(items)),
        Node::Constant(list) => Ok(Root::Literals(list)),
        _ => Err(Failure::Fails(ErrorCode::TypeMismatch)),
    }
}

impl<'a> Root<'a> {
    fn value(&self, alloc: Global, world: &World, active: &Activation) -> Result<Value, Failure>
        ensures { IsKnownFailure result → answers (root_value world.now active.now.programmer (root_seen self.now) (variables_of active.now.variables)) ≡ seen_answer result }
    {
        match self {
            Root::Variable(name) => read_variable(active, name),
            Root::Property(base, name) => {
                read_property(alloc, world, active.programmer, base, name)
            }
            Root::Scatter(_) | Root::Literals(_) => Err(Failure::Fails(ErrorCode::TypeMismatch)),
        }
    }
}

impl Step {
    // Returns the part of the container at the places.
    fn value(&self, alloc: Global) -> Result<Value, OperationFault>
        ensures { Gives result (part_at (tree self.now.container) (places_of self.now.places)) }
    {
        match &self.places {
            Places::Element(place) => operation::index(alloc, &self.container, place),
            Places::Part(low, high) => operation::range(alloc, &self.container, low, high),
        }
    }

    // Is true only if the container takes the value at the places. The container is then no heavier than both together, and
    // no deeper than it was or than a list of the value.
    fn is_taking(&self, value: &Value) -> bool
        ensures { IsTrue result → (w : Tree) × (with_part (tree self.now.container) (places_of self.now.places) (tree value.now) ≡ Ok w) × IsWithin (weight (tree self.now.container) + weight (tree value.now)) (max (depth (tree self.now.container)) (depth (tree value.now) + 1)) w }
    {
        match &self.places {
            Places::Element(place) => {
                match operation::index_refusal(&self.container, place, value) {
                    Some(_) => false,
                    None => true,
                }
            }
            Places::Part(low, high) => operation::takes_range(&self.container, low, high, value),
        }
    }

    /// Returns the container with another value at the places.
    pub fn with(self, alloc: Global, value: Value) -> Result<Value, OperationFault>
        ensures { Gives result (with_part (tree self.container) (places_of self.places) (tree value)) }
    {
        let Step { container, places } = self;
        match places {
            Places::Element(place) => operation::with_index(alloc, container, &place, value),
            Places::Part(low, high) => operation::with_range(alloc, container, &low, &high, &value),
        }
    }
}

impl<'a> Path<'a> {
    /// Returns the value at the end of the path. For the root it raises E_VARNF if the variable isn't set, and the
    /// errors of `read_property`. E_TYPE and E_RANGE for a place that the innermost container doesn't have.
    pub fn value(&self, alloc: Global, world: &World, active: &Activation) -> Result<Value, Failure>
        ensures { IsKnownFailure result → answers (held world.now active.now.programmer (root_seen self.now.root) (steps_of self.now.steps.items) (variables_of active.now.variables)) ≡ seen_answer result }
    {
        match self.steps.split_last() {
            None => self.root.value(alloc, world, active),
            Some((step, _)) => Ok(step.value(alloc)?),
        }
    }
}

/// Returns the outermost container with the value at the end of the steps, or the value itself if there is no step.
/// Raises the error of the first container, from the innermost on, that doesn't take its new part: E_TYPE, E_RANGE,
/// E_INVARG or E_QUOTA. If each container takes its part, a list that nothing but the steps holds is changed in place.
pub fn rebuilt(alloc: Global, steps: Vec<Step>, value: Value) -> Result<Value, Failure>
    ensures { IsKnownFailure result → answers (rebuilt (steps_of steps.items) (Ok (tree value))) ≡ seen_answer result }
{
    let steps = let_go_inside(alloc, steps, &value)?;
    put_back(alloc, steps, value)
}

// Returns what `rebuilt` does. A list that is in the place of another step's container is copied.
fn put_back(alloc: Global, steps: Vec<Step>, value: Value) -> Result<Value, Failure>
    ensures { IsKnownFailure result → answers (rebuilt (steps_of steps.items) (Ok (tree value))) ≡ seen_answer result }
{
    let mut steps = steps;
    let mut whole = value;
    while let Some(step) = steps.pop() {
        whole = step.with(alloc, whole)?;
    }
    Ok(whole)
}

/// Is true only if `rebuilt` raises nothing for the value at the end of these steps. False if there is no step, or if one
/// before the last isn't to an element of a list. False too if a container may get past the limits.
pub fn is_taken(steps: &[Step], value: &Value) -> bool
    ensures { IsTrue result → IsTrue (is_ok (rebuilt (steps_of steps.now) (Ok (tree value.now)))) }
{
    let Some((inner, outer)) = steps.split_last() else {
        return false;
    };
    if !inner.is_taking(value) {
        return false;
    }
    let heaviest = inner.container.weight() + value.weight();
    let deepest = inner.container.depth().max(value.depth() + 1);
    are_taken(outer, heaviest, deepest)
}

/// Appends a step into a container.
pub fn push_step(path: &mut Path<'_>, step: Step) -> Result<(), AllocError>
    ensures root { OnOk result (path.new.root ≡ path.old.root) }
    ensures steps { OnOk result (steps_of path.new.steps.items ≡ step_of step ∷ steps_of path.old.steps.items) }
{
    path.steps.push(step)?;
    Ok(())
}

/// Sets a variable, or the part of it at the end of the steps. Raises the errors of `rebuilt`; the variable then
/// keeps its value. A list that nothing else shares is changed in place. If memory runs out, the variable may be 0.
pub fn set_variable(
    alloc: Global,
    variables: &mut Variables,
    name: &Name,
    steps: Vec<Step>,
    value: Value,
) -> Result<(), Failure>
    ensures ok { OnOk result ((w : Tree) × (answers (rebuilt (steps_of steps.items) (Ok (tree value))) ≡ Ok w) × (variables_of variables.new ≡ with_variable (variables_of variables.old) (bind name.now w))) }
    ensures err { IfErr result (λ failure. HadMemoryIn failure → answers (rebuilt (steps_of steps.items) (Ok (tree value))) ≡ Err (failure_of failure)) }
    ensures kept { IfErr result (λ failure. HadMemoryIn failure → variables_of variables.new ≡ variables_of variables.old) }
{
    let mut inner = steps;
    if inner.is_empty() {
        variables.set(name, value)?;
        return Ok(());
    }
    if is_taken(&inner, &value) {
        return set_taken(alloc, variables, name, inner, value);
    }
    let outer = inner.remove(0);
    let value = put_back(alloc, inner, value)?;
    set_part(alloc, variables, name, outer, value)
}

// Sets a variable to what `rebuilt` returns for steps that take the value. The variable is set to 0 first, so that the
// steps alone hold the lists, if nothing else does.
fn set_taken(
    alloc: Global,
    variables: &mut Variables,
    name: &Name,
    steps: Vec<Step>,
    value: Value,
) -> Result<(), Failure>
    ensures ok { OnOk result ((w : Tree) × (answers (rebuilt (steps_of steps.items) (Ok (tree value))) ≡ Ok w) × (variables_of variables.new ≡ with_variable (variables_of variables.old) (bind name.now w))) }
    ensures err { IfErr result (λ failure. HadMemoryIn failure → answers (rebuilt (steps_of steps.items) (Ok (tree value))) ≡ Err (failure_of failure)) }
{
    variables.set(name, Value::Int(0))?;
    let steps = let_go_each(alloc, steps)?;
    let whole = put_back(alloc, steps, value)?;
    variables.set(name, whole)?;
    Ok(())
}

fn set_part(
    alloc: Global,
    variables: &mut Variables,
    name: &Name,
    step: Step,
    value: Value,
) -> Result<(), Failure>
    ensures ok { OnOk result ((w : Tree) × (with_part (tree step.container) (places_of step.places) (tree value) ≡ Ok w) × (variables_of variables.new ≡ with_variable (variables_of variables.old) (bind name.now w))) }
    ensures err { IfErr result (λ failure. HadMemoryIn failure → answers (with_part (tree step.container) (places_of step.places) (tree value)) ≡ Err (failure_of failure)) }
    ensures kept { IfErr result (λ failure. HadMemoryIn failure → variables_of variables.new ≡ variables_of variables.old) }
{
    let_go(variables, name, &step, &value)?;
    let whole = step.with(alloc, value)?;
    variables.set(name, whole)?;
    Ok(())
}

// Sets the variable to 0 if the step's container takes the value at the place of an element. Then the step alone holds
// the container, if nothing else does.
fn let_go(
    variables: &mut Variables,
    name: &Name,
    step: &Step,
    value: &Value,
) -> Result<(), AllocError>
    ensures { OnOk result (IsLetGo (variables_of variables.old) name.now (with_part (tree step.now.container) (places_of step.now.places) (tree value.now)) (variables_of variables.new)) }
{
    let Places::Element(place) = &step.places else {
        return Ok(());
    };
    match operation::index_refusal(&step.container, place, value) {
        Some(_) => Ok(()),
        None => {
            variables.set(name, Value::Int(0))?;
            Ok(())
        }
    }
}
