//! Reads and tests properties with literal names at once.
ghost use Rattle.std.specs.Prelude.{◌≡◌, ◌≤◌, ◌<◌, ◌-◌, None, Some, Ok, IfSome, IfNone};
ghost use Rattle.moo_value.specs.Tree.{Tree, object};
ghost use Rattle.moo_value.specs.View.{tree};
ghost use Rattle.moo_syntax_ast.specs.declared.tree.Literal.TheVariants.{Str};
ghost use Rattle.moo_syntax_ast.specs.Tree.{Expr, literal, property};
ghost use Rattle.moo_syntax_node.specs.Source.{source};
ghost use Rattle.moo_builtin_operator.specs.Truth.{is_true};
ghost use Rattle.moo_eval_frame.specs.State.{Context};
ghost use Rattle.moo_eval_frame.specs.Seen.{indexed_of, variables_of};
ghost use Rattle.moo_builtin.specs.Telling.{Faults};
ghost use Rattle.moo_eval_semantics.specs.Meaning.{Evaluates};
ghost use Rattle.moo_eval_task.specs.Leaves.{GivesLeaf};
ghost use Rattle.moo_eval_task.specs.Seen.{state_of};

use crate::task::Task;
use moo_builtin_operator::is_true;
use moo_eval_access::{as_text, read_known};
use moo_eval_frame::Activation;
use moo_syntax_ast::Text;
use moo_syntax_node::Node;
use moo_value::Value;
use moo_world::World;

impl Task {
    /// Reads a property whose name is a literal, and takes its ticks. The object is a literal, or in a variable. `None`
    /// if that can't be, or for another node; then nothing has changed.
    #[inline(always)]
    pub fn try_property(&mut self, world: &World, active: &Activation, node: &Node) -> Option<Value>
        ensures some { IfSome result (λ v. (c : Context) → Evaluates Faults c (source node.now) (state_of self.old world.now active.now) (Ok (tree v)) (state_of self.new world.now active.now)) }
        ensures none { IfNone result (self.new ≡ self.old) }
        ensures ticks { self.new.ticks_left ≤ self.old.ticks_left }
    {
        let (object, name) = literal_property(active, node)?;
        let ticks = self.ticks_left.left() as u32;
        if ticks < 3 {
            return None;
        }
        let value = read_known(self.alloc(), world, active.programmer, object, name)?;
        self.ticks_left.leave(ticks - 3);
        Some(value)
    }

    /// Returns whether the value of a property is true, without a copy of it, and takes its ticks. `None` as
    /// `try_property`, and for a built-in property.
    #[inline(always)]
    pub fn try_property_test(
        &mut self,
        world: &World,
        active: &Activation,
        node: &Node,
    ) -> Option<bool>
        ensures some { IfSome result (λ b. (c : Context) → (v : Tree) × Evaluates Faults c (source node.now) (state_of self.old world.now active.now) (Ok v) (state_of self.new world.now active.now) × (is_true v ≡ b)) }
        ensures none { IfNone result (self.new ≡ self.old) }
        ensures ticks { self.new.ticks_left ≤ self.old.ticks_left }
    {
        let (object, name) = literal_property(active, node)?;
        let left = self.ticks_left.left() as u32;
        if left < 3 {
            return None;
        }
        let passes = is_true(world.readable_known(active.programmer, object, name)?);
        self.ticks_left.leave(left - 3);
        Some(passes)
    }
}

// Returns the object and the name of a property whose name is a literal, of an object in a variable or of a literal
// one.
#[inline(always)]
fn literal_property<'a>(active: &Activation, node: &'a Node) -> Option<(i32, &'a Text)>
    ensures { IfSome result (λ p. (b : Expr) × (source node.now ≡ property b (literal (Str p.1.now))) × GivesLeaf (variables_of active.now.variables) b (object p.0)) }
{
    let Node::Property(base, name) = node else {
        return None;
    };
    let name = as_text(name)?;
    let object = object_of(active, base)?;
    Some((object, name))
}

/// Returns the object in a variable, or the literal one that a node is. `None` for another value or another node.
#[inline(always)]
pub(crate) fn object_of(active: &Activation, node: &Node) -> Option<i32>
    ensures { IfSome result (λ o. GivesLeaf (variables_of active.now.variables) (source node.now) (object o)) }
{
    match node {
        Node::Variable(name) => object_in(active.variables.get_base(name)),
        Node::Object(number) => Some(*number),
        _ => None,
    }
}

// Returns the object that a value is.
#[inline(always)]
fn object_in(value: Option<&Value>) -> Option<i32>
    ensures { IfSome result (λ o. indexed_of value.entry ≡ Some (object o)) }
{
    match value {
        Some(Value::Obj(number)) => Some(*number),
        _ => None,
    }
}
