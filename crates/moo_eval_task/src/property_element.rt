//! Recognises `base.name[place] = value`.
ghost use Rattle.std.specs.Prelude.{◌≡◌, None, IfSome};
ghost use Rattle.moo_syntax_node.specs.Source.{source};
ghost use Rattle.moo_eval_task.specs.Element.{sets_part};

use moo_eval_access::{as_property, as_text};
use moo_syntax_ast::Text;
use moo_syntax_node::Node;

/// Returns the object, the name, the place and the value, if the expression assigns to an element of a property whose
/// name is a literal.
pub fn as_set_property_element(node: &Node) -> Option<(&Node, &Text, &Node, &Node)>
    ensures { IfSome result (λ p. source node.now ≡ sets_part (source p.0.now) p.1.now (source p.2.now) (source p.3.now)) }
{
    let Node::Assign(target, value) = node else {
        return None;
    };
    let Node::Index(container, place) = target.as_ref() else {
        return None;
    };
    let (base, name) = as_property(container)?;
    let name = as_text(name)?;
    Some((base, name, place, value))
}
