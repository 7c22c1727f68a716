//! Looks for lists that are spliced into the arguments of a call, and collects values.
ghost use Rattle.std.specs.Prelude.{◌≡◌, ◌++◌, ◌∷◌, [], OnOk};
ghost use Rattle.std.specs.List.{list_any};
ghost use Rattle.moo_value.specs.View.{tree as tree_of, trees};
ghost use Rattle.moo_eval_task.specs.Arguments.{is_splice};

use moo_syntax_node::NodeItem;
use moo_value::Value;
use std::alloc::AllocError;

/// Returns whether one of the items is a list that is spliced in.
#[inline(always)]
pub fn has_splice(items: &[NodeItem]) -> bool
    ensures { result ≡ list_any is_splice items.now }
{
    items.iter().any(is_splice)
}

#[inline(always)]
fn is_splice(item: &NodeItem) -> bool
    ensures { result ≡ is_splice item.now }
{
    matches!(item, NodeItem::Splice(_))
}

/// Appends a value. Err is out of memory.
#[inline(always)]
pub fn push(values: &mut Vec<Value>, value: Value) -> Result<(), AllocError>
    ensures { OnOk result (trees values.new.items ≡ trees values.old.items ++ tree_of value ∷ []) }
{
    values.push(value)?;
    Ok(())
}
