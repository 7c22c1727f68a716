//! The targets of assignments.
ghost use Rattle.std.specs.Prelude.{◌≡◌, false};
ghost use Rattle.moo_syntax_ast.specs.View.{tree, items_of};
ghost use Rattle.moo_syntax_ast.specs.Target.{is_variable, is_place, are_names, is_scatter, is_target};

use crate::tree::{Expr, Item};

/// Is true if the expression may be the target of an assignment: a variable, a property, an index of one of these or of
/// an index, or a range of any of these; or a list, not empty, of variables, names that may be left out and at most one
/// splice, of a variable.
pub fn is_target(value: &Expr) -> bool
    ensures { result ≡ is_target (tree value.now) }
{
    match value {
        Expr::Range(base, ..) => is_place(base),
        Expr::List(items) => is_scatter(items),
        _ => is_place(value),
    }
}

fn is_place(value: &Expr) -> bool
    ensures { result ≡ is_place (tree value.now) }
{
    match value {
        Expr::Variable(_) | Expr::Property(..) => true,
        Expr::Index(base, _) => is_place(base),
        _ => false,
    }
}

fn is_scatter(items: &[Item]) -> bool
    ensures { result ≡ is_scatter (items_of items.now) }
{
    !items.is_empty() && are_names(items)
}

fn are_names(items: &[Item]) -> bool
    ensures { result ≡ are_names false (items_of items.now) }
{
    let mut spliced = false;
    for item in items {
        let named = match item {
            Item::Element(value) => is_variable(value),
            Item::Splice(value) => !spliced && is_variable(value),
            Item::Optional(_) | Item::Defaulted(_, _) => true,
        };
        if !named {
            return false;
        }
        spliced = spliced || matches!(item, Item::Splice(_));
    }
    true
}

fn is_variable(value: &Expr) -> bool
    ensures { result ≡ is_variable (tree value.now) }
{
    matches!(value, Expr::Variable(_))
}
