//! Trees with their heights: the most nodes on a path of them.
ghost use Rattle.std.specs.Prelude.{◌≡◌, ◌∷◌, ◌++◌, [], max, IfErr, IfOk, OnOk};
ghost use Rattle.moo_syntax_ast.specs.Limits.{height as height_of, items_height, codes_height};
ghost use Rattle.moo_syntax_ast.specs.View.{root, items_of, codes_of};
ghost use Rattle.moo_syntax_grammar.specs.Grammar.{has_optional};
ghost use Rattle.moo_syntax.specs.declared.fault.Fault.TheVariants.{Memory};
ghost use Rattle.moo_syntax_grammar.specs.Items.{item_height};
ghost use Rattle.moo_syntax.specs.Items.{optional_with};

use crate::fault::Fault;
use moo_syntax_ast::{Codes, Expr, Item};
use std::alloc::Global;

/// An expression and its height.
#[derive(Drop)]
pub struct Node {
    pub tree: Box<Expr>,
    pub height: u32,
    ghost in_step: { height ≡ height_of (root tree) },
}

/// An item of a list and its height.
#[derive(Drop)]
pub struct Member {
    pub item: Item,
    pub height: u32,
    ghost in_step: { height ≡ item_height item },
}

/// The items of a list, the greatest of their heights, and whether one of them is a `?` piece.
#[derive(Drop)]
pub struct Members {
    pub items: Vec<Item>,
    pub height: u32,
    pub optional: bool,
    ghost in_step: { height ≡ items_height (items_of items.items) },
    ghost told: { optional ≡ has_optional (items_of items.items) },
}

/// The errors of a catch and the greatest of their heights.
#[derive(Drop)]
pub struct Caught {
    pub codes: Codes,
    pub height: u32,
    ghost in_step: { height ≡ codes_height (codes_of codes) },
}

impl Members {
    /// Returns an empty list of items.
    pub fn new(alloc: Global) -> Members
        ensures { result.items.items ≡ [] }
    {
        Members {
            items: Vec::new(alloc),
            height: 0,
            optional: false,
        }
    }

    /// Returns an empty list of items with capacity for two.
    pub fn begun(alloc: Global) -> Result<Members, Fault>
        ensures ok { IfOk result (λ m. m.items.items ≡ []) }
        ensures err { IfErr result (λ f. f ≡ Memory) }
    {
        Ok(Members {
            items: Vec::with_capacity(alloc, 2)?,
            height: 0,
            optional: false,
        })
    }

    /// Appends the item.
    pub fn push(&mut self, member: Member) -> Result<(), Fault>
        ensures items { OnOk result (self.new.items.items ≡ self.old.items.items ++ member.item ∷ []) }
        ensures height { OnOk result (self.new.height ≡ max self.old.height member.height) }
        ensures err { IfErr result (λ f. f ≡ Memory) }
    {
        let optional = optional_with(self.optional, &member.item);
        self.items.push(member.item)?;
        self.height = self.height.max(member.height);
        self.optional = optional;
        Ok(())
    }
}

/// Is true if the item is a `?` piece or `optional` is true.
fn optional_with(optional: bool, item: &Item) -> bool
    ensures { result ≡ optional_with optional item.now }
{
    match item {
        Item::Element(_) | Item::Splice(_) => optional,
        Item::Optional(_) | Item::Defaulted(_, _) => true,
    }
}
