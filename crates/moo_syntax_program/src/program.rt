//! The programs of texts.
ghost use Rattle.std.specs.Prelude.{◌≡◌, position, IfOk};
ghost use Rattle.std.specs.Str.{bytes_eq};
ghost use Rattle.moo_value.specs.Compare.{folded};
ghost use Rattle.moo_syntax_ast.specs.Tree.{no_statement};
ghost use Rattle.moo_syntax_ast.specs.View.{block};
ghost use Rattle.moo_syntax_ast.specs.Limits.{IsWithinLimits};
ghost use Rattle.moo_syntax_ast.specs.Slots.{slots};
ghost use Rattle.moo_syntax_node.specs.Blocks.{source_block};
ghost use Rattle.moo_syntax_grammar.specs.Texts.{HasText};

use crate::order::{Slot, ordered_slots, slot_among};
use moo_syntax_ast::{Name, Stmt};
use moo_syntax_node::NodeStmt;
use moo_value::MooStr;
use std::alloc::{AllocError, Global};
use std::marker::Model;
use std::rc::Rc;

/// A program of some text, within the limits and immutable. A clone shares its parts.
#[derive(Drop)]
pub struct Program {
    parts: Rc<Parts>,
}

/// The parts that the clones of a program share.
#[derive(Drop)]
struct Parts {
    statements: Vec<Stmt>,
    /// The lowered statements.
    body: Vec<NodeStmt>,
    names: Vec<Name>,
    /// The spellings of the names.
    texts: Vec<MooStr>,
    /// The slots, sorted by name.
    order: Vec<Slot>,
}

impl Model for Program {
    ghost use Rattle.std.specs.Coded.{codes};
    ghost use Rattle.moo_syntax_ast.specs.Tree.{Block};
    ghost use Rattle.moo_syntax_ast.specs.Code.{block_code};
    ghost use Rattle.moo_syntax_ast.specs.View.{block};
    ghost use Rattle.std.specs.Prelude.{◌≡◌};
    ghost use Rattle.moo_syntax_ast.specs.Limits.{IsWithinLimits};
    ghost use Rattle.moo_syntax_ast.specs.Slots.{slots};
    ghost use Rattle.moo_syntax_node.specs.Blocks.{source_block};
    ghost use Rattle.moo_syntax_grammar.specs.Texts.{HasText};
    ghost use Rattle.moo_syntax_program.specs.Order.{AreOrdered};

    ghost Value = { Block };

    ghost coded = { block_code (Prim.hlevel codes) };

    ghost view = { λ p. block p.parts.value.statements.items };

    ghost invariant = { λ p. IsWithinLimits (block p.parts.value.statements.items) × HasText (block p.parts.value.statements.items) × (p.parts.value.names.items ≡ slots (block p.parts.value.statements.items)) × AreOrdered p.parts.value.names.items p.parts.value.order.items × (p.parts.value.texts.items ≡ slots (block p.parts.value.statements.items)) × (source_block p.parts.value.body.items ≡ block p.parts.value.statements.items) };
}

impl Program {
    /// Makes the program of these statements, which the caller has parsed from a text and found to be within the
    /// limits. `body` is their lowered form, and `names` are the names of their variables. Err is out of memory.
    pub fn try_new(
        alloc: Global,
        statements: Vec<Stmt>,
        body: Vec<NodeStmt>,
        names: Vec<Name>,
    ) -> Result<Program, AllocError>
        requires limits { IsWithinLimits (block statements.items) }
        requires text { HasText (block statements.items) }
        requires lowered { source_block body.items ≡ block statements.items }
        requires variables { names.items ≡ slots (block statements.items) }
        ensures { IfOk result (λ p. p ≡ block statements.items) }
    {
        let texts = texts_of(alloc, &names)?;
        let order = ordered_slots(alloc, &names)?;
        let parts = Rc::new(
            alloc,
            Parts {
                statements,
                body,
                names,
                texts,
                order,
            },
        )?;
        Ok(Program { parts })
    }

    /// Makes the program of no lines.
    pub fn empty(alloc: Global) -> Result<Program, AllocError>
        ensures { IfOk result (λ p. p ≡ no_statement) }
    {
        Program::try_new(alloc, Vec::new(alloc), Vec::new(alloc), Vec::new(alloc))
    }

    /// Returns a clone, which shares the program's parts.
    #[inline(always)]
    pub fn try_clone(&self) -> Result<Program, AllocError>
        ensures { IfOk result (λ p. p ≡ self.now) }
    {
        let parts = self.parts.clone()?;
        Ok(Program { parts })
    }

    /// Returns the statements, in order.
    pub fn statements(&self) -> &[Stmt]
        ensures statements { block result.now ≡ self.now }
        ensures limits { IsWithinLimits self.now }
        ensures text { HasText self.now }
    {
        self.parts.statements.as_slice()
    }

    /// Returns the lowered statements, in order.
    #[inline(always)]
    pub fn code(&self) -> &[NodeStmt]
        ensures { source_block result.now ≡ self.now }
    {
        self.parts.body.as_slice()
    }

    /// Returns the names of the program's variables in lower case, each once, in the order of their first occurrences.
    pub fn slots(&self) -> &[MooStr]
        ensures { result.now ≡ slots self.now }
    {
        self.parts.texts.as_slice()
    }

    /// Returns the names of the slots, in the order of `slots`, with the numbers by which names are compared.
    pub fn slot_names(&self) -> &[Name]
        ensures { result.now ≡ slots self.now }
    {
        self.parts.names.as_slice()
    }

    /// Returns the slot of a name, in any case, or `None` if no variable of the program has it.
    pub fn slot_of(&self, name: &[u8]) -> Option<usize>
        ensures { result ≡ position (λ own. bytes_eq (folded own) (folded name.now)) (slots self.now) }
    {
        slot_among(self.parts.order.as_slice(), name)
    }
}

// Returns the spellings of names.
fn texts_of(alloc: Global, names: &[Name]) -> Result<Vec<MooStr>, AllocError>
    ensures { IfOk result (λ texts. texts.items ≡ names.now) }
{
    let mut texts = Vec::new(alloc);
    for name in names {
        texts.push(name.text().try_clone()?)?;
    }
    Ok(texts)
}
