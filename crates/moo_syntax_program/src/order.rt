//! The slots of a program's variables, sorted by name for a binary search.
ghost use Rattle.std.specs.Prelude.{◌≡◌, List, ℕ, position, IfOk};
ghost use Rattle.std.specs.List.{IsDistinct};
ghost use Rattle.std.specs.Ordering.{nat_cmp};
ghost use Rattle.std.specs.Cmp.Lexicographic.{slice_cmp};
ghost use Rattle.std.specs.Str.{bytes_eq};
ghost use Rattle.moo_value.specs.Compare.{folded};
ghost use Rattle.moo_syntax_program.specs.Order.{numbered, AreOrdered};

use moo_syntax_ast::Name;
use moo_value::MooStr;
use std::alloc::{AllocError, Global};
use std::cmp::Ordering;

/// A name and its slot.
#[derive(Drop)]
pub(crate) struct Slot {
    name: MooStr,
    slot: usize,
}

/// Returns the slots of these names, sorted by name.
pub(crate) fn ordered_slots(alloc: Global, names: &[Name]) -> Result<Vec<Slot>, AllocError>
    ensures { IfOk result (λ slots. AreOrdered names.now slots.items) }
{
    let mut slots = numbered(alloc, names)?;
    slots.sort_unstable_by(|a, b| a.name.as_bytes().cmp(b.name.as_bytes()));
    Ok(slots)
}

fn numbered(alloc: Global, names: &[Name]) -> Result<Vec<Slot>, AllocError>
    ensures { IfOk result (λ slots. slots.items ≡ numbered 0 names.now) }
{
    let mut slots = Vec::with_capacity(alloc, names.len())?;
    for (slot, name) in names.iter().enumerate() {
        let name = name.text().try_clone()?;
        slots.push(Slot { name, slot })?;
    }
    Ok(slots)
}

/// Returns the slot of a name, in any case, or `None` if no slot has it.
pub(crate) fn slot_among(slots: &[Slot], name: &[u8]) -> Option<usize>
    ensures { (names : List (List ℕ)) → AreOrdered names slots.now → IsDistinct bytes_eq names → result ≡ position (λ own. bytes_eq own (folded name.now)) names }
{
    match slots.binary_search_by(|slot| slot.order_to(name)) {
        Ok(at) => Some(slots[at].slot),
        Err(_) => None,
    }
}

impl Slot {
    // Compares the slot's name with another name in lower case.
    fn order_to(&self, name: &[u8]) -> Ordering
        ensures { result ≡ slice_cmp nat_cmp self.now.name (folded name.now) }
    {
        let folded = name.iter().map(|byte| byte.to_ascii_lowercase());
        self.name.as_bytes().iter().copied().cmp(folded)
    }
}
