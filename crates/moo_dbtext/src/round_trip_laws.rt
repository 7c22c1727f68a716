//! A law of writing a saved world and reading it back.
ghost use Rattle.std.specs.Prelude.{◌≡◌, length, IfOk, IfErr, MatchResult};
ghost use Rattle.moo_dbtext_object.specs.Lines.{IsCountOf, limited};
ghost use Rattle.moo_dbtext_read.specs.Saved.{saved_of, SpellsSavedWithin};

use crate::write_db;
use moo_dbtext_read::{DbFault, DbFaultKind, Saved, read_db};
use std::alloc::Global;

fn written(alloc: Global, saved: &Saved) -> Result<Vec<u8>, DbFault>
    ensures within { IfOk result (λ text. IsCountOf limited (length saved.now.connected.items) → SpellsSavedWithin text.items (saved_of saved.now)) }
    ensures memory { IfErr result (λ e. e.kind ≡ DbFaultKind.Memory) }
{
    match write_db(alloc, saved) {
        Ok(text) => Ok(text),
        Err(_) => Err(DbFault {
            line: 0,
            kind: DbFaultKind::Memory,
        }),
    }
}

/// Writes a saved world, and reads it back. The result is equal to it. Fails only if memory runs out.
pub fn written_and_read(alloc: Global, saved: &Saved) -> Result<Saved, DbFault>
    requires { IsCountOf limited (length saved.now.connected.items) }
    ensures { MatchResult result (λ again. saved_of again ≡ saved_of saved.now) (λ e. e.kind ≡ DbFaultKind.Memory) }
{
    saved.world.is_well_formed();
    let text = written(alloc, saved)?;
    read_db(alloc, &text)
}
