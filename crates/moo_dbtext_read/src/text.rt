//! The saved world of a whole database text.
ghost use Rattle.std.specs.Prelude.{◌≡◌, IfOk, IfErr, MatchResult};
ghost use Rattle.moo_dbtext_read.specs.Faults.{IsOfLimits};
ghost use Rattle.moo_dbtext_read.specs.Saved as saving;
ghost use Rattle.moo_dbtext_read.specs.Saved.{saved_of, SpellsSaved, SpellsSavedWithin};
ghost use Rattle.moo_dbtext_read.specs.Loading.{LoadAnswers};
ghost use Rattle.moo_dbtext_read.specs.Refusals.{Refuses};

use crate::Saved;
use crate::db_reader::DbReader;
use moo_dbtext_record::{DbFault, DbFaultKind};
use std::alloc::Global;

fn read_all(alloc: Global, bytes: &[u8]) -> Result<Saved, DbFault>
    ensures { LoadAnswers result bytes.now }
{
    let mut reader = DbReader::new(alloc);
    reader.feed(alloc, bytes)?;
    reader.finish(alloc)
}

/// Reads the saved world that the bytes of a whole text spell. Returns the first fault, or `Memory`.
pub fn read_db(alloc: Global, bytes: &[u8]) -> Result<Saved, DbFault>
    // The bytes spell, within the limits, the saved world that is returned.
    ensures found { IfOk result (λ s. SpellsSavedWithin bytes.now (saved_of s)) }
    // If the bytes spell a saved world, the reader returns it, unless memory runs out or a limit is exceeded.
    ensures only { (s : saving.Saved) → SpellsSaved bytes.now s → MatchResult result (λ r. saved_of r ≡ s) (λ e. IsOfLimits e.kind) }
    // If it is within the limits, the reader returns it, unless memory runs out.
    ensures within { (s : saving.Saved) → SpellsSavedWithin bytes.now s → MatchResult result (λ r. saved_of r ≡ s) (λ e. e.kind ≡ DbFaultKind.Memory) }
    // If the text is refused, the reported fault says why.
    ensures refused { IfErr result (Refuses bytes.now) }
    // The answer is that of a reader that is fed these bytes in any pieces.
    ensures exact { LoadAnswers result bytes.now }
{
    read_all(alloc, bytes)
}
