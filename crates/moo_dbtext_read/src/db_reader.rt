//! A reader of database texts that come in pieces.
ghost use Rattle.std.specs.Prelude.{◌++◌, ℕ, List, [], OnOk, IfOk, IfErr, IsErrOf};
ghost use Rattle.moo_dbtext_record.specs.declared.fault.DbFault.{DbFault};
ghost use Rattle.moo_dbtext_read.specs.Saved.{saved_of, SpellsSavedWithin};
ghost use Rattle.moo_dbtext_read.specs.Loading.{LoadAnswers, IsRefusedFrom};
ghost use Rattle.moo_dbtext_read.specs.Refusals.{Refuses};
ghost use Rattle.moo_dbtext_read.specs.Feeding.{HasFed, IsWell, HasRefused};

use crate::Saved;
use crate::world_reader::WorldReader;
use moo_dbtext_record::DbFault;
use std::alloc::Global;
use std::marker::Model;

/// Reads a database text in pieces. Reports the faults of its objects as soon as the last of them has come. After a
/// fault each call returns that fault.
#[derive(Drop)]
pub struct DbReader {
    reader: WorldReader,
}

impl Model for DbReader {
    ghost use Rattle.std.specs.Prelude.{ℕ, List};
    ghost use Rattle.moo_dbtext_read.specs.Taking.{HasTaken};
    ghost use Rattle.moo_dbtext_read.specs.declared.world_reader.WorldReader.{WorldReader};
    ghost use Rattle.moo_dbtext_read.specs.contracts.world_reader.WorldReader as worlds;

    ghost Value = { WorldReader };

    ghost coded = { worlds.the_row.coded };

    ghost view = { λ r. r.reader };

    // Some bytes, perhaps none, have been fed.
    ghost invariant = { λ r. (bytes : List ℕ) × HasTaken r.reader bytes };
}

impl DbReader {
    /// Returns a reader that expects the first byte.
    pub fn new(alloc: Global) -> DbReader
        ensures { HasFed result [] }
    {
        DbReader {
            reader: WorldReader::new(alloc),
        }
    }

    /// Takes the next piece of the text. A fault holds of every text that begins with the bytes so far. Returns
    /// `Memory` if memory runs out.
    pub fn feed(&mut self, alloc: Global, piece: &[u8]) -> Result<(), DbFault>
        ensures taken { (bytes : List ℕ) → HasFed self.old bytes → HasFed self.new (bytes ++ piece.now) }
        ensures ok { OnOk result (IsWell self.new) }
        ensures failed { IfErr result (HasRefused self.new) }
        ensures refused { (bytes : List ℕ) → HasFed self.old bytes → IfErr result (IsRefusedFrom (bytes ++ piece.now)) }
        ensures again { (e : DbFault) → HasRefused self.old e → IsErrOf result e }
    {
        self.reader.feed(alloc, piece)
    }

    fn end(self, alloc: Global, is_left: bool) -> Result<Saved, DbFault>
        ensures answer { (bytes : List ℕ) → HasFed self bytes → LoadAnswers result bytes }
        ensures again { (e : DbFault) → HasRefused self e → IsErrOf result e }
    {
        self.reader.finish(alloc, is_left)
    }

    /// Returns the saved world, once the whole text has been fed. Fails if a line is missing or has no end, or with
    /// an earlier fault, or if memory runs out.
    pub fn finish(self, alloc: Global) -> Result<Saved, DbFault>
        // The bytes spell, within the limits, the saved world that is returned.
        ensures found { (bytes : List ℕ) → HasFed self bytes → IfOk result (λ s. SpellsSavedWithin bytes (saved_of s)) }
        // If the text is refused, the reported fault says why.
        ensures refused { (bytes : List ℕ) → HasFed self bytes → IfErr result (Refuses bytes) }
        // The answer is that of `read_db` for these bytes.
        ensures answer { (bytes : List ℕ) → HasFed self bytes → LoadAnswers result bytes }
        ensures again { (e : DbFault) → HasRefused self e → IsErrOf result e }
    {
        self.end(alloc, false)
    }

    /// Returns the saved world as `finish` does, for a process that ends soon. It leaks the memory of the records
    /// that the world is made from.
    pub fn finish_leaving(self, alloc: Global) -> Result<Saved, DbFault>
        // The bytes spell, within the limits, the saved world that is returned.
        ensures found { (bytes : List ℕ) → HasFed self bytes → IfOk result (λ s. SpellsSavedWithin bytes (saved_of s)) }
        // If the text is refused, the reported fault says why.
        ensures refused { (bytes : List ℕ) → HasFed self bytes → IfErr result (Refuses bytes) }
        // The answer is that of `read_db` for these bytes.
        ensures answer { (bytes : List ℕ) → HasFed self bytes → LoadAnswers result bytes }
        ensures again { (e : DbFault) → HasRefused self e → IsErrOf result e }
    {
        self.end(alloc, true)
    }
}
