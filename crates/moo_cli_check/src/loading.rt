//! Loads the saved world of an input of any size.
ghost use Rattle.std.specs.Prelude.{◌<◌, [], Err, length, IfErr, IfOk, IfSome, MatchResult};
ghost use Rattle.moo_dbtext_read.specs.Feeding.{HasFed};
ghost use Rattle.moo_dbtext_read.specs.Loading.{LoadAnswers};
ghost use Rattle.moo_cli_io.specs.Refused.{IsEarned};

use moo_cli_io::{ExitReason, Watch};
use moo_dbtext_read::{DbFault, DbReader, Saved};
use std::alloc::Global;
use std::io::Read;

/// The number of bytes in one read.
const PIECE: usize = 65_536;

/// Loads the saved world of the rest of the input, or returns the fault of its text. Leaks the memory of the records
/// that the world is made from. Returns a refusal if the input fails or memory runs out.
pub fn load<I: Read>(
    alloc: Global,
    input: &mut I,
    watch: &mut Watch,
) -> Result<Result<Saved, DbFault>, ExitReason>
    ensures answer { IfOk result (λ loaded. IfSome (I.remaining input.old) (LoadAnswers loaded)) }
    ensures earned { IfErr result (IsEarned watch.new) }
{
    let mut reader = DbReader::new(alloc);
    let Ok(mut buffer) = vec![in alloc; 0u8; PIECE] else {
        return Err(watch.lack());
    };
    match feed_all(alloc, input, watch, &mut reader, &mut buffer)? {
        Ok(()) => Ok(reader.finish_leaving(alloc)),
        Err(fault) => Ok(Err(fault)),
    }
}

// Feeds the reader the rest of the input, or the input up to a fault.
fn feed_all<I: Read>(
    alloc: Global,
    input: &mut I,
    watch: &mut Watch,
    reader: &mut DbReader,
    buffer: &mut [u8],
) -> Result<Result<(), DbFault>, ExitReason>
    requires room { 0 < length buffer.old }
    requires fresh { HasFed reader.old [] }
    ensures fed { IfOk result (λ fed. IfSome (I.remaining input.old) (λ bytes. MatchResult fed (λ _. HasFed reader.new bytes) (λ e. LoadAnswers (Err e) bytes))) }
    ensures earned { IfErr result (IsEarned watch.new) }
{
    while let Some(count) = watch.read(input, buffer)? {
        if let Err(fault) = reader.feed(alloc, &buffer[..count]) {
            return Ok(Err(fault));
        }
    }
    Ok(Ok(()))
}
