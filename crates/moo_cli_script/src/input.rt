//! The input of a script: its lines, one by one, and the whole text of its database.
ghost use Rattle.std.specs.Prelude.{◌≡◌, ◌<◌, ◌≤◌, ◌++◌, length, IfErr, IfOk, IfSome, MatchOption, OnOk};
ghost use Rattle.std.specs.Io.KnownBytes.{IsAtEnd};
ghost use Rattle.moo_cli_io.specs.Refused.{IsEarned};
ghost use Rattle.moo_cli_io.specs.Watching.{most_reads};
ghost use Rattle.moo_cli_script.specs.Lines.{TakesLine};

use moo_cli_io::{ExitReason, PartEnd, Watch, next_part};
use std::alloc::Global;
use std::io::{BufRead, Read};

/// The number of bytes of the database in one read.
const PIECE: usize = 65_536;

/// Returns the input's next line, without its LF, or `None` at the input's end. The last line may have no LF. Returns
/// a refusal if the input fails or memory runs out.
pub fn next_line<I: BufRead>(
    alloc: Global,
    input: &mut I,
    watch: &mut Watch,
) -> Result<Option<Vec<u8>>, ExitReason>
    ensures line { IfOk result (λ read. MatchOption read (IsAtEnd (I.remaining input.old)) (λ line. TakesLine (I.remaining input.old) (I.remaining input.new) line.items)) }
    ensures count { OnOk result ((watch.old.reads < watch.new.reads) × (watch.new.reads ≤ most_reads)) }
    ensures earned { IfErr result (IsEarned watch.new) }
{
    let mut line = Vec::new(alloc);
    loop {
        let part = next_part(alloc, input, watch)?;
        let Ok(()) = line.extend_from_slice(part.bytes.as_slice()) else {
            return Err(watch.lack());
        };
        match part.end {
            PartEnd::More => {}
            PartEnd::LineFeed => return Ok(Some(line)),
            PartEnd::Input => {
                if line.is_empty() {
                    return Ok(None);
                }
                return Ok(Some(line));
            }
        }
    }
}

/// Returns the rest of the database's bytes. Returns a refusal if the reader fails or memory runs out.
pub fn whole_text<F: Read>(
    alloc: Global,
    database: &mut F,
    watch: &mut Watch,
) -> Result<Vec<u8>, ExitReason>
    ensures text { IfOk result (λ text. IfSome (F.remaining database.old) (λ bytes. text.items ≡ bytes)) }
    ensures earned { IfErr result (IsEarned watch.new) }
{
    let mut text = Vec::new(alloc);
    let Ok(mut buffer) = vec![in alloc; 0u8; PIECE] else {
        return Err(watch.lack());
    };
    read_all(database, watch, &mut text, &mut buffer)?;
    Ok(text)
}

// Appends the rest of the reader's bytes to the text.
fn read_all<F: Read>(
    database: &mut F,
    watch: &mut Watch,
    text: &mut Vec<u8>,
    buffer: &mut [u8],
) -> Result<(), ExitReason>
    requires { 0 < length buffer.old }
    ensures text { OnOk result (IfSome (F.remaining database.old) (λ bytes. text.new.items ≡ text.old.items ++ bytes)) }
    ensures earned { IfErr result (IsEarned watch.new) }
{
    while let Some(count) = watch.read(database, buffer)? {
        let Ok(()) = text.extend_from_slice(&buffer[..count]) else {
            return Err(watch.lack());
        };
    }
    Ok(())
}
