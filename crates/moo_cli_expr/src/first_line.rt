//! The first line of an input of any length.
ghost use Rattle.std.specs.Prelude.{IfErr, IfOk, IfSome, OnOk};
ghost use Rattle.moo_cli_io.specs.Refused.{IsEarned};
ghost use Rattle.moo_cli_expr.specs.FirstLine.{first_line};
ghost use Rattle.moo_cli_expr.specs.Held.{StandsFor, Holds};

use moo_cli_io::{ExitReason, Watch, next_part};
use moo_value::is_text;
use std::alloc::{AllocError, Global};
use std::io::BufRead;

/// The number of bytes at which a line is too long for a program.
const LONG: usize = 1_000_000;

/// Returns the first line of the input, without its LF. Returns only a part of a line that is too long, or that has a
/// byte which no string can hold. Returns a refusal if the input fails or memory runs out.
pub fn read_first_line<I: BufRead>(
    alloc: Global,
    input: &mut I,
    watch: &mut Watch,
) -> Result<Vec<u8>, ExitReason>
    ensures line { IfOk result (λ held. IfSome (I.remaining input.old) (λ bytes. StandsFor held.items (first_line bytes))) }
    ensures earned { IfErr result (IsEarned watch.new) }
{
    let mut held = Vec::new(alloc);
    loop {
        let part = next_part(alloc, input, watch)?;
        let is_good = is_text(part.bytes.as_slice());
        let Ok(()) = hold(&mut held, part.bytes.as_slice(), is_good) else {
            return Err(watch.lack());
        };
        if part.is_last() {
            return Ok(held);
        }
        if !is_good {
            return Ok(held);
        }
    }
}

// Appends bytes of the line to those held, if they can still change the result.
fn hold(held: &mut Vec<u8>, bytes: &[u8], is_good: bool) -> Result<(), AllocError>
    ensures { OnOk result (Holds held.old.items bytes.now is_good held.new.items) }
{
    if is_good && held.len() >= LONG {
        return Ok(());
    }
    held.extend_from_slice(bytes)
}
