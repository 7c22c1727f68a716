//! A part of a line: the bytes of it that a reader has buffered.
ghost use Rattle.std.specs.Prelude.{◌≡◌, ◌≢◌, ◌<◌, ◌≤◌, ◌+◌, length, take, slice_index, All, IfErr, IfNone, IfOk, IfSome, OnOk};
ghost use Rattle.moo_cli_io.specs.Parts.{TakesPart, is_last};
ghost use Rattle.moo_cli_io.specs.Refused.{IsEarned};
ghost use Rattle.moo_cli_io.specs.Watching.{most_reads, Remembers};

use crate::exit_reason::ExitReason;
use crate::watch::Watch;
use std::alloc::Global;
use std::io::{BufRead, ErrorKind};

/// The end of a part of a line.
#[derive(Clone, Copy, Debug, PartialEq, Eq)]
pub enum PartEnd {
    /// The line may go on.
    More,
    /// An LF ends the line. It was consumed too.
    LineFeed,
    /// The input ends.
    Input,
}

/// Some bytes of a line, without its LF, and how they end.
#[derive(Drop)]
pub struct LinePart {
    /// The bytes.
    pub bytes: Vec<u8>,
    /// How they end.
    pub end: PartEnd,
}

impl LinePart {
    /// Returns whether the line ends after these bytes.
    pub fn is_last(&self) -> bool
        ensures { result ≡ is_last self.now.end }
    {
        match self.end {
            PartEnd::More => false,
            PartEnd::LineFeed | PartEnd::Input => true,
        }
    }
}

/// Consumes and returns the bytes of the line that the reader has buffered, or no bytes if the read was interrupted.
/// Returns `Device` if the input fails, or `Memory`.
pub fn next_part<I: BufRead>(
    alloc: Global,
    input: &mut I,
    watch: &mut Watch,
) -> Result<LinePart, ExitReason>
    ensures part { IfOk result (λ part. TakesPart (I.remaining input.old) (I.remaining input.new) part.bytes.items part.end) }
    ensures no_end { IfOk result (λ part. All (λ b. b ≢ 10) part.bytes.items) }
    ensures count { OnOk result ((watch.old.reads < watch.new.reads) × (watch.new.reads ≤ most_reads)) }
    // It counts at most one read.
    ensures counted { watch.new.reads ≤ watch.old.reads + 1 }
    ensures earned { IfErr result (IsEarned watch.new) }
    ensures remembers { Remembers watch.old watch.new }
{
    watch.count()?;
    let shown = match input.fill_buf() {
        Ok(shown) => shown,
        Err(error) => {
            if error.kind() == ErrorKind::Interrupted {
                return Ok(LinePart {
                    bytes: Vec::new(alloc),
                    end: PartEnd::More,
                });
            }
            return Err(watch.fail(error));
        }
    };
    if shown.is_empty() {
        return Ok(LinePart {
            bytes: Vec::new(alloc),
            end: PartEnd::Input,
        });
    }
    let at = line_feed_at(shown);
    let count = at.unwrap_or(shown.len());
    let Ok(bytes) = Vec::from_slice(alloc, &shown[..count]) else {
        return Err(watch.lack());
    };
    match at {
        Some(index) => {
            input.consume(index + 1);
            Ok(LinePart {
                bytes,
                end: PartEnd::LineFeed,
            })
        }
        None => {
            input.consume(count);
            Ok(LinePart {
                bytes,
                end: PartEnd::More,
            })
        }
    }
}

// Returns the index of the first LF.
fn line_feed_at(bytes: &[u8]) -> Option<usize>
    ensures within { IfSome result (λ i. i < length bytes.now) }
    ensures some { IfSome result (λ i. slice_index bytes.now i ≡ 10) }
    ensures before { IfSome result (λ i. All (λ b. b ≢ 10) (take i bytes.now)) }
    ensures none { IfNone result (All (λ b. b ≢ 10) bytes.now) }
{
    for i in 0..bytes.len() {
        if bytes[i] == b'\n' {
            return Some(i);
        }
    }
    None
}
