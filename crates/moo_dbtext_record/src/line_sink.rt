//! Pieces of a text, cut into whole lines and a last part.
ghost use Rattle.std.specs.Prelude.{◌<◌, ◌≤◌, ℕ, List, Result, Some, take, length, IfSome, MatchOption, ⊤};
ghost use Rattle.memchr.specs.Find.{IsFirstByte, is_byte};
ghost use Rattle.moo_dbtext_record.specs.Answer.{HasNoEnd, IsWholeLine};
ghost use Rattle.moo_dbtext_record.specs.Cutting.{Feeds};

use memchr::memchr;
use std::alloc::Global;

/// The number of bytes to compare one by one. Most lines are short numbers, and `memchr` takes longer to start.
const NEARBY: usize = 8;

// Returns the index of the first line end, if it is among the first `NEARBY` bytes and there are that many.
fn end_nearby(bytes: &[u8]) -> Option<usize>
    ensures { IfSome result (λ at. IsFirstByte (is_byte 10) bytes.now (Some at)) }
{
    if bytes.len() < NEARBY {
        return None;
    }
    for at in 0..NEARBY {
        if bytes[at] == b'\n' {
            return Some(at);
        }
    }
    None
}

/// Returns the length of the first line with its end, or `None` if no line ends.
fn first_line(bytes: &[u8]) -> Option<usize>
    ensures { MatchOption result (HasNoEnd bytes.now) (λ n. (0 < n) × (n ≤ length bytes.now) × IsWholeLine (take n bytes.now)) }
{
    if let Some(at) = end_nearby(bytes) {
        return Some(at + 1);
    }
    let at = memchr(b'\n', bytes)?;
    Some(at + 1)
}

/// Takes a text as whole lines and parts of lines. `feed_lines` cuts pieces of the text into these. A caller uses
/// `feed_lines`, or the `feed` of a reader: `take_line` and `take_part` look at no fault that was kept, so they may be
/// called after one.
pub trait LineSink {
    /// The reason why a line or a part is refused.
    type Fault;

    /// What bytes do: the sink before them, the bytes, the result, and the sink after them.
    ghost takes: { Self → List ℕ → Result ⊤ Self.Fault → Self → Type 0 };

    /// Takes a line with its end. For `feed_lines` alone: a caller uses that, or `feed`.
    fn take_line(&mut self, alloc: Global, line: &[u8]) -> Result<(), Self::Fault>
        requires { IsWholeLine line.now }
        ensures { takes self.old line.now result self.new };

    /// Takes a part of a line, without its end. For `feed_lines` alone: a caller uses that, or `feed`.
    fn take_part(&mut self, alloc: Global, part: &[u8]) -> Result<(), Self::Fault>
        requires { HasNoEnd part.now }
        ensures { takes self.old part.now result self.new };
}

/// Gives a sink each whole line of a piece, and then the rest. Returns the first fault, and gives nothing after it.
pub fn feed_lines<S: LineSink>(sink: &mut S, alloc: Global, piece: &[u8]) -> Result<(), S::Fault>
    ensures { Feeds S.takes sink.old piece.now result sink.new }
{
    let mut more = piece;
    while let Some(size) = first_line(more) {
        sink.take_line(alloc, &more[..size])?;
        more = &more[size..];
    }
    sink.take_part(alloc, more)
}
