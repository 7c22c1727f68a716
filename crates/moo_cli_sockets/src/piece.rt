//! The pieces in which a server is given the bytes of a connection.
ghost use Rattle.std.specs.Prelude.{◌≤◌, ◌<◌, ◌≡◌, take, length, count_by};
ghost use Rattle.moo_cli_sockets.specs.Waiting.{is_end};

/// The greatest number of bytes in one read, and in one piece.
pub(crate) const READ_MOST: usize = 4096;

/// The greatest number of line ends in one piece. One piece is one event, and all its lines are done before the next
/// turn. So this bounds how long one connection delays the others.
const ENDS_MOST: usize = 128;

/// Returns the length of the first piece of bytes: all that a read may return, or as far as the last line end that a
/// piece may have.
#[tactic(auto, using(crate::proofs::Pieces::no_end_more, crate::proofs::Pieces::end_more))]
pub(crate) fn piece_length(bytes: &[u8]) -> usize
    ensures inside { result ≤ length bytes.now }
    ensures most { result ≤ 4096 }
    ensures some { 0 < length bytes.now → 0 < result }
    ensures ends { count_by is_end (take result bytes.now) ≤ 128 }
{
    let most = bytes.len().min(READ_MOST);
    let mut ends = 0usize;
    for index in 0..most {
        if is_end(bytes[index]) {
            ends += 1;
            if ends == ENDS_MOST {
                return index + 1;
            }
        }
    }
    most
}

fn is_end(byte: u8) -> bool
    ensures { result ≡ is_end byte }
{
    byte == b'\r' || byte == b'\n'
}
