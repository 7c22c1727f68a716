//! Arguments made of a connection's number, a blank and a text.
ghost use Rattle.std.specs.Prelude.{◌≡◌, ◌≢◌, ◌<◌, ℕ, List, length, take, slice_index, All, IfNone, IfSome, MatchOption};
ghost use Rattle.moo_cli_script.specs.ScriptLines.{IsAddressed};

use crate::number::number;

/// Parses a connection's number, a blank and a text. Returns `None` if the argument has another form.
#[tactic(auto, using(crate::proofs::Splits::no_blank, crate::proofs::Splits::no_number, crate::proofs::Splits::address))]
pub fn addressed(argument: &[u8]) -> Option<(u16, &[u8])>
    ensures { MatchOption result ((c : ℕ) (text : List ℕ) → ¬ IsAddressed argument.now c text) (λ found. IsAddressed argument.now found.0 found.1.now) }
{
    let Some(at) = blank_at(argument) else {
        return None;
    };
    let Some(connection) = number(&argument[..at], u16::MAX as u64) else {
        return None;
    };
    Some((connection as u16, &argument[at + 1..]))
}

// Returns the index of the first blank.
fn blank_at(bytes: &[u8]) -> Option<usize>
    ensures within { IfSome result (λ i. i < length bytes.now) }
    ensures some { IfSome result (λ i. slice_index bytes.now i ≡ 32) }
    ensures before { IfSome result (λ i. All (λ b. b ≢ 32) (take i bytes.now)) }
    ensures none { IfNone result (All (λ b. b ≢ 32) bytes.now) }
{
    for i in 0..bytes.len() {
        if bytes[i] == b' ' {
            return Some(i);
        }
    }
    None
}
