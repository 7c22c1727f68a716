//! Bytes written as hexadecimal digits.
ghost use Rattle.std.specs.Prelude.{◌≡◌, ◌+◌, ◌*◌, ◌<◌, ℕ, List, IfOk, MatchOption};
ghost use Rattle.std.specs.Char.{digit_value};
ghost use Rattle.moo_cli_script.specs.ScriptLines.{IsHex};

use crate::number::digit;
use std::alloc::{AllocError, Global};

/// Returns the bytes that the digits write, two for each. Returns `None` if they write none. Fails only if memory
/// runs out.
pub fn bytes_of_hex(alloc: Global, digits: &[u8]) -> Result<Option<Vec<u8>>, AllocError>
    ensures { IfOk result (λ read. MatchOption read ((bytes : List ℕ) → ¬ IsHex digits.now bytes) (λ bytes. IsHex digits.now bytes.items)) }
{
    if digits.len() % 2 == 1 {
        return Ok(None);
    }
    let mut bytes = Vec::new(alloc);
    for i in 0..digits.len() / 2 {
        let Some(byte) = pair(digits[2 * i], digits[2 * i + 1]) else {
            return Ok(None);
        };
        bytes.push(byte)?;
    }
    Ok(Some(bytes))
}

// Returns the byte that two digits write.
fn pair(high: u8, low: u8) -> Option<u8>
    ensures { MatchOption result (¬ ((digit_value high < 16) × (digit_value low < 16))) (λ byte. (byte ≡ digit_value high * 16 + digit_value low) × (digit_value high < 16) × (digit_value low < 16)) }
{
    let high = digit(high, 16)?;
    let low = digit(low, 16)?;
    Some(high * 16 + low)
}
