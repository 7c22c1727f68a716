//! Decimal numbers.
ghost use Rattle.std.specs.Prelude.{◌≡◌, ℕ, ◌+◌, ◌*◌, ◌<◌, ◌≤◌, List, ◌++◌, MatchOption, IsTrue, ◌↔◌};
ghost use Rattle.std.specs.Char.{digit_value};
ghost use Rattle.moo_cli_script.specs.ScriptLines.{IsNumber};

/// Parses a decimal number that is at most `most`. Returns `None` if the digits are no such number.
#[tactic(auto, using(crate::proofs::Numbers::nothing_read, crate::proofs::Numbers::one_more_read, crate::proofs::Numbers::no_digit, crate::proofs::Numbers::too_large, crate::proofs::Numbers::all_read))]
pub fn number(digits: &[u8], most: u64) -> Option<u64>
    ensures { MatchOption result ((n : ℕ) → ¬ IsNumber most digits.now n) (IsNumber most digits.now) }
{
    if digits.is_empty() {
        return None;
    }
    let mut value: u64 = 0;
    for byte in digits {
        let Some(digit) = digit(*byte, 10) else {
            return None;
        };
        let Some(longer) = appended(value, digit, most) else {
            return None;
        };
        value = longer;
    }
    Some(value)
}

/// Returns the value of a digit below the radix, which is from 2 to 36. Returns `None` if the byte is no such digit.
pub fn digit(byte: u8, radix: u8) -> Option<u8>
    requires least { 2 ≤ radix }
    requires most { radix ≤ 36 }
    ensures { MatchOption result (¬ (digit_value byte < radix)) (λ d. (d ≡ digit_value byte) × (d < radix)) }
{
    let digit = (byte as char).to_digit(radix as u32)?;
    Some(digit as u8)
}

// Appends a digit to a decimal number. Returns `None` past `most`.
fn appended(value: u64, digit: u8, most: u64) -> Option<u64>
    ensures { MatchOption result (most < value * 10 + digit) (λ n. (n ≡ value * 10 + digit) × (n ≤ most)) }
{
    let number = value.checked_mul(10)?.checked_add(digit as u64)?;
    if number > most {
        return None;
    }
    Some(number)
}

/// Parses the number of at most `most` that follows a word at the start of the line. Returns `None` if the line has another
/// form.
pub fn number_after(line: &[u8], word: &[u8], most: u64) -> Option<u64>
    ensures { MatchOption result ((rest : List ℕ) (n : ℕ) → line.now ≡ word.now ++ rest → ¬ IsNumber most rest n) (λ n. (rest : List ℕ) × (line.now ≡ word.now ++ rest) × IsNumber most rest n) }
{
    let Some(rest) = following(line, word) else {
        return None;
    };
    number(rest, most)
}

/// Returns what follows a word at the start of the line. Returns `None` if the line begins with something else.
pub fn following<'a>(line: &'a [u8], word: &[u8]) -> Option<&'a [u8]>
    ensures { MatchOption result ((rest : List ℕ) → ¬ (line.now ≡ word.now ++ rest)) (λ rest. line.now ≡ word.now ++ rest.now) }
{
    if line.len() < word.len() {
        return None;
    }
    let (front, rest) = line.split_at(word.len());
    if is_same(front, word) {
        return Some(rest);
    }
    None
}

/// Returns whether two texts are equal.
pub fn is_same(text: &[u8], other: &[u8]) -> bool
    ensures { IsTrue result ↔ (text.now ≡ other.now) }
{
    text == other
}
