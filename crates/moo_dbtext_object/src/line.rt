//! Numbers and strings, one per line.
ghost use Rattle.std.specs.Prelude.{◌≡◌, ◌≢◌, ◌<◌, ◌^◌, ◌∷◌, ℕ, ℤ, suc, MatchOption, IfErr, FitsSigned};
ghost use Rattle.std.specs.Fmt.{decimal, signed_decimal};
ghost use Rattle.std.specs.Int.{w32};
ghost use Rattle.moo_dbtext_object.specs.declared.fault.Refusal.TheVariants.{Memory};
ghost use Rattle.moo_dbtext_object.specs.Lines.{Gives, limited, number_of, count_of, bounded_count_of, small_of, text_of};

use crate::fault::{LineFault, Refusal};
use moo_value::{MooStr, ValueFault};
use std::alloc::Global;

/// Parses a natural number in the one decimal form, if it has at most ten digits.
fn natural(digits: &[u8]) -> Option<u64>
    ensures { MatchOption result ((n : ℕ) → n < 2 ^ 32 → digits.now ≢ decimal n) (λ n. (n < 10 ^ 10) × (digits.now ≡ decimal n)) }
{
    let has_zeros = digits.len() > 1 && digits[0] == b'0';
    if has_zeros || digits.is_empty() || digits.len() > 10 {
        return None;
    }
    let mut value: u64 = 0;
    for digit in digits {
        if *digit < b'0' || *digit > b'9' {
            return None;
        }
        value = value * 10 + (*digit - b'0') as u64;
    }
    Some(value)
}

/// Parses the digits of a negative number. The sign is not among them.
fn below_zero(digits: &[u8]) -> Option<i32>
    ensures { MatchOption result ((n : ℕ) → n < 2 ^ 31 → digits.now ≢ decimal (suc n)) (λ z. FitsSigned w32 z × (45 ∷ digits.now ≡ signed_decimal z)) }
{
    let number = natural(digits)?;
    if number == 0 {
        return None;
    }
    i32::try_from(-(number as i64)).ok()
}

/// Parses the digits of a number that is 0 or more.
fn from_zero(digits: &[u8]) -> Option<i32>
    ensures { MatchOption result ((n : ℕ) → n < 2 ^ 31 → digits.now ≢ decimal n) (λ z. FitsSigned w32 z × (digits.now ≡ signed_decimal z)) }
{
    i32::try_from(natural(digits)?).ok()
}

/// Parses a signed number in the one decimal form.
fn decimal(line: &[u8]) -> Option<i32>
    ensures { MatchOption result ((z : ℤ) → FitsSigned w32 z → line.now ≢ signed_decimal z) (λ z. FitsSigned w32 z × (line.now ≡ signed_decimal z)) }
{
    match line.strip_prefix(b"-") {
        Some(digits) => below_zero(digits),
        None => from_zero(line),
    }
}

/// Parses a signed 32-bit number in the one decimal form. Returns `BadNumber` if the line is none.
#[tactic(auto, using(crate::proofs::LineLaws::number_is, crate::proofs::LineLaws::number_is_not))]
pub fn number(line: &[u8]) -> Result<i32, Refusal>
    ensures gives { Gives (λ z. z) result (number_of line.now) }
    ensures memory { IfErr result (λ e. e ≢ Memory) }
{
    match decimal(line) {
        Some(number) => Ok(number),
        None => Err(Refusal::Fault(LineFault::BadNumber)),
    }
}

/// Parses a number that is 0 or more. Returns `BadNumber` if the line is none.
#[tactic(auto, unfolding(crate::specs::Lines::count_of))]
pub fn count(line: &[u8]) -> Result<u32, Refusal>
    ensures gives { Gives (λ n. n) result (count_of line.now) }
    ensures memory { IfErr result (λ e. e ≢ Memory) }
{
    let number = number(line)?;
    if number < 0 {
        return Err(Refusal::Fault(LineFault::BadNumber));
    }
    Ok(number as u32)
}

/// Parses a number of records. Returns `BadNumber` if the line is none, and `TooLarge` past 1,000,000.
#[tactic(auto, unfolding(crate::specs::Lines::bounded_count_of))]
pub fn bounded_count(line: &[u8]) -> Result<u32, Refusal>
    ensures gives { Gives (λ n. n) result (bounded_count_of limited line.now) }
    ensures memory { IfErr result (λ e. e ≢ Memory) }
{
    let count = count(line)?;
    if count > 1_000_000 {
        return Err(Refusal::Fault(LineFault::TooLarge));
    }
    Ok(count)
}

/// Parses a number from 0 to `most`. Returns `BadNumber` if the line is none.
#[tactic(auto, unfolding(crate::specs::Lines::small_of))]
pub fn small(line: &[u8], most: u8) -> Result<u8, Refusal>
    ensures gives { Gives (λ n. n) result (small_of most line.now) }
    ensures memory { IfErr result (λ e. e ≢ Memory) }
{
    let count = count(line)?;
    if count > most as u32 {
        return Err(Refusal::Fault(LineFault::BadNumber));
    }
    Ok(count as u8)
}

/// Returns the line as a string. Returns `BadString` for a byte that no string can hold, `TooLarge` past the limit,
/// or `Memory`.
pub fn text(alloc: Global, line: &[u8]) -> Result<MooStr, Refusal>
    ensures { Gives (λ s. s) result (text_of limited line.now) }
{
    match MooStr::try_from_bytes(alloc, line) {
        Ok(string) => Ok(string),
        Err(ValueFault::BadByte) => Err(Refusal::Fault(LineFault::BadString)),
        Err(ValueFault::TooHeavy) => Err(Refusal::Fault(LineFault::TooLarge)),
        Err(ValueFault::Memory) => Err(Refusal::Memory),
    }
}
