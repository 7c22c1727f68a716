//! Numbers of names, without regard to the case of their letters.
ghost use Rattle.std.specs.Prelude.{◌≡◌, ◌<◌, ◌+◌, ◌*◌, ◌%◌, ◌^◌, ℕ, List, IsTrue};
ghost use Rattle.std.specs.Char.{to_ascii_lowercase};
ghost use Rattle.moo_value.specs.Compare.{folded};
ghost use Rattle.moo_syntax_ast.specs.NameNumber.{digit_of, with_digit, code_of, hash_of, name_number, IsCode};

// Codes are below this number, and hashes are not.
const FIRST_HASH: u64 = 9223372036854775808;

// A number from which on one more digit may reach `FIRST_HASH`.
const FULL: u64 = 242720316759336205;

/// Returns the number of a name. Names with different numbers differ in more than the case of letters. It is a code
/// that no other name has if the name has letters, digits and underscores alone and at most twelve; else it is a hash.
pub fn name_number(name: &[u8]) -> u64
    ensures { result ≡ name_number (folded name.now) }
{
    match code_of(name) {
        Some(code) => code,
        None => FIRST_HASH + u64::from(hash_of(name)),
    }
}

/// Is true if at most one name has this number.
#[inline(always)]
pub fn is_code(number: u64) -> bool
    ensures code { IsTrue result → IsCode number }
    ensures one { IsTrue result → (a b : List ℕ) → name_number a ≡ number → name_number b ≡ number → a ≡ b }
{
    number < FIRST_HASH
}

// Returns the code of a name, or `None` if it has none: a number in base 38, with the first byte as the lowest digit.
fn code_of(name: &[u8]) -> Option<u64>
    ensures { result ≡ code_of (folded name.now) }
{
    let mut code: u64 = 0;
    let mut rest = name;
    while let Some((last, before)) = rest.split_last() {
        code = with_digit(code, *last)?;
        rest = before;
    }
    Some(code)
}

// Returns a number in base 38 with the digit of a byte as its lowest, or `None` if the byte has none or the number may
// get too large.
#[inline]
fn with_digit(number: u64, byte: u8) -> Option<u64>
    ensures { result ≡ with_digit (digit_of (to_ascii_lowercase byte)) number }
{
    let digit = digit_of(byte.to_ascii_lowercase());
    if digit == 0 || number >= FULL {
        None
    } else {
        Some(digit + 38 * number)
    }
}

// Returns the digit of a byte in lower case, or 0 if it has none.
#[inline]
fn digit_of(byte: u8) -> u64
    ensures value { result ≡ digit_of byte }
    ensures low { result < 38 }
{
    if byte >= b'a' && byte <= b'z' {
        return u64::from(byte - 96);
    }
    if byte >= b'0' && byte <= b'9' {
        return u64::from(byte - 21);
    }
    if byte == b'_' { 37 } else { 0 }
}

// Returns a hash of a name, without regard to case.
fn hash_of(name: &[u8]) -> u32
    ensures { result ≡ hash_of (folded name.now) }
{
    let mut hash: u32 = 0;
    let mut rest = name;
    while let Some((last, before)) = rest.split_last() {
        hash = with_byte(hash, *last);
        rest = before;
    }
    hash
}

#[inline]
fn with_byte(hash: u32, byte: u8) -> u32
    ensures { result ≡ (to_ascii_lowercase byte + 16777619 * hash) % 2 ^ 32 }
{
    let byte = byte.to_ascii_lowercase();
    ((u64::from(byte) + 16777619 * u64::from(hash)) % 4294967296) as u32
}
