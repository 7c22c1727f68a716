//! The number that a string spells.
ghost use Rattle.std.specs.Prelude.{◌≡◌, ◌≤◌, length, IsTrue};
ghost use Rattle.std.specs.List.{prefix_len};
ghost use Rattle.moo_value.specs.Digits.{is_digit};
ghost use Rattle.moo_builtin_value.specs.Numerals.{is_blank, past, begins, is_blank_text, may_end, past_sign, with_sign, number_at, signed_number, integer_number, object_number};

use moo_value::wrapping_number;

/// Returns the integer that a text spells, modulo 2^32, or 0. A fraction is dropped.
pub fn integer_number(text: &[u8]) -> i32
    ensures { result ≡ integer_number text.now }
{
    signed_number(past_blanks(text), true)
}

/// Returns the number of an object that a text spells, with or without `#`, modulo 2^32, or 0.
pub fn object_number(text: &[u8]) -> i32
    ensures { result ≡ object_number text.now }
{
    let text = past_blanks(text);
    if begins(text, b'#') {
        return signed_number(&text[1..], false);
    }
    signed_number(text, false)
}

// Reads a number from the sign on; `point` is true if a fraction may follow.
fn signed_number(text: &[u8], point: bool) -> i32
    ensures { result ≡ signed_number point text.now }
{
    number_at(past_blanks(past_sign(text)), point, begins(text, b'-'))
}

fn number_at(text: &[u8], point: bool, minus: bool) -> i32
    ensures { result ≡ number_at point minus text.now }
{
    let count = digits_count(text);
    if count == 0 {
        return 0;
    }
    if !may_end(&text[count..], point) {
        return 0;
    }
    with_sign(wrapping_number(&text[..count]), minus)
}

fn with_sign(number: i32, minus: bool) -> i32
    ensures { result ≡ with_sign minus number }
{
    if minus { number.wrapping_neg() } else { number }
}

fn past_blanks(text: &[u8]) -> &[u8]
    ensures { result.now ≡ past is_blank text.now }
{
    &text[blanks_count(text)..]
}

fn past_sign(text: &[u8]) -> &[u8]
    ensures { result.now ≡ past_sign text.now }
{
    if begins(text, b'-') || begins(text, b'+') {
        return &text[1..];
    }
    text
}

fn may_end(text: &[u8], point: bool) -> bool
    ensures { result ≡ may_end point text.now }
{
    if point && begins(text, b'.') {
        let fraction = &text[1..];
        return is_blank_text(&fraction[digits_count(fraction)..]);
    }
    is_blank_text(text)
}

fn is_blank_text(text: &[u8]) -> bool
    ensures { result ≡ is_blank_text text.now }
{
    blanks_count(text) == text.len()
}

fn begins(text: &[u8], byte: u8) -> bool
    ensures value { result ≡ begins byte text.now }
    ensures some { IsTrue result → 1 ≤ length text.now }
{
    match text {
        [first, ..] => *first == byte,
        [] => false,
    }
}

fn blanks_count(text: &[u8]) -> usize
    ensures is { result ≡ prefix_len is_blank text.now }
    ensures fits { result ≤ length text.now }
{
    text.iter().take_while(|byte| **byte == b' ').count()
}

fn digits_count(text: &[u8]) -> usize
    ensures is { result ≡ prefix_len is_digit text.now }
    ensures fits { result ≤ length text.now }
{
    text.iter().take_while(|byte| byte.is_ascii_digit()).count()
}
