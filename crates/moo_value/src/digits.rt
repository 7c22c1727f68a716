//! The number that digits write.
ghost use Rattle.std.specs.Prelude.{◌≡◌};
ghost use Rattle.moo_value.specs.Digits.{wrapped};

/// Returns the number that digits write, modulo 2^32 as a signed number.
pub fn wrapping_number(digits: &[u8]) -> i32
    ensures { result ≡ wrapped digits.now }
{
    let mut number: u32 = 0;
    for digit in digits {
        let digit = u32::from(digit.saturating_sub(b'0'));
        number = number.wrapping_mul(10).wrapping_add(digit);
    }
    number.cast_signed()
}
