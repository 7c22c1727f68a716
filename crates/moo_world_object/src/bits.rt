//! Truth values as bits of a number.
ghost use Rattle.std.specs.Prelude.{◌≡◌, ◌≤◌, ◌+◌, ◌*◌};
ghost use Rattle.moo_world_object.specs.Flags.{bit};

/// Returns the bit's weight if it is set, else 0.
pub(crate) fn bit(is_set: bool, weight: u8) -> u8
    ensures value { result ≡ bit is_set weight }
    ensures bound { result ≤ weight }
{
    if is_set { weight } else { 0 }
}

/// Removes the lowest bit and returns it.
pub(crate) fn take_bit(bits: &mut u8) -> bool
    ensures { bits.old ≡ bit result 1 + 2 * bits.new }
{
    let is_set = *bits % 2 == 1;
    *bits /= 2;
    is_set
}
