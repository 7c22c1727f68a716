//! Objects that are named by their numbers.
ghost use Rattle.std.specs.Prelude.{◌≡◌, ◌≤◌, min, pos};
ghost use Rattle.std.specs.Option.{option_map};
ghost use Rattle.std.specs.List.{list_all};
ghost use Rattle.moo_value.specs.Digits.{is_digit, number};
ghost use Rattle.moo_world_table.specs.World.{most};
ghost use Rattle.moo_command.specs.Objects.{are_digits, negative, signed, typed_number, valid_or_none};

use moo_world::{MOST, World};

/// Parses `#`, perhaps a minus, and digits. Returns the object of this number, or -3 if it is not valid. Returns
/// `None` for any other text.
pub(crate) fn numbered(world: &World, text: &[u8]) -> Option<i32>
    ensures { result ≡ option_map (valid_or_none world.now) (typed_number text.now) }
{
    let (first, following) = text.split_first()?;
    if *first != b'#' {
        return None;
    }
    signed(world, following)
}

/// Parses digits, perhaps after a minus, as an object's number.
fn signed(world: &World, text: &[u8]) -> Option<i32>
    ensures { result ≡ option_map (valid_or_none world.now) (signed text.now) }
{
    world.is_well_formed();
    let (first, following) = text.split_first()?;
    if *first == b'-' {
        return below_zero(world, following);
    }
    if !are_digits(text) {
        return None;
    }
    Some(object_or_none(world, number_of(text)))
}

/// Parses the digits after a minus. Only 0 is an object's number.
fn below_zero(world: &World, digits: &[u8]) -> Option<i32>
    ensures { result ≡ option_map (valid_or_none world.now) (negative digits.now) }
{
    if !are_digits(digits) {
        return None;
    }
    if number_of(digits) == 0 {
        return Some(object_or_none(world, 0));
    }
    Some(-3)
}

/// Returns the object of a number, or -3 if it is not valid.
fn object_or_none(world: &World, number: usize) -> i32
    requires { number ≤ most }
    ensures { result ≡ valid_or_none world.now (pos number) }
{
    let o = number as i32;
    if world.valid(o) { o } else { -3 }
}

/// Returns the number that digits write, or `MOST` if it is greater.
fn number_of(digits: &[u8]) -> usize
    ensures value { result ≡ min (number digits.now) most }
{
    let mut number: usize = 0;
    for digit in digits {
        number = (number * 10 + usize::from(digit.saturating_sub(b'0'))).min(MOST);
    }
    number
}

fn are_digits(text: &[u8]) -> bool
    ensures { result ≡ are_digits text.now }
{
    !text.is_empty() && has_digits_alone(text)
}

fn has_digits_alone(text: &[u8]) -> bool
    ensures { result ≡ list_all is_digit text.now }
{
    text.iter().all(|byte| is_digit(*byte))
}

fn is_digit(byte: u8) -> bool
    ensures { result ≡ is_digit byte }
{
    byte.is_ascii_digit()
}
