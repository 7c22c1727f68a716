//! The filter letters of verbs.
ghost use Rattle.std.specs.Prelude.{◌≡◌};
ghost use Rattle.std.specs.List.{list_any, slice_split};
ghost use Rattle.moo_world_object.specs.Patterns.{is_blank};
ghost use Rattle.moo_world_object.specs.Letters.{begins_otherwise, may_begin, IsLetter};

use crate::pattern::{is_blank, is_star};
use moo_syntax_ast::first_letter;

/// Returns the filter letter of a verb with these names: the lower-case letter with which every name begins that
/// matches the verb, or 0 if there is no such letter.
pub(crate) fn letter_of(names: &[u8]) -> u8
    ensures { IsLetter result names.now }
{
    let letter = first_letter(names);
    if some_begins_otherwise(names, letter) {
        return 0;
    }
    letter
}

fn some_begins_otherwise(names: &[u8], letter: u8) -> bool
    ensures { result ≡ list_any (begins_otherwise letter) (slice_split is_blank names.now) }
{
    names
        .split(|byte| is_blank(*byte))
        .any(|part| begins_otherwise(part, letter))
}

fn begins_otherwise(part: &[u8], letter: u8) -> bool
    ensures { result ≡ begins_otherwise letter part.now }
{
    match part {
        [first, ..] => is_star(*first) || first.to_ascii_lowercase() != letter,
        [] => false,
    }
}

/// Returns whether a name with this first letter may match a verb with this filter letter.
#[inline]
pub(crate) fn may_begin(letter: u8, first: u8) -> bool
    ensures { result ≡ may_begin letter first }
{
    letter == 0 || letter == first
}
