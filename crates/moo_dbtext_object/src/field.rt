//! Lines of objects that are no plain number or string.
ghost use Rattle.moo_world_object.specs.Flags.{flags_number};
ghost use Rattle.moo_world_object.specs.Numbers.{prop_perms_number, preposition_specifier_number};
ghost use Rattle.moo_dbtext_object.specs.Lines.{Gives, limited, small_of, text_of};
ghost use Rattle.moo_dbtext_object.specs.ObjectReading.{bits_of, verb_bits_of, preposition_of};

use crate::{LineFault, Refusal, number, small};
use moo_value::{WEIGHT_LIMIT, is_text};
use moo_world_object::{Flags, ObjectSpecifier, PrepositionSpecifier, PropPerms, VerbPerms};

/// The permissions and the object specifiers that are packed into one number of a verb.
#[derive(Clone, Copy)]
pub(crate) struct VerbBits {
    pub(crate) perms: VerbPerms,
    pub(crate) direct: ObjectSpecifier,
    pub(crate) indirect: ObjectSpecifier,
}

pub(crate) fn flags(line: &[u8]) -> Result<Flags, Refusal>
    ensures { Gives flags_number result (small_of 255 line.now) }
{
    let number = small(line, 255)?;
    Ok(Flags::from_number(number))
}

#[tactic(auto, unfolding(crate::specs::ObjectReading::verb_bits_of))]
pub(crate) fn verb_bits(line: &[u8]) -> Result<VerbBits, Refusal>
    ensures { Gives bits_of result (verb_bits_of line.now) }
{
    let number = small(line, 255)?;
    let Some(direct) = ObjectSpecifier::from_number(number / 16 % 4) else {
        return Err(Refusal::Fault(LineFault::BadNumber));
    };
    let Some(indirect) = ObjectSpecifier::from_number(number / 64) else {
        return Err(Refusal::Fault(LineFault::BadNumber));
    };
    let Some(perms) = VerbPerms::from_number(number % 16) else {
        return Err(Refusal::Fault(LineFault::BadNumber));
    };
    Ok(VerbBits {
        perms,
        direct,
        indirect,
    })
}

#[tactic(auto, unfolding(crate::specs::ObjectReading::preposition_of))]
pub(crate) fn preposition(line: &[u8]) -> Result<PrepositionSpecifier, Refusal>
    ensures { Gives preposition_specifier_number result (preposition_of line.now) }
{
    let number = number(line)?;
    match PrepositionSpecifier::from_number(number) {
        Some(preposition) => Ok(preposition),
        None => Err(Refusal::Fault(LineFault::BadNumber)),
    }
}

pub(crate) fn property_perms(line: &[u8]) -> Result<PropPerms, Refusal>
    ensures { Gives prop_perms_number result (small_of 7 line.now) }
{
    let number = small(line, 7)?;
    match PropPerms::from_number(number) {
        Some(perms) => Ok(perms),
        None => Err(Refusal::Fault(LineFault::BadNumber)),
    }
}

/// Checks a string that is read and not kept. Returns `BadString` or `TooLarge` if the line is none.
pub(crate) fn note(line: &[u8]) -> Result<(), Refusal>
    ensures { Gives (λ _. line.now) result (text_of limited line.now) }
{
    if !is_text(line) {
        return Err(Refusal::Fault(LineFault::BadString));
    }
    if line.len() >= WEIGHT_LIMIT as usize {
        return Err(Refusal::Fault(LineFault::TooLarge));
    }
    Ok(())
}
