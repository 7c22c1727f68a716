//! Laws of the definitions that contracts cite.
ghost use Rattle.std.specs.Prelude.{◌≡◌, ◌↔◌, ◌∷◌, [], IsTrue};
ghost use Rattle.moo_world_object.specs.Flags.{flags_number};
ghost use Rattle.moo_world_object.specs.Numbers.{prop_perms_number, verb_perms_number};
ghost use Rattle.moo_world_object.specs.Patterns.{fits, Fits};

use crate::cell::PropPerms;
use crate::flags::Flags;
use crate::verb::VerbPerms;

/// Proves that the test of a pattern decides the rule of patterns.
#[tactic(auto, using(crate::proofs::Patterns::fits_is))]
pub fn a_fitting_name_meets_the_rule(_pattern: &[u8], _name: &[u8])
    ensures { IsTrue (fits _pattern.now _name.now) ↔ Fits _pattern.now _name.now }
{}

/// Proves that every name matches the pattern `*`.
#[tactic(auto, using(crate::proofs::Patterns::star_fits))]
pub fn every_name_fits_a_star(_name: &[u8])
    ensures { IsTrue (fits (42 ∷ []) _name.now) }
{}

/// Proves that flags with the same number are the same.
pub fn a_number_has_one_set_of_flags(_one: Flags, _other: Flags)
    ensures { flags_number _one ≡ flags_number _other → _one ≡ _other }
{}

/// Proves that property permissions with the same number are the same.
#[tactic(auto, using(crate::proofs::Numbers::prop_perms_number_apart))]
pub fn a_number_has_one_set_of_property_permissions(_one: PropPerms, _other: PropPerms)
    ensures { prop_perms_number _one ≡ prop_perms_number _other → _one ≡ _other }
{}

/// Proves that verb permissions with the same number are the same.
#[tactic(auto, using(crate::proofs::Numbers::verb_perms_number_apart))]
pub fn a_number_has_one_set_of_verb_permissions(_one: VerbPerms, _other: VerbPerms)
    ensures { verb_perms_number _one ≡ verb_perms_number _other → _one ≡ _other }
{}
