//! Laws on database texts, on the saved worlds that they spell, and on the canonical text.

ghost use Rattle.moo_dbtext_object.specs.Lines.{limited, unlimited};
ghost use Rattle.moo_dbtext_read.specs.Saved.{Saved, SpellsSaved, SpellsSavedWithin};
ghost use Rattle.moo_dbtext.specs.Canonical.{canonical, IsKept};

/// The canonical text of a saved world spells it. It does so within the size limits if the number of connected
/// players is within them.
pub fn canonical_bytes_spell_the_saved_world()
    ensures any { (s : Saved) → IsKept unlimited s → SpellsSaved (canonical s) s }
    ensures within { (s : Saved) → IsKept limited s → SpellsSavedWithin (canonical s) s }
{}

pub use crate::dump_laws::worlds_are_writable;
pub use crate::round_trip_laws::written_and_read;
pub use moo_dbtext_object::laws::{
    limits_only_refuse as limits_only_refuse_objects, read_objects_are_written,
    written_objects_are_read,
};
pub use moo_dbtext_object::value_laws::{
    limits_only_refuse as limits_only_refuse_values, lines_are_of_one_value,
    read_values_are_written, stored_values_are_writable, written_values_are_read,
};
pub use moo_dbtext_read::laws::{
    a_refusal_says_why, no_saved_world_goes_on_from_a_program, one_answer, one_answer_by_choice,
    saved_within_limits_is_saved,
};
pub use moo_dbtext_read::program_laws::{
    no_text_goes_on_from_a_program, one_fault_by_choice, one_fault_is_told,
    what_is_blamed_is_no_program,
};
pub use moo_dbtext_read::saved_laws::bytes_spell_one_saved_world;
pub use moo_dbtext_record::laws::{
    bytes_spell_one_text, copies_are_read_alike, limits_only_refuse as limits_only_refuse_texts,
    no_text_goes_on_from_a_fault, read_texts_are_spelled, read_texts_are_spelled_within_limits,
    read_texts_have_records_within_limits, texts_may_be_written_in_order,
    texts_within_limits_are_texts, the_writers_lines_are_read, the_writers_lines_spell_the_text,
    written_texts_are_read,
};
pub use moo_dbtext_restore::laws::{
    links_of_a_forest_are_sound, links_say_one_tree, records_at_fault_say_no_world,
    records_of_a_world_say_it, records_say_one_world, records_without_fault_say_a_world,
    well_formed_worlds_are_shaped,
};
