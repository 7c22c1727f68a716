//! The laws: each function calls laws of one public crate.
use moo_dbtext::Link;
use moo_disk::{CrashDisk, Disk};
use moo_server::{Application, StartApplication};
use moo_world::{Flags, PropPerms, VerbPerms, World};

/// Calls the laws of values.
pub fn value() {
    moo_value::laws::equal_but_for_letters();
    moo_value::laws::equal_is_an_equivalence();
    moo_value::laws::equal_values_read_alike();
    moo_value::laws::letters_are_folded();
    moo_value::laws::order_is_reversed();
    moo_value::laws::order_is_transitive();
    moo_value::laws::ordered_as_equal_is_equal();
    moo_value::laws::same_is_equality();
}

/// Calls the laws of the grammar.
pub fn syntax() {
    moo_syntax::laws::admitted_programs();
    moo_syntax::laws::bad_is_last();
    moo_syntax::laws::blamed_texts_are_no_programs();
    moo_syntax::laws::deep_texts_are_long();
    moo_syntax::laws::each_text_has_a_reading();
    moo_syntax::laws::lines_within();
    moo_syntax::laws::names_are_names();
    moo_syntax::laws::one_program();
    moo_syntax::laws::one_program_of_text();
    moo_syntax::laws::one_reading();
    moo_syntax::laws::one_token_list();
    moo_syntax::laws::one_unexpected_line();
    moo_syntax::laws::programs_are_loose();
    moo_syntax::laws::programs_are_not_blamed();
    moo_syntax::laws::programs_under_any_names();
    moo_syntax::laws::same_lines_same_fault();
    moo_syntax::laws::same_lines_same_tokens();
    moo_syntax::laws::slots_are_the_variables();
    moo_syntax::laws::spelling_is_read();
    moo_syntax::laws::tokens_or_bad();
    moo_syntax::laws::told_lines_are_lines();
}

/// Calls the laws of listings.
pub fn unparse() {
    moo_unparse::laws::indented_listing_has_its_program();
    moo_unparse::laws::indents_are_blanks();
    moo_unparse::laws::listing_has_its_program();
    moo_unparse::laws::listing_is_within_limits();
    moo_unparse::laws::programs_have_listings();
    moo_unparse::laws::short_listing_has_its_program();
}

/// Calls the laws of built-in functions and operators.
pub fn builtin() {
    moo_builtin::laws::a_place_is_the_first();
    moo_builtin::laws::a_range_is_a_part();
    moo_builtin::laws::at_most_one_result();
    moo_builtin::laws::calls_by_name();
    moo_builtin::laws::division_truncates_towards_zero();
    moo_builtin::laws::equality_folds_letters();
    moo_builtin::laws::limits_are_tested();
    moo_builtin::laws::raises_change_nothing();
    moo_builtin::laws::reads_integers();
    moo_builtin::laws::reads_objects();
    moo_builtin::laws::truth_is_tested();
    moo_builtin::laws::values_stay_within_the_limits();
    moo_builtin::laws::wrapping_keeps_the_residue();
}

/// Calls the laws of commands.
pub fn command() {
    moo_command::laws::one_command();
    moo_command::laws::one_reading();
    moo_command::laws::one_split();
    moo_command::laws::one_typed();
    moo_command::laws::words_are_light();
}

/// Calls the laws of sessions.
pub fn session() {
    moo_session::laws::at_most_one_result();
    moo_session::laws::lines_under_any_cutting();
    moo_session::laws::one_reading();
}

/// Calls the laws of database texts.
pub fn dbtext() {
    moo_dbtext::laws::a_refusal_says_why();
    moo_dbtext::laws::bytes_spell_one_saved_world();
    moo_dbtext::laws::bytes_spell_one_text();
    moo_dbtext::laws::canonical_bytes_spell_the_saved_world();
    moo_dbtext::laws::copies_are_read_alike();
    moo_dbtext::laws::limits_only_refuse_objects();
    moo_dbtext::laws::limits_only_refuse_texts();
    moo_dbtext::laws::limits_only_refuse_values();
    moo_dbtext::laws::lines_are_of_one_value();
    moo_dbtext::laws::no_saved_world_goes_on_from_a_program();
    moo_dbtext::laws::no_text_goes_on_from_a_fault();
    moo_dbtext::laws::no_text_goes_on_from_a_program();
    moo_dbtext::laws::one_answer();
    moo_dbtext::laws::one_answer_by_choice();
    moo_dbtext::laws::one_fault_by_choice();
    moo_dbtext::laws::one_fault_is_told();
    moo_dbtext::laws::read_objects_are_written();
    moo_dbtext::laws::read_texts_are_spelled();
    moo_dbtext::laws::read_texts_are_spelled_within_limits();
    moo_dbtext::laws::read_texts_have_records_within_limits();
    moo_dbtext::laws::read_values_are_written();
    moo_dbtext::laws::records_at_fault_say_no_world();
    moo_dbtext::laws::records_of_a_world_say_it();
    moo_dbtext::laws::records_say_one_world();
    moo_dbtext::laws::records_without_fault_say_a_world();
    moo_dbtext::laws::saved_within_limits_is_saved();
    moo_dbtext::laws::stored_values_are_writable();
    moo_dbtext::laws::texts_may_be_written_in_order();
    moo_dbtext::laws::texts_within_limits_are_texts();
    moo_dbtext::laws::the_writers_lines_are_read();
    moo_dbtext::laws::the_writers_lines_spell_the_text();
    moo_dbtext::laws::well_formed_worlds_are_shaped();
    moo_dbtext::laws::what_is_blamed_is_no_program();
    moo_dbtext::laws::worlds_are_writable();
    moo_dbtext::laws::written_objects_are_read();
    moo_dbtext::laws::written_texts_are_read();
    moo_dbtext::laws::written_values_are_read();
}

/// Calls the laws of evaluation.
pub fn eval() {
    moo_eval::laws::at_most_fifty_frames();
    moo_eval::laws::at_most_one_result();
    moo_eval::laws::at_most_one_result_of_calls();
    moo_eval::laws::chosen_faults_may_be_told();
    moo_eval::laws::every_function_has_a_group();
    moo_eval::laws::every_value_is_dealt();
    moo_eval::laws::functions_answer_their_own();
    moo_eval::laws::one_end_of_text();
    moo_eval::laws::one_result_of_single_faults();
    moo_eval::laws::raises_change_nothing();
    moo_eval::laws::ticks_are_taken();
    moo_eval::laws::ticks_never_rise();
    moo_eval::laws::what_create_does();
    moo_eval::laws::what_move_does();
    moo_eval::laws::what_recycle_does();
}

/// Calls the laws of the links of a tree.
pub fn links(links: &[Option<Link>]) {
    moo_dbtext::laws::links_of_a_forest_are_sound(links);
    moo_dbtext::laws::links_say_one_tree(links);
}

/// Calls the laws of names and patterns.
pub fn patterns(pattern: &[u8], name: &[u8]) {
    moo_world::laws::a_fitting_name_meets_the_rule(pattern, name);
    moo_world::laws::every_name_fits_a_star(name);
}

/// Calls the laws of the numbers and the texts of permissions and specifiers.
pub fn numbers(flags: [Flags; 2], property: [PropPerms; 2], verb: [VerbPerms; 2]) {
    moo_world::laws::a_number_has_one_set_of_flags(flags[0], flags[1]);
    moo_world::laws::a_number_has_one_set_of_property_permissions(property[0], property[1]);
    moo_world::laws::a_number_has_one_set_of_verb_permissions(verb[0], verb[1]);
    moo_world::laws::object_specifiers_are_read_back();
    moo_world::laws::preposition_specifiers_are_read_back();
    moo_world::laws::prop_perms_are_read_back();
    moo_world::laws::verb_perms_are_read_back();
}

/// Calls the laws of a world.
pub fn world(world: &World, x: usize, name: &[u8]) {
    moo_world::laws::a_defined_property_has_a_value(world, x, name);
    moo_world::laws::a_world_is_restored_as_it_was(world);
    moo_world::laws::contents_are_within_the_limits(world, x);
}

/// Calls the laws of a disk.
pub fn disk<D: Disk>() {
    moo_disk::laws::a_failing_disk_keeps_what_it_had::<D>();
    moo_disk::laws::a_history_gains::<D>();
    moo_disk::laws::a_settled_text_stays::<D>();
    moo_disk::laws::each_main_text_counts::<D>();
}

/// Calls the laws of a checkpoint.
pub fn checkpoint<D: Disk>() {
    moo_checkpoint::laws::a_checkpoint_is_done_in_its_last_turn::<D>();
    moo_checkpoint::laws::a_failing_disk_goes_on::<D>();
    moo_checkpoint::laws::a_fresh_checkpoint_has_all_turns();
    moo_checkpoint::laws::a_fresh_checkpoint_takes_any_disk::<D>();
    moo_checkpoint::laws::a_stopping_disk_goes_on();
    moo_checkpoint::laws::more_turns_come::<D>();
}

/// Calls the laws of a server of any application.
pub fn core<S: Application, D: Disk, E: Disk>() {
    moo_server::laws::a_failing_disk_goes_on::<S, D>();
    moo_server::laws::a_failing_disk_is_handed_on::<D>();
    moo_server::laws::a_refused_start_loses_nothing::<D>();
    moo_server::laws::a_report_comes::<S, D, E>();
    moo_server::laws::a_report_done_is_durable::<S, D, E>();
    moo_server::laws::a_start_reads_a_prefix::<S, D, E>();
    moo_server::laws::a_start_reads_a_prefix_since_the_start::<S, D, E>();
    moo_server::laws::a_stop_at_any_moment::<S, D, E>();
    moo_server::laws::a_stop_since_the_start::<S, D, E>();
    moo_server::laws::a_stopping_disk_goes_on::<S>();
    moo_server::laws::a_stopping_disk_is_handed_on();
    moo_server::laws::all_output_is_handed_out::<S, D, E>();
    moo_server::laws::calls_are_one_life::<S, D, E>();
    moo_server::laws::one_run::<S>();
    moo_server::laws::output_may_be_taken::<S, D>();
}

/// Calls the laws of starting again.
pub fn starts<S: StartApplication, D: Disk, E: Disk, F: Disk>() {
    moo_server::laws::a_stopped_server_starts_again::<S, D, E, F>();
    moo_server::laws::starting_again_reads_a_prefix::<D, E, F>();
    moo_server::laws::starting_again_reads_a_prefix_since_the_start::<D, E, F>();
}

/// Calls the laws of lives that crashes end.
pub fn lives<S: Application, D: CrashDisk>() {
    moo_disk::laws::a_crash_leaves_what_may_be_left::<D>();
    moo_server::laws::lives_begin_from_marks::<S, D>();
}
