//! Laws of evaluation, of the calls of built-in functions, and of scatters.

pub use moo_eval_call::laws::{
    at_most_one_result as at_most_one_result_of_calls, raises_change_nothing,
};
pub use moo_eval_control::laws::every_value_is_dealt;
pub use moo_eval_semantics::laws::{
    at_most_fifty_frames, at_most_one_result, chosen_faults_may_be_told,
    every_function_has_a_group, functions_answer_their_own, one_end_of_text,
    one_result_of_single_faults, ticks_are_taken, ticks_never_rise, what_create_does,
    what_move_does, what_recycle_does,
};
