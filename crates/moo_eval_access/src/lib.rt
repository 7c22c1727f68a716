//! What evaluation reads and changes in a world and in variables: properties, verbs to run, and targets of assignments.
//! Also operators between values, strings that become longer, the forms of nodes, and the number of arguments
//! of a call. An internal crate of `moo_eval`.
#![tactic(auto)]

mod arguments;
mod bounds;
mod entering;
mod fault;
mod form;
mod growth;
mod holding;
mod integers;
mod object;
mod target;
mod verb_name;

pub use arguments::are_too_many;
pub use bounds::element_bounds;
pub use entering::{
    Call, Called, Found, MOST_FRAMES, called_verb, enter_found, enter_verb, enter_verb_from,
    enter_written, has_frame_left, verb_frame, verb_there,
};
pub use fault::failed;
pub use form::{ListForm, as_set_property, as_text, is_list_change, is_own_change, list_form};
pub use growth::set_sum;
pub use integers::{binary, binary_in_place, number_of};
pub use object::{
    drop_property, drop_written, read_known, read_property, read_written, write_property,
    write_written,
};
pub use target::{
    Path, Places, Root, Spot, Step, Target, as_property, is_taken, push_step, rebuilt, root_alone,
    set_variable, taken_apart,
};
pub use verb_name::VerbName;
