//! Objects and values as lines of a database text, and numbers and strings that take one line each.
//! An internal crate of `moo_dbtext`.
#![tactic(auto)]

mod fault;
mod field;
pub mod laws;
mod line;
mod object_reader;
mod object_record;
mod string_interner;
pub mod value_laws;
mod value_reader;
mod value_writing;
mod writing;

pub use fault::{LineFault, Refusal};
pub use line::{bounded_count, count, number, small, text};
pub use object_reader::ObjectReader;
pub use object_record::{ObjectRecord, PropertyRecord, VerbRecord};
pub use string_interner::StringInterner;
pub use value_reader::ValueReader;
pub use value_writing::{put_count, put_line, put_number, put_value};
pub use writing::{put_names, put_numbers};
