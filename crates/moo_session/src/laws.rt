//! Laws of sessions: of the lines that bytes end, and of the tasks that they start.

pub use moo_session_line::laws::{lines_under_any_cutting, one_reading};
pub use moo_session_task::laws::at_most_one_result;
