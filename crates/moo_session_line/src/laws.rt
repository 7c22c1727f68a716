//! Laws on lines.
ghost use Rattle.moo_session_line.specs.Reading.{LinesUnderAnyCutting, OneReading};

/// However a stream is cut into pieces, the lines of its pieces are its lines.
pub fn lines_under_any_cutting()
    ensures { LinesUnderAnyCutting }
{}

/// The state of the reader and a piece determine the lines that are returned.
pub fn one_reading()
    ensures { OneReading }
{}
