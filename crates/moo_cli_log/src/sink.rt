//! Where records go: to standard error, each as one line, with the time before it.
ghost use Rattle.std.specs.Prelude.{Some, [], true};

use crate::local::LocalTime;
use crate::standard_error::StandardError;
use jiff::Timestamp;
use log::kv::Source;
use log::span::Spans;
use log::{Line, Log, Metadata, Record};
use std::cell::Cell;
use std::fmt;
use std::fmt::{Display, Write};
use std::rt::Clock;

/// The time before each line of the log.
#[derive(Drop)]
pub enum LogTimes {
    /// No time.
    None,
    /// The universal time, as `2026-11-27T22:12:40Z`.
    Utc,
    /// The time of the machine's zone with its offset, as `2026-11-27T23:12:40+01:00`.
    Local(LocalTime),
}

/// Writes each record to standard error as a line, after the time. If the clock can't be read, the line has no time.
///
/// Drops a line, or the rest of a long one, if standard error takes no more, as a full pipe that nobody reads does. The next
/// line that it takes comes after one that says how many were dropped.
#[derive(Drop)]
pub struct TimedLog<R> {
    rt: R,
    times: LogTimes,
    /// The number of lines that were dropped since the last one that was written.
    dropped: Cell<u64>,
    /// Whether standard error has the begin of a line whose rest was dropped.
    is_cut: Cell<bool>,
}

impl<R: Clock> TimedLog<R> {
    /// Returns a log that has written nothing, with these times before its lines.
    pub fn new(rt: R, times: LogTimes) -> TimedLog<R> {
        TimedLog {
            rt,
            times,
            dropped: Cell::new(0),
            is_cut: Cell::new(false),
        }
    }

    // Returns the current second.
    fn second(&self) -> Option<Timestamp> {
        let since = self.rt.since_1970().ok()?;
        Timestamp::from_second(i64::try_from(since.as_secs()).ok()?).ok()
    }

    // Writes a line after the time, as far as standard error takes it. Returns whether it took the whole line.
    fn print<D: Display + Drop>(&self, line: D) -> bool {
        let mut output = StandardError::new();
        let is_whole = self.write_line(&mut output, line).is_ok();
        let has_part = self.is_cut.get() || output.has_written();
        self.is_cut.set(!is_whole && has_part);
        is_whole
    }

    // Writes a line after the time. Ends the line before it, if that was cut.
    fn write_line<D: Display + Drop>(&self, output: &mut StandardError, line: D) -> fmt::Result {
        if self.is_cut.get() {
            output.write_str("\n")?;
        }
        let now = match &self.times {
            LogTimes::None => None,
            _ => self.second(),
        };
        match (&self.times, now) {
            (LogTimes::Utc, Some(now)) => write!(output, "{now} {line}\n")?,
            (LogTimes::Local(local), Some(now)) => match local.text(now) {
                Some(text) => write!(output, "{text} {line}\n")?,
                None => write!(output, "{now} {line}\n")?,
            },
            _ => write!(output, "{line}\n")?,
        }
        output.write_piece()
    }

    // Writes how many lines were dropped, if any were. Returns whether none is left to be counted.
    fn print_dropped(&self) -> bool {
        let dropped = self.dropped.get();
        if dropped == 0 {
            return true;
        }
        let is_whole = self.print(format_args!(
            "[WARN  moo::serve] {dropped} lines of the log were dropped: nobody read standard error"
        ));
        if is_whole {
            self.dropped.set(0);
        }
        is_whole
    }
}

impl<R: Clock> Log for TimedLog<R> {
    ghost enables = { λ _ _ _. Some true };

    ghost target_of = { λ _. Some [] };

    fn enabled(&self, _metadata: &Metadata<'_>) -> bool {
        true
    }

    fn log<D: Display, K: Source, S: Spans>(&self, record: &Record<'_, D, K, S>) {
        if !self.print_dropped() || !self.print(Line::new(record)) {
            self.dropped.set(self.dropped.get().saturating_add(1));
        }
    }

    fn flush(&self) {}

    fn target(&self) -> &str {
        ""
    }
}
