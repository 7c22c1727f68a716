//! A bound on the lines of one kind in the log.
ghost use Rattle.std.specs.Prelude.{◌≡◌, ◌+◌, ◌≤◌, min, nat_lt, if◌then◌else◌};

/// Counts the lines of one kind in a second, those that are written and those that are left out.
#[derive(Clone, Copy, Debug, PartialEq, Eq)]
pub struct LineBound {
    /// The most lines that are written in a second.
    most: u64,
    /// The number of lines that were written in this second.
    count: u64,
    /// The number of lines that were left out in this second.
    omitted: u64,
    ghost bounded: { count ≤ most },
}

impl LineBound {
    /// Returns a bound of so many lines in a second.
    pub fn new(most: u64) -> LineBound
        ensures most { result.most ≡ most }
        ensures count { result.count ≡ 0 }
        ensures omitted { result.omitted ≡ 0 }
    {
        LineBound {
            most,
            count: 0,
            omitted: 0,
        }
    }

    /// Counts one more line. Returns whether it may be written; else it is left out.
    pub fn try_count(&mut self) -> bool
        ensures may { result ≡ nat_lt self.old.count self.old.most }
        ensures count { self.new.count ≡ self.old.count + (if result then 1 else 0) }
        ensures omitted { self.new.omitted ≡ (if result then self.old.omitted else min (self.old.omitted + 1) 18446744073709551615) }
        ensures most { self.new.most ≡ self.old.most }
    {
        if self.count >= self.most {
            self.omitted = self.omitted.saturating_add(1);
            return false;
        }
        self.count += 1;
        true
    }

    /// Begins a new second. Returns the number of lines that were left out in the last one.
    pub fn begin_second(&mut self) -> u64
        ensures omitted { result ≡ self.old.omitted }
        ensures fresh { (self.new.count ≡ 0) × (self.new.omitted ≡ 0) × (self.new.most ≡ self.old.most) }
    {
        let omitted = self.omitted;
        self.count = 0;
        self.omitted = 0;
        omitted
    }
}
