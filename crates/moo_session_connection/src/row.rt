//! The bytes for one number.
ghost use Rattle.std.specs.Prelude.{◌≡◌, ◌<◌, ◌++◌, ℕ, filter, length, nat_lt, slice_index_or, OnOk};
ghost use Rattle.moo_session_connection.specs.Streams.{ended};
ghost use Rattle.moo_session_connection.specs.Outbox.{no_bytes};
ghost use Rattle.moo_session_connection.specs.Rows.{committed, rolled_back, changed_at, all_changed, has_waiting};

use std::alloc::{AllocError, Global};
use std::marker::Model;
use std::mem;

/// Holds the bytes for one number, those under way last.
#[derive(Drop)]
pub struct Row {
    alloc: Global,
    bytes: Vec<u8>,
    // The number of bytes that wait.
    settled: usize,
}

impl Model for Row {
    ghost use Rattle.std.specs.Prelude.{◌≤◌, length, take, drop};
    ghost use Rattle.moo_session_connection.specs.Outbox.{Bytes};

    ghost Value = { Bytes };

    ghost view = { λ r. record { waiting = take r.settled r.bytes.items; under_way = drop r.settled r.bytes.items } };

    ghost invariant = { λ r. r.settled ≤ length r.bytes.items };
}

impl Row {
    pub(crate) fn new(alloc: Global) -> Row
        ensures { result ≡ no_bytes }
    {
        Row {
            alloc,
            bytes: Vec::new(alloc),
            settled: 0,
        }
    }

    // Returns whether bytes wait.
    fn has_waiting(&self) -> bool
        ensures { result ≡ nat_lt 0 (length self.now.waiting) }
    {
        0 < self.settled
    }

    // Appends a line and its end, in memory that is taken once.
    pub(crate) fn push(&mut self, line: &[u8]) -> Result<(), AllocError>
        ensures ok { OnOk result (self.new.under_way ≡ self.old.under_way ++ ended line.now) }
        ensures waiting { self.new.waiting ≡ self.old.waiting }
    {
        self.bytes.reserve(line.len().saturating_add(2))?;
        self.bytes.extend_from_slice(line)?;
        self.bytes.extend_from_slice(b"\r\n")?;
        Ok(())
    }

    // Makes the bytes that are under way wait.
    pub(crate) fn commit(&mut self)
        ensures { self.new ≡ committed self.old }
    {
        self.settled = self.bytes.len();
    }

    // Drops the bytes that are under way.
    pub(crate) fn rollback(&mut self)
        ensures { self.new ≡ rolled_back self.old }
    {
        self.bytes.truncate(self.settled);
    }

    // Takes the bytes that wait.
    pub(crate) fn take(&mut self) -> Vec<u8>
        ensures taken { result.items ≡ self.old.waiting }
        ensures left { self.new ≡ no_bytes }
    {
        self.rollback();
        self.settled = 0;
        mem::replace(&mut self.bytes, Vec::new(self.alloc))
    }
}

// Adds rows up to that of a number.
pub(crate) fn grow(alloc: Global, rows: &mut Vec<Row>, number: usize) -> Result<(), AllocError>
    ensures there { OnOk result (number < length rows.new.items) }
    ensures same { (c : ℕ) → slice_index_or rows.new.items c no_bytes ≡ slice_index_or rows.old.items c no_bytes }
{
    while rows.len() <= number {
        rows.push(Row::new(alloc))?;
    }
    Ok(())
}

// Drops the numbers for which no bytes wait.
pub(crate) fn keep_waiting(numbers: &mut Vec<u16>, rows: &[Row])
    ensures { numbers.new.items ≡ filter (has_waiting rows.now) numbers.old.items }
{
    numbers.retain(|number| has_waiting(rows, *number));
}

fn has_waiting(rows: &[Row], number: u16) -> bool
    ensures { result ≡ has_waiting rows.now number }
{
    let place = usize::from(number);
    if place < rows.len() {
        rows[place].has_waiting()
    } else {
        false
    }
}

// Makes the bytes that are under way for these numbers wait.
pub(crate) fn commit_all(rows: &mut Vec<Row>, numbers: &[u16])
    ensures { rows.new.items ≡ all_changed committed numbers.now rows.old.items }
{
    for number in numbers {
        commit_at(rows, *number);
    }
}

fn commit_at(rows: &mut Vec<Row>, number: u16)
    ensures { rows.new.items ≡ changed_at committed number rows.old.items }
{
    let place = usize::from(number);
    if place < rows.len() {
        rows[place].commit();
    }
}

// Drops the bytes that are under way for these numbers.
pub(crate) fn rollback_all(rows: &mut Vec<Row>, numbers: &[u16])
    ensures { rows.new.items ≡ all_changed rolled_back numbers.now rows.old.items }
{
    for number in numbers {
        rollback_at(rows, *number);
    }
}

fn rollback_at(rows: &mut Vec<Row>, number: u16)
    ensures { rows.new.items ≡ changed_at rolled_back number rows.old.items }
{
    let place = usize::from(number);
    if place < rows.len() {
        rows[place].rollback();
    }
}
