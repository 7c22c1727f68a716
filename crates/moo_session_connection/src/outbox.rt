//! The output that waits to be taken.
ghost use Rattle.std.specs.Prelude.{◌≡◌, ◌≢◌, ◌<◌, ◌≤◌, ◌++◌, ℕ, [], length, take, Contains, IfOk, OnOk};
ghost use Rattle.std.specs.BTreeSet.{IsOrdered};
ghost use Rattle.std.specs.List.{AllPairs};
ghost use Rattle.std.specs.Ordering.{nat_cmp};
ghost use Rattle.moo_session_connection.specs.Streams.{stream};
ghost use Rattle.moo_session_connection.specs.Outbox.{empty, bytes_of, sent_waiting, sent_under_way, log_waiting, log_under_way};
ghost use Rattle.moo_session_connection.specs.Rows.{sent_for};

use crate::Sent;
use crate::row::{Row, commit_all, grow, keep_waiting, rollback_all};
use moo_value::MooStr;
use std::alloc::{AllocError, Global};
use std::collections::BTreeSet;
use std::marker::Model;
use std::mem;

/// Holds the bytes for each connection, by its number, and the lines of the log. The output of an event is under way
/// until `commit`; then it waits to be taken.
#[derive(Drop)]
pub struct Outbox {
    alloc: Global,
    // The bytes for the connections, by number from 0 on.
    rows: Vec<Row>,
    // The numbers for which bytes may be under way.
    touched: Vec<u16>,
    // The numbers for which there are bytes, under way or not.
    filled: BTreeSet<u16>,
    log: Vec<MooStr>,
    // The number of log lines that wait.
    settled: usize,
}

impl Model for Outbox {
    ghost use Rattle.std.specs.Prelude.{◌≤◌, length, take, drop};
    ghost use Rattle.moo_session_connection.specs.Outbox.{Outbox as Contents};
    ghost use Rattle.moo_session_connection.specs.Rows.{OnlyFilled, OnlyTouched};

    ghost Value = { Contents };

    ghost view = { λ o. record { bytes = o.rows.items; log = take o.settled o.log.items; log_under_way = drop o.settled o.log.items } };

    ghost invariant = { λ o. (o.settled ≤ length o.log.items) × OnlyTouched o.rows.items o.touched.items × OnlyFilled o.rows.items o.filled };
}

impl Outbox {
    /// Returns an empty outbox.
    pub fn new(alloc: Global) -> Outbox
        ensures { result ≡ empty }
    {
        Outbox {
            alloc,
            rows: Vec::new(alloc),
            touched: Vec::new(alloc),
            filled: BTreeSet::new(alloc),
            log: Vec::new(alloc),
            settled: 0,
        }
    }

    /// Adds the lines that an event has sent, and its lines for the log, to what is under way. Fails only if memory
    /// runs out; the output that waits stays in any case.
    pub fn add(&mut self, sent: &[Sent], log: &[MooStr]) -> Result<(), AllocError>
        ensures sent { OnOk result ((c : ℕ) → sent_under_way self.new c ≡ sent_under_way self.old c ++ stream c sent.now) }
        ensures log { OnOk result (log_under_way self.new ≡ log_under_way self.old ++ log.now) }
        ensures waiting { (c : ℕ) → sent_waiting self.new c ≡ sent_waiting self.old c }
        ensures log_waiting { log_waiting self.new ≡ log_waiting self.old }
    {
        self.add_sent(sent)?;
        self.add_log(log)
    }

    fn add_sent(&mut self, sent: &[Sent]) -> Result<(), AllocError>
        ensures sent { OnOk result ((c : ℕ) → sent_under_way self.new c ≡ sent_under_way self.old c ++ stream c sent.now) }
        ensures waiting { (c : ℕ) → sent_waiting self.new c ≡ sent_waiting self.old c }
        ensures log { (self.new.log ≡ self.old.log) × (self.new.log_under_way ≡ self.old.log_under_way) }
    {
        for item in sent {
            self.add_line(item.number(), item.line())?;
        }
        Ok(())
    }

    fn add_line(&mut self, number: u16, line: &[u8]) -> Result<(), AllocError>
        ensures sent { OnOk result ((c : ℕ) → sent_under_way self.new c ≡ sent_under_way self.old c ++ sent_for c number line.now) }
        ensures waiting { (c : ℕ) → sent_waiting self.new c ≡ sent_waiting self.old c }
        ensures log { (self.new.log ≡ self.old.log) × (self.new.log_under_way ≡ self.old.log_under_way) }
    {
        grow(self.alloc, &mut self.rows, usize::from(number))?;
        self.touched.push(number)?;
        self.filled.insert(number)?;
        self.rows[usize::from(number)].push(line)
    }

    fn add_log(&mut self, log: &[MooStr]) -> Result<(), AllocError>
        ensures log { OnOk result (self.new.log_under_way ≡ self.old.log_under_way ++ log.now) }
        ensures waiting { self.new.log ≡ self.old.log }
        ensures bytes { self.new.bytes ≡ self.old.bytes }
    {
        push_all(&mut self.log, log)
    }

    /// Makes the output that is under way wait. Allocates no memory. The time depends only on what is under way.
    pub fn commit(&mut self)
        ensures sent { (c : ℕ) → sent_waiting self.new c ≡ sent_waiting self.old c ++ sent_under_way self.old c }
        ensures log { log_waiting self.new ≡ log_waiting self.old ++ log_under_way self.old }
        ensures none { (c : ℕ) → sent_under_way self.new c ≡ [] }
        ensures no_log { log_under_way self.new ≡ [] }
    {
        commit_all(&mut self.rows, &self.touched);
        self.touched.clear();
        self.settled = self.log.len();
    }

    /// Drops the output that is under way. Allocates no memory.
    pub fn rollback(&mut self)
        ensures sent { (c : ℕ) → sent_waiting self.new c ≡ sent_waiting self.old c }
        ensures log { log_waiting self.new ≡ log_waiting self.old }
        ensures none { (c : ℕ) → sent_under_way self.new c ≡ [] }
        ensures no_log { log_under_way self.new ≡ [] }
    {
        rollback_all(&mut self.rows, &self.touched);
        self.touched.clear();
        self.log.truncate(self.settled);
    }

    /// Returns the numbers for which bytes wait, and no others, each once, by rising number. The time depends only on how
    /// many numbers have bytes. Fails only if memory runs out.
    pub fn numbers(&self) -> Result<Vec<u16>, AllocError>
        ensures all { IfOk result (λ numbers. (c : ℕ) → (Contains numbers.items c → ⊥) → sent_waiting self.now c ≡ []) }
        ensures only { IfOk result (λ numbers. (c : ℕ) → Contains numbers.items c → sent_waiting self.now c ≢ []) }
        ensures rising { IfOk result (λ numbers. AllPairs (λ a b. a < b) numbers.items) }
    {
        let mut numbers = elements_of(self.alloc, &self.filled)?;
        keep_waiting(&mut numbers, &self.rows);
        Ok(numbers)
    }

    /// Takes the bytes that wait for a number, and drops those under way for it. Allocates no memory.
    pub fn take(&mut self, number: u16) -> Vec<u8>
        ensures taken { result.items ≡ sent_waiting self.old number }
        ensures none { sent_waiting self.new number ≡ [] }
        ensures dropped { sent_under_way self.new number ≡ [] }
        ensures others { (c : ℕ) → c ≢ number → bytes_of self.new c ≡ bytes_of self.old c }
        ensures log { (self.new.log ≡ self.old.log) × (self.new.log_under_way ≡ self.old.log_under_way) }
    {
        self.filled.remove(&number);
        let place = usize::from(number);
        if place < self.rows.len() {
            self.rows[place].take()
        } else {
            Vec::new(self.alloc)
        }
    }

    /// Takes the log lines that wait, and drops those under way. Allocates no memory.
    pub fn take_log(&mut self) -> Vec<MooStr>
        ensures taken { result.items ≡ log_waiting self.old }
        ensures none { log_waiting self.new ≡ [] }
        ensures dropped { log_under_way self.new ≡ [] }
        ensures bytes { self.new.bytes ≡ self.old.bytes }
    {
        self.log.truncate(self.settled);
        self.settled = 0;
        mem::replace(&mut self.log, Vec::new(self.alloc))
    }
}

// Returns the elements of a set, by rising number.
fn elements_of(alloc: Global, set: &BTreeSet<u16>) -> Result<Vec<u16>, AllocError>
    ensures all { IfOk result (λ elements. elements.items ≡ set.now.keys) }
    ensures ordered { IsOrdered nat_cmp set.now }
{
    let mut elements = Vec::new(alloc);
    for element in set {
        elements.push(*element)?;
    }
    Ok(elements)
}

fn push_all(log: &mut Vec<MooStr>, lines: &[MooStr]) -> Result<(), AllocError>
    ensures all { OnOk result (log.new.items ≡ log.old.items ++ lines.now) }
    ensures begun { (length log.old.items ≤ length log.new.items) × (take (length log.old.items) log.new.items ≡ log.old.items) }
{
    for line in lines {
        log.push(line.try_clone()?)?;
    }
    Ok(())
}
