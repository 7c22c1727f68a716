//! What a server does in one event.
ghost use Rattle.std.specs.Prelude.{◌≡◌, ◌≢◌, ◌⊎◌, ◌↔◌, ◌||◌, None, false, true, OnOk, IfErr, Err, IsOk, Some, [], if◌then◌else◌};
ghost use Rattle.moo_disk.specs.Disk.{Gains, HasRisen};
ghost use Rattle.moo_dbtext_read.specs.Saved.{Saved};
ghost use Rattle.moo_server_core.specs.Application.{Finishes, IsApt, Output, is_dropped, seen_happening, then_out};
ghost use Rattle.moo_server_core.specs.Crash.{IsOneOf, Survives};
ghost use Rattle.moo_server_core.specs.Turns.{CountsReport, FailsAtMostOnce};
ghost use Rattle.moo_server_core.specs.Seen.{Flush, seen};
ghost use Rattle.moo_server_core.specs.Meaning.{State, Acts, Entry, FindsFree, Hears, Marks, is_due, MayWant, acts_without_memory, at_moment_of, is_passed_over, refusal, refusal_in};

use crate::event::Course;
use crate::server_core::Open;
use crate::{Application, Cause, Event, Input, Requests, ServerCore};
use moo_checkpoint::{Checkpoint, Turn};
use moo_disk::Disk;
use std::alloc::AllocError;

impl<S: Application> ServerCore<S> {
    ghost use Rattle.moo_server_core.specs.Server.{Does, Follows, HaltsInTurn, IsAlive, MakesCallOf, MarkSpells, OpenFollows, Opens, Turns, on_its_way, state_of, turns_of, under_way_of, waiting_of, with_disk};

    // Gives the application an input, and notes the requests that result.
    fn apply(&mut self, happening: Input) -> Result<(), AllocError>
        requires { IsApt S.layer.meaning (S.layer.state self.old.sessions) (seen_happening happening) }
        ensures hears { OnOk result ((out : Output)
            × Hears S.layer.meaning (seen_happening happening.entry) (state_of S.layer self.old) out (state_of S.layer self.new)
            × (under_way_of S.layer self.new ≡ then_out (under_way_of S.layer self.old) out)) }
        ensures waiting { waiting_of S.layer self.new ≡ waiting_of S.layer self.old }
        ensures writing { self.new.writing ≡ self.old.writing }
        ensures halted { self.new.halted ≡ self.old.halted }
        ensures dropped { is_dropped S.layer.meaning (S.layer.state self.old.sessions) (seen_happening happening.entry) ≡ true
            → IsOk result × (is_due S.layer.meaning (state_of S.layer self.new) ≡ is_due S.layer.meaning (state_of S.layer self.old)) }
    {
        let asked = self.sessions.apply(self.moment, happening)?;
        self.note_requests(asked);
        Ok(())
    }

    // Notes requests. A checkpoint stays requested until it begins, and a shutdown makes the server close.
    fn note_requests(&mut self, asked: Requests)
        ensures asked { self.new.asked ≡ (asked.checkpoint || (asked.shutdown || self.old.asked)) }
        ensures course { self.new.course ≡ (if asked.shutdown then Course.Closing else self.old.course) }
        ensures sessions { self.new.sessions ≡ self.old.sessions }
        ensures moment { self.new.moment ≡ self.old.moment }
        ensures due { self.new.due ≡ self.old.due }
        ensures writing { self.new.writing ≡ self.old.writing }
        ensures halted { self.new.halted ≡ self.old.halted }
    {
        if asked.shutdown {
            self.course = Course::Closing;
        }
        if asked.checkpoint || asked.shutdown {
            self.asked = true;
        }
    }

    // Applies the event's own effect.
    fn act(&mut self, event: &Event) -> Result<(), AllocError>
        requires { FindsFree S.layer.meaning (state_of S.layer self.old) (seen event.now) }
        ensures acts { OnOk result ((out : Output)
            × Acts S.layer.meaning (seen event.now) (state_of S.layer self.old) out (state_of S.layer self.new)
            × (under_way_of S.layer self.new ≡ then_out (under_way_of S.layer self.old) out)) }
        ensures waiting { waiting_of S.layer self.new ≡ waiting_of S.layer self.old }
        ensures writing { self.new.writing ≡ self.old.writing }
        ensures halted { self.new.halted ≡ self.old.halted }
        ensures without_memory { acts_without_memory S.layer.meaning (state_of S.layer self.old) (seen event.now) ≡ true → IsOk result
            × (is_due S.layer.meaning (state_of S.layer self.new) ≡ is_due S.layer.meaning (at_moment_of (seen event.now) (state_of S.layer self.old))) }
    {
        match event {
            Event::Open(c) => self.apply(Input::Opens(*c)),
            Event::Bytes(c, piece) => self.apply(Input::Receives(*c, piece)),
            Event::Hangup(c) => self.apply(Input::HangsUp(*c)),
            Event::Moment(moment) => {
                self.moment = *moment;
                Ok(())
            }
            Event::Flush => Ok(()),
        }
    }

    fn is_due(&self) -> bool
        ensures { result ≡ is_due S.layer.meaning (state_of S.layer self.now) }
    {
        if self.course.is_closed() || self.writing.is_some() {
            return false;
        }
        self.asked || self.due <= u64::from(self.moment)
    }

    // Begins a checkpoint if one is due.
    fn begin_due_checkpoint(&mut self) -> Result<(), AllocError>
        ensures marks { OnOk result ((mark : _) × (out : Output)
            × Marks S.layer.meaning mark (state_of S.layer self.old) out (state_of S.layer self.new)
            × Opens S.layer.meaning mark self.old.writing self.new.writing × MarkSpells S.layer.meaning mark
            × (under_way_of S.layer self.new ≡ then_out (under_way_of S.layer self.old) out)) }
        ensures waiting { waiting_of S.layer self.new ≡ waiting_of S.layer self.old }
        ensures halted { self.new.halted ≡ self.old.halted }
        ensures due { IfErr result (λ _. is_due S.layer.meaning (state_of S.layer self.old) ≡ true) }
    {
        if !self.is_due() {
            return Ok(());
        }
        self.apply(Input::Starts)?;
        self.asked = false;
        self.due = u64::from(self.moment) + u64::from(self.sessions.interval());
        let text = self.sessions.text()?;
        self.writing = Some(Open {
            checkpoint: Checkpoint::begin(text),
            is_last: self.course.is_closing(),
        });
        Ok(())
    }

    // Reports that the open checkpoint has ended. If it was the last, the server is closed.
    fn report(&mut self, is_last: bool, done: bool) -> Result<(), AllocError>
        ensures reports { OnOk result ((out : Output) × (mid : State S.State)
            × Hears S.layer.meaning (Finishes done) (state_of S.layer self.old) out mid
            × (state_of S.layer self.new ≡ record mid { course = if is_last then Course.Closed else mid.course })
            × (under_way_of S.layer self.new ≡ then_out (under_way_of S.layer self.old) out)) }
        ensures waiting { waiting_of S.layer self.new ≡ waiting_of S.layer self.old }
        ensures writing { self.new.writing ≡ self.old.writing }
        ensures halted { self.new.halted ≡ self.old.halted }
    {
        self.apply(Input::Finishes(done))?;
        if is_last {
            self.course = Course::Closed;
        }
        Ok(())
    }

    // Gives the open checkpoint a turn.
    fn flush<D: Disk>(&mut self, disk: &mut D) -> Result<(), AllocError>
        requires { OpenFollows D.kind self.old.writing disk.old }
        ensures turns { OnOk result ((report : _) × (out : Output)
            × Turns S.layer.meaning D.kind (state_of S.layer self.old) (state_of S.layer self.new)
            self.old.writing self.new.writing disk.old disk.new report out
            × (under_way_of S.layer self.new ≡ then_out (under_way_of S.layer self.old) out)) }
        ensures waiting { waiting_of S.layer self.new ≡ waiting_of S.layer self.old }
        ensures halted { self.new.halted ≡ self.old.halted }
        ensures follows { OnOk result (OpenFollows D.kind self.new.writing disk.new) }
        ensures gains { D.kind.honest disk.old → Gains (IsOneOf (on_its_way self.old)) (D.kind.view disk.old) (D.kind.view disk.new) }
        ensures at_most_once { FailsAtMostOnce (D.kind.failures disk.old) (D.kind.failures disk.new) }
        ensures call { MakesCallOf D.kind self.old.writing disk.old disk.new }
        ensures over { IfErr result (λ _. (turns_of self.old.writing ≡ 1) ⊎ HasRisen (D.kind.failures disk.old) (D.kind.failures disk.new)) }
        ensures idle { self.old.writing ≡ None → disk.new ≡ disk.old }
        ensures without_memory { self.old.writing ≡ None → IsOk result × (state_of S.layer self.new ≡ state_of S.layer self.old) }
        ensures honest { D.kind.honest disk.old ↔ D.kind.honest disk.new }
    {
        let Some(mut open) = self.writing.take() else {
            return Ok(());
        };
        match open.checkpoint.turn(disk) {
            Turn::More => {
                self.writing = Some(open);
                Ok(())
            }
            Turn::Done => self.report(open.is_last, true),
            Turn::Failed => self.report(open.is_last, false),
        }
    }

    // Returns the reason why an event is refused, if it is.
    fn refusal(&self, event: &Event) -> Option<Cause>
        ensures { result ≡ refusal S.layer.meaning (state_of S.layer self.now) (seen event.now) }
    {
        match self.course {
            Course::Closed => Some(Cause::Closed),
            Course::Closing => None,
            Course::Running => self.refusal_running(event),
        }
    }

    fn refusal_running(&self, event: &Event) -> Option<Cause>
        ensures { result ≡ refusal_in S.layer.meaning Course.Running self.now.moment (S.layer.state self.now.sessions) (seen event.now) }
    {
        match event {
            Event::Open(c) => {
                if self.sessions.is_open(*c) {
                    return Some(Cause::ConnectionInUse);
                }
                None
            }
            Event::Bytes(c, _) => self.absence(*c),
            Event::Hangup(c) => self.absence(*c),
            Event::Moment(moment) => {
                if *moment < self.moment {
                    return Some(Cause::ClockBack);
                }
                None
            }
            Event::Flush => None,
        }
    }

    fn absence(&self, c: u16) -> Option<Cause>
        ensures { result ≡ (if S.layer.meaning.is_open (S.layer.state self.now.sessions) c then None else Some Cause.NoSuchConnection) }
    {
        if self.sessions.is_open(c) {
            return None;
        }
        Some(Cause::NoSuchConnection)
    }

    // Takes an event that isn't refused.
    fn try_take<D: Disk>(&mut self, disk: &mut D, event: &Event) -> Result<(), AllocError>
        requires follows { Follows S.layer D.kind (with_disk self.old disk.old) }
        requires accepted { refusal S.layer.meaning (state_of S.layer self.old) (seen event.now) ≡ None }
        requires counts { is_passed_over S.layer.meaning (state_of S.layer self.old) (seen event.now) ≡ false }
        ensures takes { OnOk result ((entry : Entry Saved) × (entry.event ≡ seen event.now)
            × Does S.layer.meaning D.kind (state_of S.layer self.old) (state_of S.layer self.new)
            self.old.writing self.new.writing disk.old disk.new entry
            × CountsReport entry.report (D.kind.failures disk.old) (D.kind.failures disk.new)
            × (under_way_of S.layer self.new ≡ entry.out)) }
        ensures waiting { waiting_of S.layer self.new ≡ waiting_of S.layer self.old }
        ensures halted { self.new.halted ≡ self.old.halted }
        ensures follows { OnOk result (OpenFollows D.kind self.new.writing disk.new) }
        ensures gains { D.kind.honest disk.old → Gains (IsOneOf (on_its_way self.old)) (D.kind.view disk.old) (D.kind.view disk.new) }
        ensures at_most_once { FailsAtMostOnce (D.kind.failures disk.old) (D.kind.failures disk.new) }
        ensures call { seen event.now ≡ Flush → MakesCallOf D.kind self.old.writing disk.old disk.new }
        ensures halts { IfErr result (λ _. seen event.now ≡ Flush → HaltsInTurn D.kind self.old.writing disk.old disk.new) }
        ensures idle { self.old.writing ≡ None → disk.new ≡ disk.old }
        ensures still { seen event.now ≢ Flush → disk.new ≡ disk.old }
        ensures honest { D.kind.honest disk.old ↔ D.kind.honest disk.new }
        ensures memory { IfErr result (λ _. MayWant S.layer.meaning (state_of S.layer self.old) (seen event.now)) }
    {
        if event.is_flush() {
            self.flush(disk)?;
            return self.begin_due_checkpoint();
        }
        self.act(event)?;
        self.begin_due_checkpoint()
    }

    // Takes one event. If memory runs out, the server halts. A refused event changes nothing.
    pub(crate) fn take<D: Disk>(&mut self, disk: &mut D, event: &Event) -> Result<(), Cause>
        requires follows { Follows S.layer D.kind (with_disk self.old disk.old) }
        requires alive { IsAlive self.old }
        ensures takes { OnOk result ((entry : Entry Saved) × (entry.event ≡ seen event.now)
            × Does S.layer.meaning D.kind (state_of S.layer self.old) (state_of S.layer self.new)
            self.old.writing self.new.writing disk.old disk.new entry
            × CountsReport entry.report (D.kind.failures disk.old) (D.kind.failures disk.new)
            × (waiting_of S.layer self.new ≡ then_out (waiting_of S.layer self.old) entry.out)
            × IsAlive self.new) }
        ensures memory { result ≡ Err Cause.Memory → (self.new.halted ≡ true)
            × (waiting_of S.layer self.new ≡ waiting_of S.layer self.old)
            × (D.kind.honest disk.old → Survives D.kind disk.old disk.new (on_its_way self.old) (on_its_way self.new) []) }
        ensures wanting { result ≡ Err Cause.Memory → MayWant S.layer.meaning (state_of S.layer self.old) (seen event.now) }
        ensures refused { IfErr result (λ cause. cause ≢ Cause.Memory
            → (refusal S.layer.meaning (state_of S.layer self.old) (seen event.now) ≡ Some cause) × (self.new ≡ self.old) × (disk.new ≡ disk.old)) }
        ensures follows { Follows S.layer D.kind (with_disk self.new disk.new) }
        ensures at_most_once { FailsAtMostOnce (D.kind.failures disk.old) (D.kind.failures disk.new) }
        ensures call { OnOk result (seen event.now ≡ Flush → MakesCallOf D.kind self.old.writing disk.old disk.new) }
        ensures halts { result ≡ Err Cause.Memory → seen event.now ≡ Flush → HaltsInTurn D.kind self.old.writing disk.old disk.new }
        ensures idle { self.old.writing ≡ None → disk.new ≡ disk.old }
        ensures still { seen event.now ≢ Flush → disk.new ≡ disk.old }
        ensures honest { D.kind.honest disk.old ↔ D.kind.honest disk.new }
    {
        if let Some(cause) = self.refusal(event) {
            return Err(cause);
        }
        if self.course.is_closing() && !event.is_flush() {
            return Ok(());
        }
        match self.try_take(disk, event) {
            Ok(()) => {
                self.sessions.keep();
                Ok(())
            }
            Err(_) => {
                self.sessions.forget();
                self.halted = true;
                self.writing = None;
                Err(Cause::Memory)
            }
        }
    }
}
