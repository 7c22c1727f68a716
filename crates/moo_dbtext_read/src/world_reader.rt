//! A reader of database texts that checks the objects as soon as the last of them has come.
ghost use Rattle.std.specs.Prelude.{◌≡◌, ◌++◌, ℕ, true, List, [], map, option_map, OnOk, IfErr, IsErrOf};
ghost use Rattle.moo_dbtext_object.specs.Objects.{object_of};
ghost use Rattle.moo_dbtext_record.specs.declared.fault.DbFault.{DbFault};
ghost use Rattle.moo_dbtext_record.specs.Sparing.{has_objects};
ghost use Rattle.moo_dbtext_read.specs.Reading.{HasRead, IsWell, place_of};
ghost use Rattle.moo_dbtext_read.specs.Objects.{AreFaultless};
ghost use Rattle.moo_dbtext_read.specs.Loading.{LoadAnswers, IsRefusedFrom, IsTextUntold};
ghost use Rattle.moo_dbtext_read.specs.Taking.{LoadsOn, HasTaken, IsGoing, HasFailed};

use crate::loading::{load, told};
use crate::{ProgramReader, Saved};
use moo_dbtext_object::ObjectRecord;
use moo_dbtext_record::{DbFault, LineSink, feed_lines};
use moo_dbtext_restore::check_objects;
use std::alloc::Global;

/// Returns the first fault of the objects, in a text with so many lines so far, these players and these objects.
fn check(
    alloc: Global,
    lines: u64,
    players: &[i32],
    objects: &[Option<ObjectRecord>],
) -> Result<(), DbFault>
    ensures faultless { OnOk result (AreFaultless (map (option_map object_of) objects.now)) }
    ensures fault { IfErr result (IsTextUntold players.now (map (option_map object_of) objects.now)) }
{
    match check_objects(alloc, objects) {
        Ok(()) => Ok(()),
        Err(fault) => Err(told(lines, players.len(), objects, fault)),
    }
}

/// Reads a text in pieces. After a fault each call returns that fault.
#[derive(Drop)]
pub(crate) struct WorldReader {
    programs: ProgramReader,
    is_checked: bool,
    /// Whether all bytes so far were taken, or the first fault.
    outcome: Result<(), DbFault>,
}

impl WorldReader {
    pub(crate) fn new(alloc: Global) -> WorldReader
        ensures { HasTaken result [] }
    {
        WorldReader {
            programs: ProgramReader::new(alloc),
            is_checked: false,
            outcome: Ok(()),
        }
    }

    // Checks the objects if all have come.
    fn look(&self, alloc: Global) -> Result<(), DbFault>
        ensures faultless { OnOk result (has_objects (place_of self.now.programs).section ≡ true → AreFaultless (place_of self.now.programs).text.objects) }
        ensures stops { (bytes : List ℕ) → HasRead self.now.programs bytes → IsWell self.now.programs → IfErr result (IsRefusedFrom bytes) }
    {
        let has_all = self.programs.has_objects();
        if !has_all {
            return Ok(());
        }
        let text = self.programs.dump();
        check(alloc, self.programs.lines(), &text.players, &text.objects)
    }

    pub(crate) fn feed(&mut self, alloc: Global, piece: &[u8]) -> Result<(), DbFault>
        ensures taken { (bytes : List ℕ) → HasTaken self.old bytes → HasTaken self.new (bytes ++ piece.now) }
        ensures ok { OnOk result (IsGoing self.new) }
        ensures failed { IfErr result (HasFailed self.new) }
        ensures refused { (bytes : List ℕ) → HasTaken self.old bytes → IfErr result (IsRefusedFrom (bytes ++ piece.now)) }
        ensures again { (e : DbFault) → HasFailed self.old e → IsErrOf result e }
    {
        self.outcome?;
        self.outcome = feed_lines(self, alloc, piece);
        self.outcome
    }

    /// Returns the saved world of the bytes so far. Frees the memory of its records, or leaks it if `is_left`.
    pub(crate) fn finish(self, alloc: Global, is_left: bool) -> Result<Saved, DbFault>
        requires { (bytes : List ℕ) × HasTaken self bytes }
        ensures answer { (bytes : List ℕ) → HasTaken self bytes → LoadAnswers result bytes }
        ensures again { (e : DbFault) → HasFailed self e → IsErrOf result e }
    {
        self.outcome?;
        let lines = self.programs.lines();
        let database = self.programs.finish()?;
        load(alloc, lines, database, is_left)
    }
}

impl LineSink for WorldReader {
    type Fault = DbFault;

    ghost takes = { LoadsOn };

    // Checks the objects if the line ends the last of them.
    fn take_line(&mut self, alloc: Global, line: &[u8]) -> Result<(), DbFault> {
        self.programs.feed_line(alloc, line)?;
        if !self.is_checked {
            self.look(alloc)?;
            self.is_checked = self.programs.has_objects();
        }
        Ok(())
    }

    fn take_part(&mut self, alloc: Global, part: &[u8]) -> Result<(), DbFault> {
        self.programs.feed(alloc, part)
    }
}
