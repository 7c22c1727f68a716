//! Finds the fault of a database, and every refused program if that fault is of a program.
ghost use Rattle.std.specs.Prelude.{◌≡◌, ◌<◌, ◌++◌, ℕ, false, List, [], length, OnOk, IfErr, IfOk, IfSome, MatchOption};
ghost use Rattle.moo_cli_io.specs.Refused.{IsEarned};
ghost use Rattle.moo_dbtext_read.specs.Feeding.{HasFed};
ghost use Rattle.moo_dbtext_read.specs.Loading.{IsRefusedFrom};
ghost use Rattle.moo_cli_check.specs.Answers.{Answers, GoesOn, HaveFed, IsHalted};
ghost use Rattle.moo_cli_check.specs.Shown.{is_of_program};

use crate::survey::Survey;
use moo_cli_io::{ExitReason, Watch};
use moo_dbtext_read::{DbFault, DbFaultKind, DbReader, Saved};
use std::alloc::Global;
use std::io::Read;
use std::mem::forget;

/// The number of bytes in one read.
const PIECE: usize = 65_536;

/// The answer for a whole text.
#[derive(Drop)]
pub(crate) enum Answer {
    /// The answer of `moo check`; no program is reported.
    Checked(Result<Saved, DbFault>),
    /// The refused programs, and the fault of a line that ends them.
    Surveyed(Vec<DbFault>, Option<DbFault>),
}

/// The reason why the rest of a text isn't read.
#[derive(Clone, Copy, Debug, PartialEq, Eq)]
pub(crate) enum Halt {
    /// `moo check` reports this fault, which is of no program.
    Refused(DbFault),
    /// This fault of a line ends the programs.
    Ended(DbFault),
}

fn is_of_program(kind: DbFaultKind) -> bool
    ensures { result ≡ is_of_program kind }
{
    match kind {
        DbFaultKind::Program(_, _, _) => true,
        _ => false,
    }
}

/// Feeds `moo check` the next piece of the text. Returns a fault only if it is of no program.
fn check_piece(alloc: Global, check: &mut DbReader, piece: &[u8]) -> Result<(), DbFault>
    ensures fed { (bytes : List ℕ) → HasFed check.old bytes → HasFed check.new (bytes ++ piece.now) }
    ensures goes { (bytes : List ℕ) → HasFed check.old bytes → OnOk result (GoesOn check.new (bytes ++ piece.now)) }
    ensures stops { (bytes : List ℕ) → HasFed check.old bytes → IfErr result (λ e. (is_of_program e.kind ≡ false) × IsRefusedFrom (bytes ++ piece.now) e) }
{
    let Err(fault) = check.feed(alloc, piece) else {
        return Ok(());
    };
    if is_of_program(fault.kind) {
        return Ok(());
    }
    Err(fault)
}

/// Reads a text in pieces, both for `moo check` and for its refused programs.
#[derive(Drop)]
pub(crate) struct Readers {
    check: DbReader,
    survey: Survey,
}

impl Readers {
    fn new(alloc: Global) -> Readers
        ensures { HaveFed result [] }
    {
        Readers {
            check: DbReader::new(alloc),
            survey: Survey::new(alloc),
        }
    }

    /// Takes the next piece of the text. Returns the reason to stop, if there is one.
    fn feed(&mut self, alloc: Global, piece: &[u8]) -> Result<(), Halt>
        ensures goes { (bytes : List ℕ) → HaveFed self.old bytes → OnOk result (HaveFed self.new (bytes ++ piece.now)) }
        ensures stops { (bytes : List ℕ) → HaveFed self.old bytes → IfErr result (IsHalted (bytes ++ piece.now) self.new.survey.faults.items) }
    {
        if let Err(fault) = check_piece(alloc, &mut self.check, piece) {
            return Err(Halt::Refused(fault));
        }
        if let Err(fault) = self.survey.feed(alloc, piece) {
            return Err(Halt::Ended(fault));
        }
        Ok(())
    }

    fn finish(self, alloc: Global) -> Answer
        ensures { (bytes : List ℕ) → HaveFed self bytes → Answers result bytes }
    {
        match self.check.finish(alloc) {
            Ok(saved) => {
                forget(self.survey);
                Answer::Checked(Ok(saved))
            }
            Err(fault) => {
                if is_of_program(fault.kind) {
                    let (faults, end) = self.survey.finish();
                    return Answer::Surveyed(faults, end);
                }
                Answer::Checked(Err(fault))
            }
        }
    }

    /// Returns the answer after the reading stopped for this reason.
    fn halted(self, halt: Halt) -> Answer
        ensures { (front more : List ℕ) → IsHalted front self.survey.faults.items halt → Answers result (front ++ more) }
    {
        match halt {
            Halt::Refused(fault) => Answer::Checked(Err(fault)),
            Halt::Ended(fault) => Answer::Surveyed(self.survey.into_faults(), Some(fault)),
        }
    }
}

/// Returns the answer for the rest of the input. Returns a refusal if the input fails or memory runs out.
pub(crate) fn survey<I: Read>(
    alloc: Global,
    input: &mut I,
    watch: &mut Watch,
) -> Result<Answer, ExitReason>
    ensures answer { IfOk result (λ answer. IfSome (I.remaining input.old) (Answers answer)) }
    ensures earned { IfErr result (IsEarned watch.new) }
{
    let mut readers = Readers::new(alloc);
    let Ok(mut buffer) = vec![in alloc; 0u8; PIECE] else {
        return Err(watch.lack());
    };
    match feed_all(alloc, input, watch, &mut readers, &mut buffer)? {
        None => Ok(readers.finish(alloc)),
        Some(halt) => Ok(readers.halted(halt)),
    }
}

// Feeds the readers the rest of the input, or the input up to a reason to stop.
fn feed_all<I: Read>(
    alloc: Global,
    input: &mut I,
    watch: &mut Watch,
    readers: &mut Readers,
    buffer: &mut [u8],
) -> Result<Option<Halt>, ExitReason>
    requires room { 0 < length buffer.old }
    requires fresh { HaveFed readers.old [] }
    ensures fed { IfOk result (λ halt. IfSome (I.remaining input.old) (λ bytes. MatchOption halt (HaveFed readers.new bytes) (λ h. (front : List ℕ) × (more : List ℕ) × (bytes ≡ front ++ more) × IsHalted front readers.new.survey.faults.items h))) }
    ensures earned { IfErr result (IsEarned watch.new) }
{
    while let Some(count) = watch.read(input, buffer)? {
        if let Err(halt) = readers.feed(alloc, &buffer[..count]) {
            return Ok(Some(halt));
        }
    }
    Ok(None)
}
