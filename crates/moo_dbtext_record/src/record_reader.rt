//! A reader of whole texts that come in pieces.
ghost use Rattle.std.specs.Prelude.{◌≡◌, ℕ, ◌++◌, List, [], Some, None, OnOk, IfErr, IsErrOf, MatchOption};
ghost use Rattle.moo_dbtext_object.specs.Lines.{Gives, limited};
ghost use Rattle.moo_dbtext_record.specs.Texts.{text_of};
ghost use Rattle.moo_dbtext_record.specs.declared.record_reader.RecordFault.{RecordFault};
ghost use Rattle.moo_dbtext_record.specs.DumpReading.{progress_of, verb_read, dump_step};
ghost use Rattle.moo_dbtext_record.specs.Programs.{entry_at};
ghost use Rattle.moo_dbtext_record.specs.Sparing.{AreAlikeTaken, IsAt, AnswersBut, has_objects};
ghost use Rattle.moo_dbtext_record.specs.Answer.{Answers, TakesOn, HasTaken, IsGoing, HasFailed, taken_of, taken_on, line_ended, finished, answer_to, IsWholeLine};

use crate::dump::Dump;
use crate::dump_reader::DumpReader;
use crate::line_sink::{LineSink, feed_lines};
use moo_dbtext_object::{LineFault, Refusal};
use moo_value::MooStr;
use std::alloc::Global;
use thiserror::Error;

/// The reason why a reader refuses a text, and the number of the line at fault, from 1.
#[derive(Clone, Copy, Debug, PartialEq, Eq, Error)]
#[error("line {line}: {kind}")]
pub struct RecordFault {
    pub line: u64,
    pub kind: Refusal,
}

/// Reads a text in pieces. After a fault each call returns that fault.
#[derive(Drop)]
pub struct RecordReader {
    lines: u64,
    reader: DumpReader,
    rest: Vec<u8>,
    /// Whether all bytes so far were taken, or the first fault.
    outcome: Result<(), RecordFault>,
}

impl RecordReader {
    /// Returns a reader that expects the first byte.
    #[tactic(auto, unfolding(crate::specs::Answer::taken_on))]
    pub fn new(alloc: Global) -> RecordReader
        ensures taken { HasTaken result [] }
        ensures going { IsGoing result }
    {
        RecordReader {
            lines: 0,
            reader: DumpReader::new(alloc),
            rest: Vec::new(alloc),
            outcome: Ok(()),
        }
    }

    /// Returns the number of lines that have ended.
    pub fn lines(&self) -> u64
        ensures { result ≡ (taken_of self.now).lines }
    {
        self.lines
    }

    /// Returns the object and verb whose program's lines are being read.
    pub fn verb(&self) -> Option<(u32, u32)>
        ensures { let p = (taken_of self.now).progress in result ≡ verb_read p.section p }
    {
        self.reader.verb()
    }

    /// Returns the lines of a verb's program, if all of them have come.
    pub fn source(&self, object: u32, verb: u32) -> Option<&[MooStr]>
        ensures { let table = (taken_of self.now).progress.text.programs in
            MatchOption result (entry_at table object verb ≡ None) (λ s. entry_at table object verb ≡ Some s.now) }
    {
        self.reader.source(object, verb)
    }

    /// Returns what the lines so far hold.
    pub fn dump(&self) -> &Dump
        ensures { text_of result.now ≡ (taken_of self.now).progress.text }
    {
        self.reader.dump()
    }

    /// Returns whether all objects have come.
    pub fn has_objects(&self) -> bool
        ensures { result ≡ has_objects (taken_of self.now).progress.section }
    {
        self.reader.has_objects()
    }

    /// Drops the lines of a verb's program that has been used. The reader still knows that the verb has one.
    pub fn drop_source(&mut self, alloc: Global, object: u32, verb: u32)
        ensures alike { AreAlikeTaken (taken_of self.old) (taken_of self.new) }
        ensures going { IsGoing self.old → IsGoing self.new }
    {
        self.reader.drop_source(alloc, object, verb);
    }

    /// Takes the line that ends with these bytes.
    #[inline(always)]
    fn step(&mut self, alloc: Global, tail: &[u8]) -> Result<(), Refusal>
        ensures steps { Gives (λ _. progress_of self.new.reader) result (dump_step limited self.old.reader.section (progress_of self.old.reader) (self.old.rest.items ++ tail.now)) }
        ensures same { (self.new.lines ≡ self.old.lines) × OnOk result (self.new.rest.items ≡ []) }
    {
        if self.rest.is_empty() {
            return self.reader.step(alloc, tail);
        }
        self.rest.extend_from_slice(tail)?;
        self.reader.step(alloc, &self.rest)?;
        self.rest.clear();
        Ok(())
    }

    #[inline(always)]
    #[tactic(auto, unfolding(crate::specs::Answer::line_ended))]
    fn end_line(&mut self, alloc: Global, tail: &[u8]) -> Result<(), RecordFault>
        ensures { Answers (λ _. taken_of self.new) result (line_ended limited (taken_of self.old) (self.old.rest.items ++ tail.now)) }
    {
        let Some(line) = self.lines.checked_add(1) else {
            return Err(RecordFault {
                line: self.lines,
                kind: Refusal::Memory,
            });
        };
        match self.step(alloc, tail) {
            Ok(()) => {
                self.lines = line;
                Ok(())
            }
            Err(kind) => Err(RecordFault { line, kind }),
        }
    }

    /// Takes the next piece of the text. Returns the first fault, or `Memory`.
    pub fn feed(&mut self, alloc: Global, piece: &[u8]) -> Result<(), RecordFault>
        ensures taken { (text : List ℕ) → HasTaken self.old text → HasTaken self.new (text ++ piece.now) }
        // This holds from any state, also of a reader that has dropped sources.
        ensures steps { IsGoing self.old → Answers (λ _. taken_of self.new) result (taken_on limited (taken_of self.old) piece.now) }
        ensures ok { OnOk result (IsGoing self.new) }
        ensures failed { IfErr result (HasFailed self.new) }
        ensures again { (e : RecordFault) → HasFailed self.old e → IsErrOf result e }
    {
        self.outcome?;
        self.outcome = feed_lines(self, alloc, piece);
        self.outcome
    }

    /// Takes the next line with its end, as `feed` does, without a search for the end.
    #[inline(always)]
    pub fn feed_line(&mut self, alloc: Global, line: &[u8]) -> Result<(), RecordFault>
        requires { IsWholeLine line.now }
        ensures taken { (text : List ℕ) → HasTaken self.old text → HasTaken self.new (text ++ line.now) }
        ensures steps { IsGoing self.old → Answers (λ _. taken_of self.new) result (taken_on limited (taken_of self.old) line.now) }
        ensures ok { OnOk result (IsGoing self.new) }
        ensures failed { IfErr result (HasFailed self.new) }
        ensures again { (e : RecordFault) → HasFailed self.old e → IsErrOf result e }
    {
        self.outcome?;
        self.outcome = self.take_line(alloc, line);
        self.outcome
    }

    #[tactic(auto, unfolding(crate::specs::Answer::finished))]
    fn end(self) -> Result<Dump, RecordFault>
        ensures { Answers text_of result (finished (taken_of self)) }
    {
        let Some(line) = self.lines.checked_add(1) else {
            return Err(RecordFault {
                line: self.lines,
                kind: Refusal::Memory,
            });
        };
        if !self.rest.is_empty() {
            let kind = Refusal::Fault(self.reader.unended());
            return Err(RecordFault { line, kind });
        }
        match self.reader.finish() {
            Ok(dump) => Ok(dump),
            Err(kind) => Err(RecordFault { line, kind }),
        }
    }

    /// Returns the records, once the whole text has been fed. Fails if a line is missing or has no end, or with an
    /// earlier fault.
    pub fn finish(self) -> Result<Dump, RecordFault>
        ensures answer { (text : List ℕ) → HasTaken self text → Answers text_of result (answer_to limited text) }
        // If sources were dropped, all else is that of the text.
        ensures spare { IsGoing self → (text : List ℕ) → IsAt self text → AnswersBut result (answer_to limited text) }
        ensures again { (e : RecordFault) → HasFailed self e → IsErrOf result e }
    {
        self.outcome?;
        self.end()
    }
}

impl LineSink for RecordReader {
    type Fault = RecordFault;

    ghost takes = { TakesOn };

    #[inline(always)]
    fn take_line(&mut self, alloc: Global, line: &[u8]) -> Result<(), RecordFault> {
        self.end_line(alloc, &line[..line.len() - 1])
    }

    fn take_part(&mut self, _alloc: Global, part: &[u8]) -> Result<(), RecordFault> {
        match self.rest.extend_from_slice(part) {
            Ok(()) => Ok(()),
            Err(_) => Err(RecordFault {
                line: self.lines.saturating_add(1),
                kind: Refusal::Memory,
            }),
        }
    }
}
